//! The signs, by their bytes.
ghost use Rattle.std.specs.Prelude.{◌≡◌};
ghost use Rattle.java_lexer.specs.Scan as spec;

use java_tree::Kind;

/// The sign of two bytes.
#[tactic(auto, unfolding(crate::specs::Scan::double_sign))]
pub fn double_sign(first: u8, second: u8) -> Option<Kind>
    ensures { result ≡ spec.double_sign first second }
{
    if second == b'=' {
        before_equals(first)
    } else if first == second {
        twice(first)
    } else {
        None
    }
}

fn before_equals(first: u8) -> Option<Kind>
    ensures { result ≡ spec.choose spec.before_equals first }
{
    match first {
        b'=' => Some(Kind::Equal),
        b'!' => Some(Kind::NotEqual),
        b'<' => Some(Kind::AtMost),
        b'>' => Some(Kind::AtLeast),
        b'+' => Some(Kind::AddAssign),
        b'-' => Some(Kind::SubtractAssign),
        _ => None,
    }
}

fn twice(first: u8) -> Option<Kind>
    ensures { result ≡ spec.choose spec.twice first }
{
    match first {
        b'+' => Some(Kind::Increment),
        b'-' => Some(Kind::Decrement),
        b'&' => Some(Kind::And),
        b'|' => Some(Kind::Or),
        _ => None,
    }
}

/// The sign of one byte.
#[tactic(auto, unfolding(crate::specs::Scan::single_sign))]
pub fn single_sign(byte: u8) -> Option<Kind>
    ensures { result ≡ spec.single_sign byte }
{
    match byte {
        b'(' => Some(Kind::LParen),
        b')' => Some(Kind::RParen),
        b'{' => Some(Kind::LBrace),
        b'}' => Some(Kind::RBrace),
        b'[' => Some(Kind::LBracket),
        b']' => Some(Kind::RBracket),
        b';' => Some(Kind::Semicolon),
        b',' => Some(Kind::Comma),
        b'.' => Some(Kind::Dot),
        b'@' => Some(Kind::At),
        b'=' => Some(Kind::Assign),
        b'<' => Some(Kind::Less),
        b'>' => Some(Kind::Greater),
        b'+' => Some(Kind::Plus),
        b'-' => Some(Kind::Minus),
        b'*' => Some(Kind::Times),
        b'/' => Some(Kind::Divide),
        b'%' => Some(Kind::Remainder),
        b'!' => Some(Kind::Not),
        _ => None,
    }
}
