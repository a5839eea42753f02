//! The operators: which sign stands for which, and how tightly each binds.

ghost use Rattle.std.specs.Prelude.{◌≡◌, ◌≤◌};
ghost use Rattle.java_expressions.specs.Spelling as spelling;
ghost use Rattle.java_expressions.specs.Reading as spec;
ghost use Rattle.java_phrases.specs.Cursor.{ahead};

use java_phrases::Tokens;
use java_tree::{BinaryOp, Kind};

pub(crate) fn sign_of(operator: BinaryOp) -> Kind
    ensures { result ≡ spelling.sign_of operator }
{
    match operator {
        BinaryOp::Or => Kind::Or,
        BinaryOp::And => Kind::And,
        BinaryOp::Equal => Kind::Equal,
        BinaryOp::NotEqual => Kind::NotEqual,
        BinaryOp::Less => Kind::Less,
        BinaryOp::Greater => Kind::Greater,
        BinaryOp::AtMost => Kind::AtMost,
        BinaryOp::AtLeast => Kind::AtLeast,
        BinaryOp::Add => Kind::Plus,
        BinaryOp::Subtract => Kind::Minus,
        BinaryOp::Multiply => Kind::Times,
        BinaryOp::Divide => Kind::Divide,
        BinaryOp::Remainder => Kind::Remainder,
    }
}

/// From 1 for `||` to 6 for `*` (JLS 8, 15.17 to 15.24).
pub(crate) fn level_of(operator: BinaryOp) -> u8
    ensures value { result ≡ spelling.level_of operator }
    ensures small { result ≤ 6 }
{
    match operator {
        BinaryOp::Or => 1,
        BinaryOp::And => 2,
        BinaryOp::Equal | BinaryOp::NotEqual => 3,
        BinaryOp::Less | BinaryOp::Greater | BinaryOp::AtMost | BinaryOp::AtLeast => 4,
        BinaryOp::Add | BinaryOp::Subtract => 5,
        BinaryOp::Multiply | BinaryOp::Divide | BinaryOp::Remainder => 6,
    }
}

fn operator(kind: Kind) -> Option<BinaryOp>
    ensures { result ≡ spec.operator kind }
{
    match kind {
        Kind::Or => Some(BinaryOp::Or),
        Kind::And => Some(BinaryOp::And),
        Kind::Equal => Some(BinaryOp::Equal),
        Kind::NotEqual => Some(BinaryOp::NotEqual),
        Kind::Less => Some(BinaryOp::Less),
        Kind::Greater => Some(BinaryOp::Greater),
        Kind::AtMost => Some(BinaryOp::AtMost),
        Kind::AtLeast => Some(BinaryOp::AtLeast),
        Kind::Plus => Some(BinaryOp::Add),
        Kind::Minus => Some(BinaryOp::Subtract),
        Kind::Times => Some(BinaryOp::Multiply),
        Kind::Divide => Some(BinaryOp::Divide),
        Kind::Remainder => Some(BinaryOp::Remainder),
        _ => None,
    }
}

/// The next token as an operator that binds at least so tightly.
#[tactic(auto, unfolding(crate::specs::Reading::next_operator))]
pub(crate) fn next_operator(tokens: &Tokens, least: u8) -> Option<BinaryOp>
    ensures { result ≡ spec.next_operator least (ahead tokens.now) }
{
    let found = operator(tokens.peek()?)?;
    if level_of(found) < least {
        None
    } else {
        Some(found)
    }
}

fn goes_on_with(kind: Kind) -> bool
    ensures { result ≡ spelling.goes_on_with kind }
{
    match kind {
        Kind::Or
        | Kind::And
        | Kind::Equal
        | Kind::NotEqual
        | Kind::Less
        | Kind::Greater
        | Kind::AtMost
        | Kind::AtLeast
        | Kind::Plus
        | Kind::Minus
        | Kind::Times
        | Kind::Divide
        | Kind::Remainder
        | Kind::Dot
        | Kind::LParen => true,
        _ => false,
    }
}

/// Whether an expression would go on with the next token.
#[tactic(auto, unfolding(crate::specs::Reading::goes_on))]
pub(crate) fn goes_on(tokens: &Tokens) -> bool
    ensures { result ≡ spec.goes_on (ahead tokens.now) }
{
    match tokens.peek() {
        Some(kind) => goes_on_with(kind),
        None => false,
    }
}
