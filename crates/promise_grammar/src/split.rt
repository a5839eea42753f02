ghost use Rattle.std.specs.Prelude.{◌≡◌, ◌==◌, ◌≤◌, length, Some, None, MatchOption};
ghost use Rattle.std.specs.List.{position_or_len};
ghost use Rattle.promise_grammar.specs.Split.{first_split, closing_split};

use crate::word::is_blank;

/// How many bytes stand before the first such byte.
fn len_before(byte: u8, bytes: &[u8]) -> usize
    ensures value { result ≡ position_or_len (λ b. b == byte) bytes.now }
    ensures within { result ≤ length bytes.now }
{
    let mut len = 0;
    while len < bytes.len() && bytes[len] != byte {
        len += 1;
    }
    len
}

/// What stands before the first such byte, and after it.
pub fn split_first(byte: u8, bytes: &[u8]) -> Option<(&[u8], &[u8])>
    ensures { MatchOption result (first_split byte bytes.now ≡ None)
        (λ p. first_split byte bytes.now ≡ Some (p.0.now, p.1.now)) }
{
    let len = len_before(byte, bytes);
    if len < bytes.len() {
        Some((&bytes[..len], &bytes[len + 1..]))
    } else {
        None
    }
}

/// What stands before the last `)` that more than blanks follow, and after it.
pub fn split_closing(bytes: &[u8]) -> Option<(&[u8], &[u8])>
    ensures { MatchOption result (closing_split bytes.now ≡ None)
        (λ p. closing_split bytes.now ≡ Some (p.0.now, p.1.now)) }
{
    let mut at = bytes.len();
    let mut ends = true;
    'backwards: while at > 0 {
        at -= 1;
        let byte = bytes[at];
        if byte == b')' && !ends {
            return Some((&bytes[..at], &bytes[at + 1..]));
        }
        ends = ends && is_blank(byte);
    }
    None
}
