//! How far a blank, a run, a comment or a string goes.
ghost use Rattle.std.specs.Prelude.{◌≡◌, ◌≢◌, ◌+◌, ◌<◌, ◌≤◌, ◌^◌, ◌↔◌, IsTrue, not, length, slice_index, IfSome, IfNone, true, false};
ghost use Rattle.std.specs.List.{prefix_len, list_all};
ghost use Rattle.std.specs.Char.{is_ascii_digit};
ghost use Rattle.java_lexer.specs.Chars as chars;
ghost use Rattle.java_lexer.specs.Scan as spec;
ghost use Rattle.java_lexer.specs.Lumps.{IsInt, decimal_value, IsUnicodeEscapeAt, HasNoEscapeBefore};

/// The byte at a place, or 0 past the end.
pub fn byte(text: &[u8], at: usize) -> u8
    ensures value { result ≡ slice_index text.now at }
    ensures within { result ≢ 0 → at < length text.now }
{
    if at < text.len() { text[at] } else { 0 }
}

/// A space, tab, line feed, carriage return or form feed.
pub fn is_blank(byte: u8) -> bool
    ensures { result ≡ chars.is_blank byte }
{
    byte == b' ' || byte == b'\t' || byte == b'\n' || byte == b'\r' || byte == 12
}

fn is_line_end(byte: u8) -> bool
    ensures { result ≡ chars.is_line_end byte }
{
    byte == b'\n' || byte == b'\r'
}

/// An ASCII letter, a digit, `_` or `$`.
pub fn is_name_part(byte: u8) -> bool
    ensures { result ≡ chars.is_name_part byte }
{
    byte.is_ascii_alphabetic() || byte.is_ascii_digit() || byte == b'_' || byte == b'$'
}

fn is_plain(byte: u8) -> bool
    ensures { result ≡ chars.is_plain byte }
{
    !(byte == b'"' || byte == b'\\' || is_line_end(byte))
}

fn is_escaped(byte: u8) -> bool
    ensures { result ≡ chars.is_escaped byte }
{
    byte == b'b'
        || byte == b't'
        || byte == b'n'
        || byte == b'f'
        || byte == b'r'
        || byte == b'"'
        || byte == b'\''
        || byte == b'\\'
}

/// How many name characters begin the text.
pub fn run_len(text: &[u8]) -> usize
    ensures value { result ≡ prefix_len chars.is_name_part text.now }
    ensures within { result ≤ length text.now }
{
    let mut end = 0;
    while end < text.len() && is_name_part(text[end]) {
        end += 1;
    }
    end
}

/// How many bytes the text has up to the end of its first line.
pub fn line_len(text: &[u8]) -> usize
    ensures value { result ≡ prefix_len (λ b. not (chars.is_line_end b)) text.now }
    ensures within { result ≤ length text.now }
{
    let mut end = 0;
    while end < text.len() && !is_line_end(text[end]) {
        end += 1;
    }
    end
}

/// How many bytes the text has through its first `*/`.
pub fn close_len(mut text: &[u8]) -> Option<usize>
    requires { length text.now < 2 ^ 32 }
    ensures value { result ≡ spec.close_from 0 text.entry.now }
    ensures within { IfSome result (λ n. n ≤ length text.entry.now) }
{
    let mut at = 0;
    while let [b, rest @ ..] = text {
        if *b == b'*' && byte(rest, 0) == b'/' {
            return Some(at + 2);
        }
        at += 1;
        text = rest;
    }
    None
}

/// How many bytes a string has from behind its first quote through its last.
pub fn string_len(mut text: &[u8]) -> Option<usize>
    requires { length text.now < 2 ^ 32 }
    ensures value { result ≡ spec.string_from false 0 text.entry.now }
    ensures within { IfSome result (λ n. n ≤ length text.entry.now) }
{
    let mut at = 0;
    let mut escaped = false;
    while let [b, rest @ ..] = text {
        if escaped {
            if !is_escaped(*b) {
                return None;
            }
            escaped = false;
        } else if *b == b'"' {
            return Some(at + 1);
        } else if *b == b'\\' {
            escaped = true;
        } else if !is_plain(*b) {
            return None;
        }
        at += 1;
        text = rest;
    }
    None
}

/// Where the first unicode escape begins.
pub fn first_escape(comment: &[u8]) -> Option<usize>
    ensures found { IfSome result (λ at. IsUnicodeEscapeAt comment.now at) }
    ensures first { IfSome result (λ at. HasNoEscapeBefore comment.now at) }
    ensures within { IfSome result (λ at. at < length comment.now) }
    ensures none { IfNone result (HasNoEscapeBefore comment.now (length comment.now)) }
{
    let mut even = true;
    for at in 0..comment.len() {
        let is_slash = comment[at] == b'\\';
        if is_slash && even && byte(comment, at + 1) == b'u' {
            return Some(at);
        }
        even = !(is_slash && even);
    }
    None
}

/// The run is a number as it may stand.
pub fn is_int(run: &[u8]) -> bool
    ensures { IsTrue result ↔ IsInt run.now }
{
    match run {
        [] => false,
        [b'0', rest @ ..] => rest.is_empty(),
        _ => is_small(run),
    }
}

/// The run is of digits, and their number is at most 2147483648.
fn is_small(run: &[u8]) -> bool
    ensures { IsTrue result ↔ ((list_all is_ascii_digit run.now ≡ true) × (decimal_value run.now ≤ 2147483648)) }
{
    let mut value: u64 = 0;
    for digit in run {
        if !digit.is_ascii_digit() {
            return false;
        }
        value = (value * 10 + u64::from(*digit - b'0')).min(TOO_LARGE);
    }
    value < TOO_LARGE
}

/// One more than the greatest number that may stand.
const TOO_LARGE: u64 = 2147483649;
