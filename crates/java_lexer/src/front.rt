//! The longest piece at the front of a text.
ghost use Rattle.std.specs.Prelude.{◌≡◌, ◌≢◌, ◌+◌, ◌<◌, ◌≤◌, ◌^◌, length, take, slice_index, true, false, None};
ghost use Rattle.std.specs.Char.{is_ascii_digit};
ghost use Rattle.java_lexer.specs.Chars as chars;
ghost use Rattle.java_lexer.specs.Scan as spec;
ghost use Rattle.java_lexer.specs.Lumps.{IsRun, IsComment};
ghost use Rattle.java_lexer.specs.Lexing.{Longest, Spells};
ghost use Rattle.java_lexer.specs.Front.{Begins};

use crate::scan::{
    byte, close_len, first_escape, is_blank, is_int, is_name_part, line_len, run_len, string_len,
};
use crate::signs::{double_sign, single_sign};
use crate::words::word_kind;
use java_tree::Kind;

/// The longest piece at the front of a text: a blank or a comment, or a token, of so many bytes; or
/// the offset of the byte at fault.
#[derive(Clone, Copy, Debug)]
pub enum Front {
    Gap(usize),
    Token(Kind, usize),
    Fault(usize),
}

/// What a text begins with.
pub fn front_of(text: &[u8]) -> Front
    requires some { 0 < length text.now }
    requires short { length text.now < 2 ^ 32 }
    ensures { Begins text.now result }
{
    let first = text[0];
    if is_name_part(first) {
        return run(text);
    }
    if let Some(sign) = double_sign(first, byte(text, 1)) {
        return Front::Token(sign, 2);
    }
    match first {
        b'/' => slash(text),
        b'"' => string(text),
        _ => short(text),
    }
}

/// A run of name characters: a name, a reserved word or a number.
fn run(text: &[u8]) -> Front
    requires { chars.is_name_part (slice_index text.now 0) ≡ true }
    ensures { Begins text.now result }
{
    let len = run_len(text);
    let run = &text[..len];
    if !byte(run, 0).is_ascii_digit() {
        Front::Token(kind_of_run(run), len)
    } else if is_int(run) {
        Front::Token(Kind::IntLiteral, len)
    } else {
        Front::Fault(0)
    }
}

/// The kind of a reserved word or a name.
fn kind_of_run(run: &[u8]) -> Kind
    requires run { IsRun run.now }
    requires first { is_ascii_digit (slice_index run.now 0) ≡ false }
    ensures { Spells result run.now }
{
    match word_kind(run) {
        Some(word) => word,
        None => Kind::Name,
    }
}

/// A comment, or the sign `/`.
fn slash(text: &[u8]) -> Front
    requires slash { slice_index text.now 0 ≡ 47 }
    requires short { length text.now < 2 ^ 32 }
    ensures { Begins text.now result }
{
    match byte(text, 1) {
        b'/' => comment(text, 2 + line_len(&text[2..])),
        b'*' => block(text),
        _ => Front::Token(Kind::Divide, 1),
    }
}

/// A comment from `/*` on.
fn block(text: &[u8]) -> Front
    requires slash { slice_index text.now 0 ≡ 47 }
    requires star { slice_index text.now 1 ≡ 42 }
    requires short { length text.now < 2 ^ 32 }
    ensures { Begins text.now result }
{
    match close_len(&text[2..]) {
        Some(len) => comment(text, 2 + len),
        None => Front::Fault(0), // an open comment, at its first byte
    }
}

/// A comment of so many bytes, in which a unicode escape is at fault.
fn comment(text: &[u8], len: usize) -> Front
    requires longest { Longest text.now len }
    requires comment { IsComment (take len text.now) }
    ensures { Begins text.now result }
{
    match first_escape(&text[..len]) {
        Some(at) => Front::Fault(at),
        None => Front::Gap(len),
    }
}

/// A string.
fn string(text: &[u8]) -> Front
    requires quote { slice_index text.now 0 ≡ 34 }
    requires short { length text.now < 2 ^ 32 }
    ensures { Begins text.now result }
{
    match string_len(&text[1..]) {
        Some(len) => Front::Token(Kind::StrLiteral, 1 + len),
        None => Front::Fault(0),
    }
}

/// A blank, or a sign of one byte.
fn short(text: &[u8]) -> Front
    requires some { 0 < length text.now }
    requires name { chars.is_name_part (slice_index text.now 0) ≡ false }
    requires double { spec.double_sign (slice_index text.now 0) (slice_index text.now 1) ≡ None }
    requires slash { slice_index text.now 0 ≢ 47 }
    requires quote { slice_index text.now 0 ≢ 34 }
    ensures { Begins text.now result }
{
    let first = byte(text, 0);
    if is_blank(first) {
        return Front::Gap(1);
    }
    match single_sign(first) {
        Some(sign) => Front::Token(sign, 1),
        None => Front::Fault(0),
    }
}
