ghost use Rattle.std.specs.Prelude.{◌≡◌, IfOk};
ghost use Rattle.java_lexer.specs.Value as spec;

use desk_base::{Bytes, OutOfMemory};
use std::alloc::Global;

/// The value of a string literal: the bytes between its quotes, after escapes (JLS 8, 3.10.5).
pub fn string_value(alloc: Global, literal: &[u8]) -> Result<Bytes, OutOfMemory>
    ensures { IfOk result (λ value. value ≡ spec.string_value literal.now) }
{
    if literal.len() < 2 {
        return Ok(Bytes::new(alloc));
    }
    unescaped(alloc, &literal[1..literal.len() - 1])
}

/// The bytes with each escape replaced by the byte that it stands for.
fn unescaped(alloc: Global, mut text: &[u8]) -> Result<Bytes, OutOfMemory>
    ensures { IfOk result (λ value. value ≡ spec.unescaped text.entry.now) }
{
    let mut value = Bytes::new(alloc);
    while let [b, rest @ ..] = text {
        text = rest;
        if *b == b'\\'
            && let [c, after @ ..] = rest
        {
            value.push(escape_value(*c))?;
            text = after;
        } else {
            value.push(*b)?;
        }
    }
    Ok(value)
}

/// The byte that an escape stands for, by the byte behind its `\`.
fn escape_value(byte: u8) -> u8
    ensures { result ≡ spec.escape_value byte }
{
    match byte {
        b'b' => 8,
        b't' => b'\t',
        b'n' => b'\n',
        b'f' => 12,
        b'r' => b'\r',
        _ => byte,
    }
}
