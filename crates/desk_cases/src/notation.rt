//! How a text stands in one line, and how an answer does.

use anyhow::{Context, Result, bail};
use std::alloc::Global;

/// What stands for a byte behind the mark `~`.
const SIGNS: [(char, u8); 5] = [
    ('n', b'\n'),
    ('r', b'\r'),
    ('t', b'\t'),
    ('f', b'\x0c'),
    ('s', b' '),
];

// Two digits of base sixteen, and what follows.
fn put_coded(text: &mut Vec<u8>, written: &str) -> Result<()> {
    let (digits, rest) = written.split_at_checked(2).context("two digits")?;
    text.push(u8::from_str_radix(digits, 16)?)?;
    text.extend_from_slice(rest.as_bytes())?;
    Ok(())
}

// A count, a text in brackets that is put so many times, and what follows.
fn put_repeated(text: &mut Vec<u8>, written: &str) -> Result<()> {
    let (count, rest) = written.split_once('[').context("an unknown sign")?;
    let (again, rest) = rest.split_once(']').context("no end of what repeats")?;
    for _ in 0..count.parse::<u32>()? {
        text.extend_from_slice(again.as_bytes())?;
    }
    text.extend_from_slice(rest.as_bytes())?;
    Ok(())
}

// What stands behind a mark.
fn put_marked(text: &mut Vec<u8>, written: &str) -> Result<()> {
    if let Some(rest) = written.strip_prefix('.') {
        text.extend_from_slice(rest.as_bytes())?;
        return Ok(());
    }
    if let Some(rest) = written.strip_prefix('x') {
        return put_coded(text, rest);
    }
    for (sign, byte) in SIGNS {
        if let Some(rest) = written.strip_prefix(sign) {
            text.push(byte)?;
            text.extend_from_slice(rest.as_bytes())?;
            return Ok(());
        }
    }
    put_repeated(text, written)
}

/// The text that a line stands for. `~n`, `~r`, `~t`, `~f` and `~s` are a line feed, a carriage return, a
/// tab, a form feed and a blank, `~x` and two digits of base sixteen a byte, `~3[ab]` is `ababab`, and
/// `~.` is nothing.
pub(crate) fn text_of(alloc: Global, line: &str) -> Result<Vec<u8>> {
    let mut text = Vec::new(alloc);
    let mut pieces = line.split('~');
    if let Some(first) = pieces.next() {
        text.extend_from_slice(first.as_bytes())?;
    }
    for piece in pieces {
        put_marked(&mut text, piece)?;
    }
    if text.len() > 300_000 {
        bail!("a text of {} bytes", text.len());
    }
    Ok(text)
}

fn put_char(out: &mut String, sign: char) -> Result<()> {
    match sign {
        '\n' => out.push_str("~n")?,
        '\r' => out.push_str("~r")?,
        '\t' => out.push_str("~t")?,
        '\x0c' => out.push_str("~f")?,
        '\0'..='\x1f' | '~' => write!(out, "~x{:02x}", sign as u32)?,
        _ => out.push(sign)?,
    }
    Ok(())
}

/// An answer in one line, in the same notation; of one that is long only how many bytes it has.
pub(crate) fn put_answer(out: &mut String, answer: &str) -> Result<()> {
    if answer.len() > 1000 {
        write!(out, "{} bytes", answer.len())?;
        return Ok(());
    }
    let (shown, end) = match answer.strip_suffix(' ') {
        Some(shown) => (shown, "~s"),
        None if answer.is_empty() => ("", "~."),
        None => (answer, ""),
    };
    for sign in shown.chars() {
        put_char(out, sign)?;
    }
    out.push_str(end)?;
    Ok(())
}
