//! Names, keys and blanks, as they are printed.

use anyhow::Result;
use desk_base::{Name, PromiseKey};
use result_records::{Finding, key_text, promise_text};
use std::alloc::Global;
use std::str;

/// Bytes that are UTF-8.
pub(crate) fn put_bytes(out: &mut String, bytes: &[u8]) -> Result<()> {
    out.push_str(str::from_utf8(bytes).unwrap_or("?"))?;
    Ok(())
}

/// A word, a class and the name of one of its members.
pub(crate) fn put_member(out: &mut String, word: &str, class: &Name, name: &Name) -> Result<()> {
    out.push_str(word)?;
    put_bytes(out, class.as_slice())?;
    out.push('.')?;
    put_bytes(out, name.as_slice())
}

/// So many steps of two blanks.
pub(crate) fn put_indent(out: &mut String, depth: u32) -> Result<()> {
    for _ in 0..depth {
        out.push_str("  ")?;
    }
    Ok(())
}

/// The key of a promise.
pub(crate) fn put_promise(alloc: Global, out: &mut String, key: &PromiseKey) -> Result<()> {
    out.push_str(promise_text(alloc, key)?.as_str())?;
    Ok(())
}

/// The key of a finding with its place and its subject.
pub(crate) fn put_finding(alloc: Global, out: &mut String, finding: &Finding) -> Result<()> {
    let key = key_text(alloc, &finding.key)?;
    let (place, subject) = (finding.place, finding.subject.as_str());
    write!(out, "{} at {place}: {subject}", key.as_str())?;
    Ok(())
}

/// A word, and those behind it.
pub(crate) fn first_word(words: &str) -> (&str, &str) {
    words.split_once(' ').unwrap_or((words, ""))
}
