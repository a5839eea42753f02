//! Cases of whole files: of `java_reader`.

use crate::notation::text_of;
use crate::surfaces::put_bytes;
use crate::trees::sort_of;
use anyhow::{Context, Result, bail};
use java_reader::{ReadError, furthest, line_of, read_file};
use java_tree::{ClassTree, FileTree, MemberTree, TypeKind};
use std::alloc::Global;

fn put_error(out: &mut String, error: ReadError) -> Result<()> {
    match error {
        ReadError::Limit { which, at } => {
            put_bytes(out, which.text())?;
            write!(out, " passed at {at}")?;
        }
        ReadError::Lex { at } => write!(out, "no token at {at}")?,
        ReadError::Grammar { at } => write!(out, "no part at {at}")?,
        ReadError::OutOfMemory => out.push_str("out of memory")?,
    }
    Ok(())
}

fn tokens_of(member: &MemberTree) -> usize {
    match member {
        MemberTree::Field(field) => field.tokens.len(),
        MemberTree::Method(method) => method.tokens.len(),
        MemberTree::Sig(sig) => sig.tokens.len(),
        MemberTree::Ctor(ctor) => ctor.tokens.len(),
        MemberTree::Main(main) => main.tokens.len(),
    }
}

fn name_of(member: &MemberTree) -> &[u8] {
    match member {
        MemberTree::Field(field) => field.name.text.as_slice(),
        MemberTree::Method(method) => method.name.text.as_slice(),
        MemberTree::Sig(sig) => sig.name.text.as_slice(),
        MemberTree::Ctor(ctor) => ctor.name.text.as_slice(),
        MemberTree::Main(main) => main.name.text.as_slice(),
    }
}

fn put_member(out: &mut String, member: &MemberTree) -> Result<()> {
    write!(out, "; {} ", sort_of(member))?;
    put_bytes(out, name_of(member))?;
    write!(out, " of {} tokens", tokens_of(member))?;
    Ok(())
}

fn put_class(out: &mut String, class: &ClassTree) -> Result<()> {
    out.push_str(match class.kind {
        TypeKind::Class => "; class ",
        TypeKind::Interface => "; interface ",
    })?;
    put_bytes(out, class.name.text.as_slice())?;
    let (at, mods, tokens) = (class.name.span.start, class.mods.len(), class.tokens.len());
    write!(out, " at {at} with {mods} modifiers, of {tokens} tokens")?;
    for member in class.members.as_slice() {
        put_member(out, member)?;
    }
    Ok(())
}

fn put_outline(out: &mut String, file: &FileTree) -> Result<()> {
    out.push_str(match &file.package {
        Some(_) => "package, ",
        None => "no package, ",
    })?;
    write!(out, "{} imports", file.imports.len())?;
    for class in file.types.as_slice() {
        put_class(out, class)?;
    }
    Ok(())
}

// What is to be told of a file that is read.
fn put_file(out: &mut String, words: &str, file: &FileTree) -> Result<()> {
    match words {
        "outlined" => put_outline(out, file),
        "furthest" => Ok(()),
        _ => put_bytes(out, b"read"),
    }
}

fn put_text(alloc: Global, out: &mut String, words: &str, text: &[u8]) -> Result<()> {
    match read_file(alloc, text) {
        Ok(file) => put_file(out, words, &file),
        Err(error) if words != "furthest" => put_error(out, error),
        Err(ReadError::Grammar { at }) => Ok(write!(out, "{}", furthest(alloc, text, at)?)?),
        Err(_) => Ok(()),
    }
}

/// How far reading came where a part of the file isn't spelled, as a byte's offset; else nothing.
pub(crate) fn put_furthest(alloc: Global, out: &mut String, text: &[u8]) -> Result<()> {
    put_text(alloc, out, "furthest", text)
}

// The text in the gap of another.
fn put_between(alloc: Global, out: &mut String, around: &str, line: &str) -> Result<()> {
    let (before, after) = around.split_once('|').context("no gap")?;
    let mut text = before.as_bytes().to_vec(alloc)?;
    text.extend_from_slice(text_of(alloc, line)?.as_slice())?;
    text.extend_from_slice(after.as_bytes())?;
    put_text(alloc, out, "", text.as_slice())
}

// The line of a place in the text.
fn put_line(alloc: Global, out: &mut String, text: &str, line: &str) -> Result<()> {
    let text = text_of(alloc, text)?;
    let at = line.parse::<u32>()?;
    if at > 300_000 {
        bail!("a place that is too far");
    }
    write!(out, "line {}", line_of(text.as_slice(), at))?;
    Ok(())
}

/// What a file is read as, by itself or in the gap of another text; or the line of a place.
pub(crate) fn put_case(alloc: Global, out: &mut String, words: &str, line: &str) -> Result<()> {
    if let Some(around) = words.strip_prefix("between ") {
        return put_between(alloc, out, around, line);
    }
    if let Some(text) = words.strip_prefix("lines ") {
        return put_line(alloc, out, text, line);
    }
    put_text(alloc, out, words, text_of(alloc, line)?.as_slice())
}
