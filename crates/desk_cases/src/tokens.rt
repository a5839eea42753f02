//! Cases of `java_lexer` and of the cursor of `java_phrases`.

use crate::notation::text_of;
use crate::surfaces::put_bytes;
use crate::table::first_word;
use anyhow::{Result, bail};
use java_lexer::{LexError, lex, string_value};
use java_phrases::{Tokens, read_type};
use java_tree::{Kind, Token, Ty};
use std::alloc::Global;

fn put_token(out: &mut String, token: &Token) -> Result<()> {
    let kind = token.kind;
    write!(out, "{kind:?} {}-{}", token.span.start, token.span.end)?;
    Ok(())
}

fn put_tokens(out: &mut String, tokens: &[Token]) -> Result<()> {
    for (i, token) in tokens.iter().enumerate() {
        out.push_str(if i == 0 { "" } else { ", " })?;
        put_token(out, token)?;
    }
    Ok(())
}

fn put_lexed(alloc: Global, out: &mut String, text: &[u8]) -> Result<()> {
    if text.len() > 300_000 {
        bail!("a text that is too long");
    }
    match lex(alloc, text) {
        Ok(tokens) => put_tokens(out, tokens.as_slice()),
        Err(LexError::Lex { at }) => Ok(write!(out, "no token at {at}")?),
        Err(LexError::OutOfMemory) => Ok(out.push_str("out of memory")?),
    }
}

/// A cursor at the first token of the text.
pub(crate) fn cursor(alloc: Global, text: &[u8]) -> Result<Tokens> {
    if text.len() > 300_000 {
        bail!("a text that is too long");
    }
    Ok(Tokens::new(alloc, lex(alloc, text)?)?)
}

pub(crate) fn put_kind(out: &mut String, kind: Option<Kind>) -> Result<()> {
    match kind {
        Some(kind) => write!(out, "{kind:?}")?,
        None => out.push_str("nothing")?,
    }
    Ok(())
}

fn put_type(out: &mut String, ty: &Ty) -> Result<()> {
    match ty {
        Ty::Int(_) => put_bytes(out, b"int"),
        Ty::Boolean(_) => put_bytes(out, b"boolean"),
        Ty::Named(name) => put_bytes(out, name.text.as_slice()),
    }
}

fn put_name(alloc: Global, out: &mut String, tokens: &mut Tokens) -> Result<()> {
    let word = tokens.word(alloc, Kind::Name)?;
    put_bytes(out, word.text.as_slice())
}

// What a call of the cursor answers.
fn put_call(alloc: Global, out: &mut String, tokens: &mut Tokens, call: &str) -> Result<()> {
    let (name, word) = first_word(call);
    match name {
        "peek" => put_kind(out, tokens.peek())?,
        "start" => write!(out, "{:?}", tokens.next_start())?,
        "kind" => put_kind(out, tokens.kind_at(word.parse::<usize>()?))?,
        "type" => put_type(out, &read_type(alloc, tokens)?)?,
        "sees" => write!(out, "{}", tokens.sees_text(Kind::Name, word.as_bytes()))?,
        "name" => put_name(alloc, out, tokens)?,
        "comma" => write!(out, "{:?}", tokens.sign(Kind::Comma).err())?,
        "keep" => write!(out, "{}", tokens.keep(alloc).len())?,
        _ => bail!("no call {name}"),
    }
    Ok(())
}

// A text, and calls of the cursor over it, one after another.
fn put_walk(alloc: Global, out: &mut String, line: &str) -> Result<()> {
    let mut calls = line.split(": ");
    let mut tokens = cursor(alloc, calls.next().unwrap_or("").as_bytes())?;
    for (i, call) in calls.enumerate() {
        out.push_str(if i == 0 { "" } else { ", " })?;
        put_call(alloc, out, &mut tokens, call)?;
    }
    Ok(())
}

/// The tokens of a text, the value of a string as it is written, or what calls of the cursor answer.
pub(crate) fn put_case(alloc: Global, out: &mut String, words: &str, line: &str) -> Result<()> {
    match words {
        "of a text" => put_lexed(alloc, out, text_of(alloc, line)?.as_slice()),
        "of a string" => {
            let literal = text_of(alloc, line)?;
            let value = string_value(alloc, literal.as_slice())?;
            put_bytes(out, value.as_slice())
        }
        "one after another" => put_walk(alloc, out, line),
        _ => bail!("no cases of tokens {words}"),
    }
}
