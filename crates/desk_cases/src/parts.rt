//! Cases of the parts of a file: of `java_heads`, `java_expressions`, `java_statements` and `java_members`.

use crate::notation::text_of;
use crate::table::first_word;
use crate::tokens::{cursor, put_kind};
use crate::trees::{Annotated, Shape};
use anyhow::{Result, bail};
use desk_base::Name;
use java_expressions::{read_expr, read_post};
use java_heads::{read_field, read_header, read_import, read_package, read_sig};
use java_members::read_member;
use java_phrases::{SyntaxError, Tokens};
use java_statements::read_block;
use std::alloc::Global;

// Prints what was read, or why nothing was, and answers whether there is a tree. It is generic, so that the
// drop of a tree is spelled out here alone.
fn put_read<T: Shape + Drop>(out: &mut String, read: Result<T, SyntaxError>) -> Result<bool> {
    match read {
        Ok(tree) => {
            tree.put(out)?;
            return Ok(true);
        }
        Err(SyntaxError::NotSpelled) => out.push_str("not spelled")?,
        Err(SyntaxError::OutOfMemory) => out.push_str("out of memory")?,
    }
    Ok(false)
}

fn put_head(alloc: Global, out: &mut String, tokens: &mut Tokens, kind: &str) -> Result<bool> {
    match kind {
        "package" => put_read(out, read_package(alloc, tokens)),
        "import" => put_read(out, read_import(alloc, tokens)),
        "header" => put_read(out, read_header(alloc, tokens)),
        "method of an interface" => put_read(out, read_sig(alloc, tokens)),
        "field" => put_read(out, read_field(alloc, tokens)),
        "annotated field" => put_read(out, read_field(alloc, tokens).map(Annotated)),
        _ => bail!("no part {kind}"),
    }
}

fn put_body(alloc: Global, out: &mut String, tokens: &mut Tokens, words: &str) -> Result<bool> {
    let (kind, limit) = words.split_once(" within ").unwrap_or((words, "64"));
    let limit = limit.parse::<u8>()?;
    match kind {
        "expression" => put_read(out, read_expr(alloc, tokens, limit)),
        "post" => put_read(out, read_post(alloc, tokens, limit)),
        "block" => put_read(out, read_block(alloc, tokens, limit)),
        _ => put_head(alloc, out, tokens, kind),
    }
}

fn put_member(alloc: Global, out: &mut String, tokens: &mut Tokens, class: &str) -> Result<bool> {
    let class = Name::from_slice(alloc, class.as_bytes())?;
    put_read(out, read_member(alloc, tokens, &class))
}

fn put_part(alloc: Global, out: &mut String, tokens: &mut Tokens, words: &str) -> Result<bool> {
    match words.strip_prefix("member of ") {
        Some(class) => put_member(alloc, out, tokens, class),
        None => put_body(alloc, out, tokens, words),
    }
}

// The least number of nodes within which a block is read.
fn put_nodes(alloc: Global, out: &mut String, text: &[u8]) -> Result<()> {
    for limit in 0..=64u8 {
        let mut tokens = cursor(alloc, text)?;
        let mut shape = String::new(alloc);
        if put_read(&mut shape, read_block(alloc, &mut tokens, limit))? {
            write!(out, "{limit} nodes")?;
            return Ok(());
        }
    }
    bail!("no block")
}

/// The part that the heading names at the front of a text, and what stands next behind it; of a block
/// perhaps its nodes.
pub(crate) fn put_case(alloc: Global, out: &mut String, words: &str, line: &str) -> Result<()> {
    let text = text_of(alloc, line)?;
    if words == "nodes of a block" {
        return put_nodes(alloc, out, text.as_slice());
    }
    let mut tokens = cursor(alloc, text.as_slice())?;
    let is_read = put_part(alloc, out, &mut tokens, words)?;
    if is_read && tokens.peek().is_some() {
        out.push_str(", then ")?;
        put_kind(out, tokens.peek())?;
    }
    Ok(())
}
