//! Cases of the libraries of the desk, from a table on standard input: each line is a text, and what a
//! public call answers to it is printed beside it. The table says by its headings which call is meant;
//! `table` has its form. An input that begins with the line `surfaces` is a Java file from there on, and
//! what its classes say to the others is printed, and nothing else; one that begins with the line
//! `furthest` is one too, and the place is printed to which reading it came, where a part isn't spelled.
#![tactic(auto)]

mod content;
mod files;
mod keys;
mod laws;
mod notation;
mod parts;
mod promises;
mod regions;
mod reports;
mod surfaces;
mod table;
mod tokens;
mod trees;

use anyhow::{Context, Result};
use files::put_furthest;
use std::alloc::Global;
use std::io::{self, Read, Write};
use std::str;
use surfaces::put_surfaces;
use table::put_table;

fn put_output(alloc: Global, out: &mut String, input: &[u8]) -> Result<()> {
    if let Some(file) = input.strip_prefix(b"surfaces\n") {
        return put_surfaces(alloc, out, file);
    }
    if let Some(file) = input.strip_prefix(b"furthest\n") {
        return put_furthest(alloc, out, file);
    }
    put_table(
        alloc,
        out,
        str::from_utf8(input).context("reading the table")?,
    )
}

fn main(rt: HostRuntime) -> Result<()> {
    let mut input = Vec::new(rt.alloc());
    rt.reader().read_to_end(&mut input)?;
    let mut out = String::new(rt.alloc());
    put_output(rt.alloc(), &mut out, input.as_slice())?;
    io::writer(&rt).write_all(out.as_bytes())?;
    Ok(())
}
