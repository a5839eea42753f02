//! Cases of bound units, from a table on standard input: each is a Java file, or two layouts of one, and
//! what the calls on its units answer is printed below it. The table says by its headings what is asked;
//! `table` has its form.
#![tactic(auto)]

mod code;
mod found;
mod listing;
mod locks;
mod looks;
mod places;
mod print;
mod same;
mod table;
mod units;

use anyhow::{Context, Result};
use std::io::{self, Read, Write};
use std::str;
use table::put_table;

fn main(rt: HostRuntime) -> Result<()> {
    let mut input = Vec::new(rt.alloc());
    rt.reader().read_to_end(&mut input)?;
    let table = str::from_utf8(input.as_slice()).context("reading the table")?;
    let mut out = String::new(rt.alloc());
    put_table(rt.alloc(), &mut out, table)?;
    io::writer(&rt).write_all(out.as_bytes())?;
    Ok(())
}
