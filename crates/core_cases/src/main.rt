//! Cases of the small machine, from a table on standard input: programs of core code, schedules, and the
//! states and accesses that they lead to. `table` has the form of the table.
#![tactic(auto)]

mod code;
mod program;
mod running;
mod table;
mod values;
mod words;

use anyhow::{Context, Result};
use std::io::{self, Read, Write};
use std::str;
use table::put_table;

fn main(rt: HostRuntime) -> Result<()> {
    let mut input = Vec::new(rt.alloc());
    rt.reader().read_to_end(&mut input)?;
    let mut out = String::new(rt.alloc());
    let table = str::from_utf8(input.as_slice()).context("reading the table")?;
    put_table(rt.alloc(), &mut out, table)?;
    io::writer(&rt).write_all(out.as_bytes())?;
    Ok(())
}
