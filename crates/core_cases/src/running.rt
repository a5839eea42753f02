//! Runs of a program, and what they come to.

use crate::program::program_of;
use anyhow::Result;
use core_model::{Access, Config, Obj, Program, Thread, advance, begin, next_access, step};
use std::alloc::Global;

/// A run as it is written: the program, the code in it, the classes whose mains begin, and the threads that
/// step, one after another.
#[derive(Drop)]
pub(crate) struct Run<'a> {
    pub(crate) program: &'a str,
    pub(crate) code: &'a str,
    pub(crate) mains: &'a str,
    pub(crate) schedule: &'a str,
}

fn numbers_of(alloc: Global, written: &str) -> Result<Vec<u32>> {
    let mut numbers = Vec::new(alloc);
    if written == "none" {
        return Ok(numbers);
    }
    for number in written.split_whitespace() {
        numbers.push(number.parse::<u32>()?)?;
    }
    Ok(numbers)
}

fn put_thread(out: &mut String, thread: &Thread) -> Result<()> {
    write!(out, "{:?}", thread.mode)?;
    for call in thread.calls.as_slice() {
        let (locals, temps) = (call.locals.as_slice(), call.temps.as_slice());
        write!(out, " {}{locals:?}{temps:?}", call.unit)?;
    }
    out.push_str("; ")?;
    Ok(())
}

fn put_object(out: &mut String, object: &Obj) -> Result<()> {
    let fields = object.fields.as_slice();
    write!(out, "{fields:?}")?;
    if let Some(owner) = object.owner {
        write!(out, "{owner}*{}", object.count)?;
    }
    Ok(())
}

// Of each thread its mode and then, from the first call on, its unit, locals and temporaries, the top
// last; of each object its fields, owner and count.
fn put_config(out: &mut String, config: &Config) -> Result<()> {
    for thread in config.threads.as_slice() {
        put_thread(out, thread)?;
    }
    for object in config.objects.as_slice() {
        put_object(out, object)?;
    }
    Ok(())
}

// The state behind a schedule, each step made of the state itself.
fn moved(alloc: Global, program: &Program, mains: &[u32], schedule: &[u32]) -> Result<Config> {
    let mut config = begin(alloc, program, mains)?;
    for thread in schedule {
        config = advance(alloc, program, config, *thread)?;
    }
    Ok(config)
}

// The same, each step made by a copy.
fn copied(alloc: Global, program: &Program, mains: &[u32], schedule: &[u32]) -> Result<Config> {
    let mut config = begin(alloc, program, mains)?;
    for thread in schedule {
        config = step(alloc, program, &config, *thread)?;
    }
    Ok(config)
}

fn put_moved(
    alloc: Global,
    out: &mut String,
    program: &Program,
    mains: &[u32],
    schedule: &[u32],
) -> Result<()> {
    let config = moved(alloc, program, mains, schedule)?;
    put_config(out, &config)
}

fn put_copied(
    alloc: Global,
    out: &mut String,
    program: &Program,
    mains: &[u32],
    schedule: &[u32],
) -> Result<()> {
    let config = copied(alloc, program, mains, schedule)?;
    put_config(out, &config)
}

fn put_both(
    alloc: Global,
    out: &mut String,
    program: &Program,
    mains: &[u32],
    schedule: &[u32],
) -> Result<()> {
    let mut other = String::new(alloc);
    put_copied(alloc, &mut other, program, mains, schedule)?;
    let mut line = String::new(alloc);
    put_moved(alloc, &mut line, program, mains, schedule)?;
    out.push_str(line.as_str())?;
    if line.as_str() != other.as_str() {
        write!(out, " but by copies {other}")?;
    }
    Ok(())
}

/// The state that the run comes to; both states where steps of a copy come to another one.
pub(crate) fn put_state(alloc: Global, out: &mut String, run: &Run<'_>) -> Result<()> {
    let mains = numbers_of(alloc, run.mains)?;
    let schedule = numbers_of(alloc, run.schedule)?;
    let program = program_of(alloc, run.program, run.code)?;
    put_both(alloc, out, &program, mains.as_slice(), schedule.as_slice())
}

fn put_access(out: &mut String, access: Option<Access>) -> Result<()> {
    match access {
        None => out.push_str("none")?,
        Some(
            Access {
                object,
                field,
                write,
            },
        ) => {
            let word = if write { "write" } else { "read" };
            write!(out, "{word} of {object}.{field}")?;
        }
    }
    Ok(())
}

fn put_three(out: &mut String, program: &Program, config: &Config) -> Result<()> {
    for thread in 0..3 {
        out.push_str(if thread == 0 { "" } else { "; " })?;
        put_access(out, next_access(program, config, thread))?;
    }
    Ok(())
}

fn put_next(
    alloc: Global,
    out: &mut String,
    program: &Program,
    mains: &[u32],
    schedule: &[u32],
) -> Result<()> {
    let config = moved(alloc, program, mains, schedule)?;
    put_three(out, program, &config)
}

/// The next access of each of the first three threads behind the run.
pub(crate) fn put_accesses(alloc: Global, out: &mut String, run: &Run<'_>) -> Result<()> {
    let mains = numbers_of(alloc, run.mains)?;
    let schedule = numbers_of(alloc, run.schedule)?;
    let program = program_of(alloc, run.program, run.code)?;
    put_next(alloc, out, &program, mains.as_slice(), schedule.as_slice())
}
