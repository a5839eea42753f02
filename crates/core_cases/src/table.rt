//! The table: sections of lines, each below a heading `== WORDS`. A line that begins with `#` and a blank
//! is a remark; every other line that isn't empty is a case. Headings and remarks are printed as they are,
//! and behind each case an arrow and the answer. Below the heading `program` stands the program that the
//! sections behind it run, each with the code of the case, or of the heading, in the place of its `*`.
//! What stands before the first heading is for the reader alone.

use crate::running::{Run, put_accesses, put_state};
use crate::values::put_operator;
use anyhow::{Context, Result, bail};
use std::alloc::Global;

// So many steps of the first thread.
fn schedule_of_steps(alloc: Global, steps: &str) -> Result<String> {
    let mut schedule = String::new(alloc);
    for _ in 0..steps.parse::<u32>()? {
        schedule.push_str(" 0")?;
    }
    Ok(schedule)
}

// `CODE: STEPS`, run by the first thread alone.
fn put_steps(alloc: Global, out: &mut String, program: &str, line: &str) -> Result<()> {
    let (code, steps) = line.rsplit_once(": ").context("no steps")?;
    let schedule = schedule_of_steps(alloc, steps)?;
    let run = Run {
        program,
        code,
        mains: "0",
        schedule: schedule.as_str(),
    };
    put_state(alloc, out, &run)
}

// The heading has the mains and the code, the line the schedule.
fn run_of<'a>(program: &'a str, heading: &'a str, schedule: &'a str) -> Result<Run<'a>> {
    let (mains, code) = heading.split_once(" run ").context("no code")?;
    Ok(Run {
        program,
        code,
        mains,
        schedule,
    })
}

// What the call of the heading answers to the line.
fn put_case(
    alloc: Global,
    out: &mut String,
    program: &str,
    heading: &str,
    line: &str,
) -> Result<()> {
    if heading == "steps" {
        return put_steps(alloc, out, program, line);
    }
    if heading == "operators" {
        return put_operator(alloc, out, line);
    }
    if let Some(rest) = heading.strip_prefix("states of mains ") {
        return put_state(alloc, out, &run_of(program, rest, line)?);
    }
    if let Some(rest) = heading.strip_prefix("accesses of mains ") {
        return put_accesses(alloc, out, &run_of(program, rest, line)?);
    }
    bail!("no cases of {heading}")
}

fn put_line(
    alloc: Global,
    out: &mut String,
    program: &str,
    heading: &str,
    line: &str,
) -> Result<()> {
    out.push_str(line)?;
    if heading != "program" && !line.is_empty() && !line.starts_with("# ") {
        out.push_str(" => ")?;
        put_case(alloc, out, program, heading, line)?;
    }
    out.push('\n')?;
    Ok(())
}

fn put_section(alloc: Global, out: &mut String, program: &str, section: &str) -> Result<()> {
    let (heading, body) = section.split_once('\n').unwrap_or((section, ""));
    out.push_str(if out.is_empty() { "== " } else { "\n== " })?;
    write!(out, "{heading}\n")?;
    for line in body.lines() {
        put_line(alloc, out, program, heading, line)?;
    }
    Ok(())
}

// A program, and the sections whose cases run it.
fn put_part(alloc: Global, out: &mut String, part: &str) -> Result<()> {
    let (program, _) = part.split_once("\n== ").unwrap_or((part, ""));
    out.push_str(if out.is_empty() {
        "== program\n"
    } else {
        "\n== program\n"
    })?;
    for line in program.lines() {
        put_line(alloc, out, program, "program", line)?;
    }
    for section in part.split("\n== ").skip(1) {
        put_section(alloc, out, program, section)?;
    }
    Ok(())
}

/// The answers to all cases of the table, each below the program that it runs.
pub(crate) fn put_table(alloc: Global, out: &mut String, table: &str) -> Result<()> {
    for part in table.split("\n== program\n").skip(1) {
        put_part(alloc, out, part)?;
    }
    Ok(())
}
