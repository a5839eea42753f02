//! The table: sections of cases, each below a heading `== WORDS` that says what is asked. A case is a line
//! that doesn't begin with a blank, and the lines behind it that do; it is a Java file. A line that begins
//! with `#` and a blank is a remark. Headings, remarks and cases are printed as they are, and behind each
//! case the lines of the answer, each behind an arrow. What stands before the first heading is for the
//! reader alone.

use crate::found::{put_bind_findings, put_consulted};
use crate::listing::put_code_of;
use crate::locks::put_lock_findings;
use crate::looks::put_look;
use crate::places::put_flows;
use crate::print::first_word;
use crate::same::put_same;
use crate::units::{Project, project_of};
use anyhow::{Result, bail};
use std::alloc::Global;

// What is asked of a project.
fn put_project(
    alloc: Global,
    out: &mut String,
    project: &Project,
    subject: &str,
    words: &str,
) -> Result<()> {
    match subject {
        "binding" => put_bind_findings(alloc, out, project),
        "consulted" => put_consulted(out, project, words),
        "locks" => put_lock_findings(alloc, out, project),
        "flows" => put_flows(alloc, out, project, words),
        "code" => put_code_of(alloc, out, project, words),
        _ => bail!("no cases of {subject}"),
    }
}

// What is asked of the units of a case.
fn put_bound(
    alloc: Global,
    out: &mut String,
    subject: &str,
    words: &str,
    case: &str,
) -> Result<()> {
    let project = project_of(alloc, case)?;
    put_project(alloc, out, &project, subject, words)
}

// What is asked by the heading of the case.
fn put_case(alloc: Global, out: &mut String, heading: &str, case: &str) -> Result<()> {
    let (subject, words) = first_word(heading);
    match subject {
        "same" => put_same(alloc, out, case, words),
        "look-ups" => put_look(alloc, out, words, case),
        _ => put_bound(alloc, out, subject, words, case),
    }
}

fn put_answer(out: &mut String, answer: &str) -> Result<()> {
    if answer.is_empty() {
        out.push_str("=> nothing\n")?;
    }
    for line in answer.lines() {
        writeln!(out, "=> {line}")?;
    }
    Ok(())
}

// A case, unless it is empty or a remark, with its answer.
fn put_block(alloc: Global, out: &mut String, heading: &str, block: &str) -> Result<()> {
    writeln!(out, "{block}")?;
    if block.is_empty() || block.starts_with("# ") {
        return Ok(());
    }
    let mut answer = String::new(alloc);
    put_case(alloc, &mut answer, heading, block)?;
    put_answer(out, answer.as_str())
}

fn put_section(alloc: Global, out: &mut String, section: &str) -> Result<()> {
    let (heading, body) = section.split_once('\n').unwrap_or((section, ""));
    out.push_str(if out.is_empty() { "== " } else { "\n== " })?;
    writeln!(out, "{heading}")?;
    let mut block = String::new(alloc);
    for line in body.lines() {
        if !line.starts_with(' ') && !block.is_empty() {
            put_block(alloc, out, heading, block.as_str())?;
            block.clear();
        }
        if !block.is_empty() {
            block.push('\n')?;
        }
        block.push_str(line)?;
    }
    if !block.is_empty() {
        put_block(alloc, out, heading, block.as_str())?;
    }
    Ok(())
}

/// The answers to all cases of the table.
pub(crate) fn put_table(alloc: Global, out: &mut String, table: &str) -> Result<()> {
    for section in table.split("\n== ").skip(1) {
        put_section(alloc, out, section)?;
    }
    Ok(())
}
