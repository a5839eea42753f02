//! The table: sections of lines, each below a heading `== WORDS`. A line that begins with `#` and a blank
//! is a remark; every other line that isn't empty is a case. Headings and remarks are printed as they are,
//! and behind each case an arrow and the answer. Below the heading `surfaces` stands a Java file instead.
//! What stands before the first heading is for the reader alone.

use crate::notation::put_answer;
use crate::surfaces::put_surfaces;
use crate::{files, keys, laws, parts, promises, regions, reports, tokens};
use anyhow::{Result, bail};
use std::alloc::Global;

/// A word, and those behind it.
pub(crate) fn first_word(words: &str) -> (&str, &str) {
    words.split_once(' ').unwrap_or((words, ""))
}

// What the call of the heading answers to the line.
fn put_case(alloc: Global, out: &mut String, heading: &str, line: &str) -> Result<()> {
    let (subject, words) = first_word(heading);
    match subject {
        "tokens" => tokens::put_case(alloc, out, words, line),
        "part" => parts::put_case(alloc, out, words, line),
        "file" => files::put_case(alloc, out, words, line),
        "promise" => promises::put_case(alloc, out, words, line),
        "regions" => regions::put_case(alloc, out, words, line),
        "key" => keys::put_case(alloc, out, words, line),
        "report" => reports::put_case(alloc, out, words, line),
        "law" => laws::put_case(out, line),
        _ => bail!("no cases of {subject}"),
    }
}

fn put_line(alloc: Global, out: &mut String, heading: &str, line: &str) -> Result<()> {
    out.push_str(line)?;
    if !line.is_empty() && !line.starts_with("# ") {
        let mut answer = String::new(alloc);
        put_case(alloc, &mut answer, heading, line)?;
        out.push_str(" => ")?;
        put_answer(out, answer.as_str())?;
    }
    out.push('\n')?;
    Ok(())
}

fn put_section(alloc: Global, out: &mut String, section: &str) -> Result<()> {
    let (heading, body) = section.split_once('\n').unwrap_or((section, ""));
    out.push_str(if out.is_empty() { "== " } else { "\n== " })?;
    write!(out, "{heading}\n")?;
    if heading == "surfaces" {
        return put_surfaces(alloc, out, body.as_bytes());
    }
    for line in body.lines() {
        put_line(alloc, out, heading, line)?;
    }
    Ok(())
}

/// The answers to all cases of the table.
pub(crate) fn put_table(alloc: Global, out: &mut String, table: &str) -> Result<()> {
    for section in table.split("\n== ").skip(1) {
        put_section(alloc, out, section)?;
    }
    Ok(())
}
