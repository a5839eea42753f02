//! Programs as lines: `class A | FIELDS | MEMBERS`, and `unit KEY CLASS LOCALS | CODE`.
//!
//! A field is `x 5`, `static s 7` or `static final k fresh`, the last with a fresh Object; a member is the
//! number of its name with its count of parameters and the number of its unit, as `main/1 0` or `3/1 2`.

use crate::code::code_of;
use crate::values::value_of;
use crate::words::first_word;
use anyhow::{Context, Result, bail};
use core_model::{ClassInfo, FieldInfo, Initial, MAIN, NEW, Program, RUN, UnitCode, UnitName};
use desk_base::{Name, Text};
use sqlite_items::Items;
use std::alloc::Global;

// Whether the word stands first, and what is written without it.
fn without<'a>(written: &'a str, word: &str) -> (bool, &'a str) {
    match written.strip_prefix(word) {
        Some(rest) => (true, rest),
        None => (false, written),
    }
}

fn field_of(alloc: Global, written: &str) -> Result<FieldInfo> {
    let (is_static, rest) = without(written, "static ");
    let (is_final, rest) = without(rest, "final ");
    let (name, initial) = first_word(rest);
    let initial = match initial {
        "fresh" => Initial::FreshObject,
        _ => Initial::Held(value_of(initial)?),
    };
    Ok(FieldInfo {
        name: Name::from_slice(alloc, name.as_bytes())?,
        is_static,
        is_final,
        initial,
    })
}

fn member_of(written: &str) -> Result<UnitName> {
    let (name, rest) = written.split_once('/').context("no count")?;
    let (params, unit) = first_word(rest);
    let name = match name {
        "new" => NEW,
        "main" => MAIN,
        "run" => RUN,
        _ => name.parse::<u32>()?,
    };
    Ok(UnitName {
        name,
        params: params.parse::<u32>()?,
        unit: unit.parse::<u32>()?,
    })
}

fn fields_of(alloc: Global, written: &str) -> Result<Items<FieldInfo>> {
    let mut fields = Items::new(alloc);
    for field in written.split(", ") {
        if !field.is_empty() {
            fields.push(field_of(alloc, field)?)?;
        }
    }
    Ok(fields)
}

fn members_of(alloc: Global, written: &str) -> Result<Items<UnitName>> {
    let mut members = Items::new(alloc);
    for member in written.split(", ") {
        members.push(member_of(member)?)?;
    }
    Ok(members)
}

fn class_of(alloc: Global, written: &str) -> Result<ClassInfo> {
    let (name, rest) = written.split_once(" |").context("no fields")?;
    let (fields, members) = rest.split_once(" | ").context("no members")?;
    Ok(ClassInfo {
        name: Name::from_slice(alloc, name.as_bytes())?,
        fields: fields_of(alloc, fields.trim())?,
        units: members_of(alloc, members)?,
    })
}

fn unit_of(alloc: Global, written: &str, is_static: bool) -> Result<UnitCode> {
    let (head, code) = written.split_once(" |").context("no code")?;
    let (key, rest) = first_word(head);
    let (class, locals) = first_word(rest);
    let (class, locals) = (class.parse::<u32>()?, locals.parse::<u32>()?);
    let key = Text::from_text(alloc, key)?;
    Ok(UnitCode {
        key,
        class,
        is_static,
        locals,
        code: code_of(alloc, code)?,
    })
}

fn add_line(alloc: Global, program: &mut Program, line: &str) -> Result<()> {
    let (is_static, rest) = without(line, "static ");
    let (sort, rest) = first_word(rest);
    match sort {
        "class" => program.classes.push(class_of(alloc, rest)?)?,
        "unit" => program.units.push(unit_of(alloc, rest, is_static)?)?,
        _ => bail!("no line of a program"),
    }
    Ok(())
}

fn add_lines(alloc: Global, program: &mut Program, text: &str) -> Result<()> {
    for line in text.lines() {
        if !line.is_empty() {
            add_line(alloc, program, line)?;
        }
    }
    Ok(())
}

/// The program that is written so, with the main of the class 0, and with the code in the place of `*`.
pub(crate) fn program_of(alloc: Global, written: &str, code: &str) -> Result<Program> {
    let (before, after) = written.split_once('*').context("no place for code")?;
    let text = format!(in alloc; "{before}{code}{after}")?;
    let mains = Items::from_slice(alloc, &[0])?;
    let mut program = Program {
        classes: Items::new(alloc),
        units: Items::new(alloc),
        mains,
        members: Items::new(alloc),
    };
    add_lines(alloc, &mut program, text.as_str())?;
    Ok(program)
}
