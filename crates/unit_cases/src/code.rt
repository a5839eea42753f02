//! Core code as lines, each instruction in one and the code inside it below, two blanks further in.

use crate::print::{put_bytes, put_indent, put_member};
use anyhow::Result;
use core_model::Op;
use desk_base::Name;
use lowering::{Constant, NamedClaim, NamedCode, NamedInstr, NamedKnown, NamedNote, NamedPlain};
use std::alloc::Global;

/// What is still to be printed: a line, unless it is empty, and behind it instructions, the last of them
/// first.
#[derive(Drop)]
struct Piece<'a> {
    depth: u32,
    line: &'static str,
    instrs: &'a [NamedInstr],
}

pub(crate) fn put_text(out: &mut String, text: &[u8]) -> Result<()> {
    out.push('"')?;
    for byte in text {
        let byte = *byte;
        if (32..=126).contains(&byte) && byte != b'"' && byte != b'\\' {
            out.push(char::from(byte))?;
        } else {
            write!(out, "\\{byte:02x}")?;
        }
    }
    out.push('"')?;
    Ok(())
}

/// A value that stands in the code.
fn put_constant(out: &mut String, value: &Constant) -> Result<()> {
    match value {
        Constant::Int(number) => write!(out, "{number}")?,
        Constant::Boolean(is) => write!(out, "{is}")?,
        Constant::Null => out.push_str("null")?,
        Constant::Text(text) => put_text(out, text.as_slice())?,
    }
    Ok(())
}

fn op_text(op: Op) -> &'static str {
    match op {
        Op::Add => "op +",
        Op::Subtract => "op -",
        Op::Multiply => "op *",
        Op::Divide => "op /",
        Op::Remainder => "op %",
        Op::Less => "op <",
        Op::Greater => "op >",
        Op::AtMost => "op <=",
        Op::AtLeast => "op >=",
        Op::Equal => "op ==",
        Op::NotEqual => "op !=",
    }
}

// An access to a field of the class that the note tells.
fn put_access(out: &mut String, word: &str, note: &NamedNote, field: &Name) -> Result<()> {
    match &note.known {
        NamedKnown::Class(class) => put_member(out, word, class, field),
        NamedKnown::Nothing | NamedKnown::Monitor(_) => put_bytes(out, b"an unknown field"),
    }
}

fn put_made(out: &mut String, class: &Name, count: u32) -> Result<()> {
    out.push_str("make ")?;
    put_bytes(out, class.as_slice())?;
    write!(out, "/{count}")?;
    Ok(())
}

fn put_called(out: &mut String, note: &NamedNote, method: &Name, count: u32) -> Result<()> {
    put_access(out, "call ", note, method)?;
    write!(out, "/{count}")?;
    Ok(())
}

fn put_called_static(out: &mut String, class: &Name, method: &Name, count: u32) -> Result<()> {
    put_member(out, "call_static ", class, method)?;
    write!(out, "/{count}")?;
    Ok(())
}

fn put_value(out: &mut String, value: &Constant) -> Result<()> {
    out.push_str("const ")?;
    put_constant(out, value)
}

fn put_local(out: &mut String, word: &str, local: u32) -> Result<()> {
    write!(out, "{word} {local}")?;
    Ok(())
}

fn put_plain(out: &mut String, note: &NamedNote, plain: &NamedPlain) -> Result<()> {
    match plain {
        NamedPlain::Const(value) => put_value(out, value),
        NamedPlain::Get(local) => put_local(out, "get", *local),
        NamedPlain::Set(local) => put_local(out, "set", *local),
        NamedPlain::Drop => put_bytes(out, b"drop"),
        NamedPlain::Field(field) => put_access(out, "field ", note, field),
        NamedPlain::FieldKeep(field) => put_access(out, "field_keep ", note, field),
        NamedPlain::PutField(field) => put_access(out, "put_field ", note, field),
        NamedPlain::Static(class, field) => put_member(out, "static ", class, field),
        NamedPlain::PutStatic(class, field) => put_member(out, "put_static ", class, field),
        NamedPlain::Make(class, count) => put_made(out, class, *count),
        NamedPlain::MakePlain => put_bytes(out, b"make_plain"),
        NamedPlain::Call(method, count) => put_called(out, note, method, *count),
        NamedPlain::CallStatic(class, method, count) => {
            put_called_static(out, class, method, *count)
        }
        NamedPlain::Op(op) => put_bytes(out, op_text(*op).as_bytes()),
        NamedPlain::Neg => put_bytes(out, b"neg"),
        NamedPlain::Not => put_bytes(out, b"not"),
        NamedPlain::Start => put_bytes(out, b"start"),
        NamedPlain::Return => put_bytes(out, b"return"),
        NamedPlain::ReturnValue => put_bytes(out, b"return_value"),
    }
}

fn put_claim(out: &mut String, claim: &NamedClaim) -> Result<()> {
    match claim {
        NamedClaim::Local(local) => write!(out, " {local}")?,
        NamedClaim::Field(local, _, field) => {
            write!(out, " {local}.")?;
            put_bytes(out, field.as_slice())?;
        }
        NamedClaim::Static(class, field) => put_member(out, " ", class, field)?,
        NamedClaim::Class(class) => {
            out.push(' ')?;
            put_bytes(out, class.as_slice())?;
        }
    }
    Ok(())
}

fn put_enter(out: &mut String, note: &NamedNote) -> Result<()> {
    out.push_str("enter")?;
    match &note.known {
        NamedKnown::Monitor(claim) => put_claim(out, claim),
        NamedKnown::Nothing | NamedKnown::Class(_) => Ok(()),
    }
}

fn put_enter_class(out: &mut String, class: &Name) -> Result<()> {
    out.push_str("enter_class ")?;
    put_bytes(out, class.as_slice())
}

// The line of an instruction that no other line stands for.
fn put_line(out: &mut String, depth: u32, instr: &NamedInstr) -> Result<()> {
    put_indent(out, depth)?;
    match instr {
        NamedInstr::Do(note, plain) => put_plain(out, note, plain)?,
        NamedInstr::If(_, _, _) => out.push_str("if")?,
        NamedInstr::While(_, _, _) => out.push_str("while")?,
        NamedInstr::Enter(note, _) => put_enter(out, note)?,
        NamedInstr::EnterClass(_, class, _) => put_enter_class(out, class)?,
    }
    out.push('\n')?;
    Ok(())
}

// Puts code on top of what is still to be printed.
fn push_code<'a>(
    pieces: &mut Vec<Piece<'a>>,
    depth: u32,
    line: &'static str,
    code: &'a NamedCode,
) -> Result<()> {
    pieces.push(Piece {
        depth,
        line,
        instrs: code.instrs(),
    })?;
    Ok(())
}

// Puts what is inside an instruction on top of what is still to be printed.
fn push_inner<'a>(pieces: &mut Vec<Piece<'a>>, depth: u32, instr: &'a NamedInstr) -> Result<()> {
    let depth = depth.saturating_add(1);
    match instr {
        NamedInstr::Do(_, _) => {}
        NamedInstr::If(_, first, second) => {
            push_code(pieces, depth, "else", second)?;
            push_code(pieces, depth, "", first)?;
        }
        NamedInstr::While(_, condition, body) => {
            push_code(pieces, depth, "do", body)?;
            push_code(pieces, depth, "", condition)?;
        }
        NamedInstr::Enter(_, block) => push_code(pieces, depth, "", block)?,
        NamedInstr::EnterClass(_, _, block) => push_code(pieces, depth, "", block)?,
    }
    Ok(())
}

fn put_piece<'a>(out: &mut String, pieces: &mut Vec<Piece<'a>>, piece: Piece<'a>) -> Result<()> {
    if !piece.line.is_empty() {
        put_indent(out, piece.depth.saturating_sub(1))?;
        writeln!(out, "{}", piece.line)?;
    }
    let Some(last) = piece.instrs.len().checked_sub(1) else {
        return Ok(());
    };
    let first = &piece.instrs[last];
    let rest = &piece.instrs[..last];
    put_line(out, piece.depth, first)?;
    pieces.push(Piece {
        depth: piece.depth,
        line: "",
        instrs: rest,
    })?;
    push_inner(pieces, piece.depth, first)
}

/// Code, its outermost instructions two blanks in.
pub(crate) fn put_code(alloc: Global, out: &mut String, code: &NamedCode) -> Result<()> {
    let mut pieces = Vec::new(alloc);
    push_code(&mut pieces, 1, "", code)?;
    for _ in 0..u64::MAX {
        let Some(piece) = pieces.pop() else {
            break;
        };
        put_piece(out, &mut pieces, piece)?;
    }
    Ok(())
}
