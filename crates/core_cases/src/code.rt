//! Core code as words: an instruction without code inside with its numbers behind colons, as `get:1` or
//! `call-static:0:4:2`; and `if { .. } { .. }`, `while { .. } { .. }`, `enter { .. }` and
//! `enter-class:0 { .. }`. The words are read from the last to the first, as code is made.

use crate::values::{operator_of, value_of};
use crate::words::argument;
use anyhow::{Context, Result, bail};
use core_model::{Body, Claim, Instr, Known, Note, Plain};
use std::alloc::Global;

/// No step looks at a note; each instruction has this one.
const NOTE: Note = Note {
    place: 1,
    known: Known::Monitor(Claim::Local(0)),
};

fn plain_alone(name: &str) -> Option<Plain> {
    Some(match name {
        "drop" => Plain::Drop,
        "make-plain" => Plain::MakePlain,
        "neg" => Plain::Neg,
        "not" => Plain::Not,
        "start" => Plain::Start,
        "return" => Plain::Return,
        "return-value" => Plain::ReturnValue,
        _ => return None,
    })
}

fn plain_of_one(name: &str, number: u32) -> Option<Plain> {
    Some(match name {
        "get" => Plain::Get(number),
        "set" => Plain::Set(number),
        "field" => Plain::Field(number),
        "field-keep" => Plain::FieldKeep(number),
        "put-field" => Plain::PutField(number),
        _ => return None,
    })
}

fn plain_of_two(name: &str, first: u32, second: u32) -> Option<Plain> {
    Some(match name {
        "static" => Plain::Static(first, second),
        "put-static" => Plain::PutStatic(first, second),
        "make" => Plain::Make(first, second),
        "call" => Plain::Call(first, second),
        _ => return None,
    })
}

// The instruction of the name with its numbers.
fn plain_numbered(name: &str, numbers: &str) -> Result<Option<Plain>> {
    let (first, rest) = argument(numbers);
    let (second, third) = argument(rest);
    let first = first.parse::<u32>()?;
    if second.is_empty() {
        return Ok(plain_of_one(name, first));
    }
    let second = second.parse::<u32>()?;
    if third.is_empty() {
        return Ok(plain_of_two(name, first, second));
    }
    Ok(Some(Plain::CallStatic(first, second, third.parse::<u32>()?)))
}

fn plain_of(alloc: Global, word: &str) -> Result<Plain> {
    let (name, rest) = argument(word);
    let plain = match name {
        "const" => Some(Plain::Const(value_of(rest)?)),
        "op" => Some(Plain::Op(operator_of(alloc, rest)?)),
        _ if rest.is_empty() => plain_alone(name),
        _ => plain_numbered(name, rest)?,
    };
    plain.context("no instruction")
}

/// Code that is being made. Blocks that are whole stand in `closed`, the next one last; those that their
/// opening brace hasn't been met of stand in `open`.
#[derive(Drop)]
struct Draft {
    open: Vec<Body>,
    closed: Vec<Body>,
}

impl Draft {
    fn push(&mut self, instr: Instr) -> Result<()> {
        let Some(body) = self.open.last_mut() else {
            bail!("no block");
        };
        Ok(body.push(instr)?)
    }

    fn close(&mut self) -> Result<()> {
        let body = self.open.pop().context("no block")?;
        self.closed.push(body)?;
        Ok(())
    }

    fn block(&mut self) -> Result<Body> {
        self.closed.pop().context("no block")
    }

    fn branch(&mut self) -> Result<()> {
        let yes = self.block()?;
        let no = self.block()?;
        self.push(Instr::If(NOTE, yes, no))
    }

    fn turn(&mut self) -> Result<()> {
        let condition = self.block()?;
        let body = self.block()?;
        self.push(Instr::While(NOTE, condition, body))
    }

    fn enter(&mut self, class: &str) -> Result<()> {
        let block = self.block()?;
        if class.is_empty() {
            return self.push(Instr::Enter(NOTE, block));
        }
        let class = class.parse::<u32>()?;
        self.push(Instr::EnterClass(NOTE, class, block))
    }

    fn add(&mut self, alloc: Global, word: &str) -> Result<()> {
        let (name, rest) = argument(word);
        match name {
            "}" => Ok(self.open.push(Body::new(alloc))?),
            "{" => self.close(),
            "if" => self.branch(),
            "while" => self.turn(),
            "enter" | "enter-class" => self.enter(rest),
            _ => {
                let plain = plain_of(alloc, word)?;
                self.push(Instr::Do(NOTE, plain))
            }
        }
    }
}

/// The code of the words.
pub(crate) fn code_of(alloc: Global, words: &str) -> Result<Body> {
    let mut draft = Draft {
        open: Vec::new(alloc),
        closed: Vec::new(alloc),
    };
    draft.open.push(Body::new(alloc))?;
    for word in words.rsplit(' ') {
        if !word.is_empty() {
            draft.add(alloc, word)?;
        }
    }
    draft.open.pop().context("no code")
}
