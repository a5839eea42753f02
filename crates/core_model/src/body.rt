ghost use Rattle.std.specs.Prelude.{◌≡◌, MatchOption, OnOk, IfOk, Some, None};
ghost use Rattle.core_model.specs.Code as code;
ghost use Rattle.core_model.specs.Code.{Code, Done, ◌⧺◌};
ghost use Rattle.core_model.specs.CodeOf.{before, object_of, plain_of};
ghost use Rattle.core_model.specs.NextAccess.{first_plain};
ghost use Rattle.core_model.specs.Step.{next_exit};

use crate::instr::{ClassId, Note, Plain};
use desk_base::{Items, OutOfMemory};
use std::alloc::Global;
use std::marker::Model;

/// An instruction. A note stands with each; no step looks at it.
#[cycle(code)]
#[derive(Drop)]
pub enum Instr {
    Do(Note, Plain),
    /// Pop a boolean and go on with the first or the second part.
    If(Note, Body, Body),
    /// Go on with the condition, and then with an `If` of the body and this loop again, or nothing.
    While(Note, Body, Body),
    /// Pop a reference and take its monitor (JLS 8, 14.19), go on with the block, and then give the
    /// monitor up.
    Enter(Note, Body),
    /// The same with the monitor of the class's holder.
    EnterClass(Note, ClassId, Body),
    /// Count the object's monitor down. A step leaves it behind a block; no unit's code has one.
    Exit(Note, u32),
}

/// Code: a list of instructions. Contracts see it as plain data, each instruction with what comes
/// after it. The first instruction is kept last, so that it is taken and put at once.
#[cycle(code)]
#[derive(Drop)]
pub struct Body {
    instrs: Items<Instr>,
}

impl Model for Body {
    ghost use Rattle.core_model.specs.Code.{Code, Done, size_of};

    ghost Value = { Code };

    ghost use Rattle.core_model.specs.CodeCoded.{coded_code};

    ghost coded = { coded_code };

    ghost use Rattle.core_model.specs.CodeOf.{code_onto};

    ghost view = { λ b. code_onto Done b.instrs };

    ghost size = { size_of };

    ghost use Rattle.core_model.specs.CodeFalls.{max_le-size_of};

    ghost size_decreases = { λ a h. max_le-size_of a.instrs };
}

impl Body {
    /// No code. It takes no memory.
    pub fn new(alloc: Global) -> Body
        ensures { result ≡ Done }
    {
        Body {
            instrs: Items::new(alloc),
        }
    }

    /// Takes the first instruction.
    pub fn pop(&mut self) -> Option<Instr>
        ensures { MatchOption result ((self.old ≡ Done) × (self.new ≡ Done)) (λ i. self.old ≡ before i self.new) }
    {
        self.instrs.pop()
    }

    /// Puts an instruction before the code.
    pub fn push(&mut self, instr: Instr) -> Result<(), OutOfMemory>
        ensures { OnOk result (self.new ≡ before instr self.old) }
    {
        self.instrs.push(instr)?;
        Ok(())
    }

    /// Puts code before the code.
    pub fn prepend(&mut self, front: Body) -> Result<(), OutOfMemory>
        ensures { OnOk result (self.new ≡ front ⧺ self.old) }
    {
        let Body { instrs } = front;
        self.instrs.append(instrs)?;
        Ok(())
    }

    /// Puts a block before the code, and between them the mark of the object's monitor.
    pub(crate) fn push_block(
        &mut self,
        note: Note,
        block: Body,
        object: u32,
    ) -> Result<(), OutOfMemory>
        ensures { OnOk result (self.new ≡ block ⧺ code.Exit note object self.old) }
    {
        self.push(Instr::Exit(note, object))?;
        self.prepend(block)
    }

    /// The body of a loop, and then the loop.
    fn looped(alloc: Global, note: Note, condition: Body, body: Body) -> Result<Body, OutOfMemory>
        ensures { IfOk result (λ looped. looped ≡ body ⧺ code.While note condition body Done) }
    {
        let turned = body.copy(alloc)?;
        let mut again = Body::new(alloc);
        again.push(Instr::While(note, condition, body))?;
        again.prepend(turned)?;
        Ok(again)
    }

    /// Puts a loop before the code, as it goes on: the condition, and then an `If` of the body and the
    /// loop again, or nothing.
    pub(crate) fn push_turn(
        &mut self,
        alloc: Global,
        note: Note,
        condition: Body,
        body: Body,
    ) -> Result<(), OutOfMemory>
        ensures { OnOk result (self.new ≡ condition ⧺ code.If note (body ⧺ code.While note condition body Done) Done self.old) }
    {
        let first = condition.copy(alloc)?;
        let again = Body::looped(alloc, note, condition, body)?;
        self.push(Instr::If(note, again, Body::new(alloc)))?;
        self.prepend(first)
    }

    /// Drops instructions up to the first mark of a monitor, which it takes too: the object's number;
    /// without such a mark nothing is left.
    pub fn next_exit(&mut self) -> Option<u32>
        ensures { MatchOption result (next_exit self.old ≡ None) (λ r. next_exit self.old ≡ Some (r, self.new)) }
    {
        while let Some(instr) = self.pop() {
            if let Some(object) = instr.object() {
                return Some(object);
            }
        }
        None
    }

    /// The first instruction, where it has no code inside.
    pub fn first_plain(&self) -> Option<Plain>
        ensures { result ≡ first_plain self.now }
    {
        match self.instrs.as_slice().last() {
            Some(instr) => instr.plain(),
            None => None,
        }
    }

    /// A copy of the code.
    #[cycle(copy)]
    pub fn copy(&self, alloc: Global) -> Result<Body, OutOfMemory>
        ensures { IfOk result (λ copy. copy ≡ self.now) }
    {
        let mut instrs = Items::new(alloc);
        for instr in self.instrs.as_slice() {
            instrs.push(instr.copy(alloc)?)?;
        }
        Ok(Body { instrs })
    }
}

impl Instr {
    /// The instruction, where it has no code inside and is no mark.
    fn plain(&self) -> Option<Plain>
        ensures { result ≡ plain_of self.now }
    {
        match self {
            Instr::Do(_, plain) => Some(*plain),
            _ => None,
        }
    }

    /// The object of a mark.
    fn object(&self) -> Option<u32>
        ensures { result ≡ object_of self.now }
    {
        match self {
            Instr::Exit(_, object) => Some(*object),
            _ => None,
        }
    }

    /// A copy of the instruction.
    #[cycle(copy)]
    pub fn copy(&self, alloc: Global) -> Result<Instr, OutOfMemory>
        ensures { IfOk result (λ copy. copy ≡ self.now) }
    {
        Ok(match self {
            Instr::Do(note, plain) => Instr::Do(*note, *plain),
            Instr::If(note, yes, no) => Instr::If(*note, yes.copy(alloc)?, no.copy(alloc)?),
            Instr::While(note, condition, body) => {
                Instr::While(*note, condition.copy(alloc)?, body.copy(alloc)?)
            }
            Instr::Enter(note, block) => Instr::Enter(*note, block.copy(alloc)?),
            Instr::EnterClass(note, class, block) => {
                Instr::EnterClass(*note, *class, block.copy(alloc)?)
            }
            Instr::Exit(note, object) => Instr::Exit(*note, *object),
        })
    }
}
