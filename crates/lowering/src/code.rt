ghost use Rattle.std.specs.Prelude.{◌≡◌, OnOk};
ghost use Rattle.lowering.specs.Code.{Done};
ghost use Rattle.lowering.specs.CodeOf.{before, code_onto};

use crate::instr::{NamedNote, NamedPlain};
use desk_base::{Items, Name, OutOfMemory};
use std::alloc::Global;
use std::marker::Model;

/// An instruction with its note.
#[cycle(code)]
#[derive(Drop)]
pub enum NamedInstr {
    Do(NamedNote, NamedPlain),
    /// Pop a boolean and go on with the first or the second part.
    If(NamedNote, NamedCode, NamedCode),
    /// Go on with the condition, and then with an `If` of the body and this loop again, or nothing.
    While(NamedNote, NamedCode, NamedCode),
    /// Pop a reference and take its monitor (JLS 8, 14.19), go on with the block, and then give the
    /// monitor up.
    Enter(NamedNote, NamedCode),
    /// The same with the monitor of the class's holder.
    EnterClass(NamedNote, Name, NamedCode),
}

/// Core code with names in the place of numbers. Contracts see it as plain data, each instruction
/// with what comes after it. The first instruction is kept last, so that it is put at once.
#[cycle(code)]
#[derive(Drop)]
pub struct NamedCode {
    pub(crate) instrs: Items<NamedInstr>,
}

impl Model for NamedCode {
    ghost use Rattle.lowering.specs.Code.{Code, Done, size_of};

    ghost Value = { Code };

    ghost use Rattle.lowering.specs.CodeCoded.{coded_code};

    ghost coded = { coded_code };

    ghost use Rattle.lowering.specs.CodeOf.{code_onto};

    ghost view = { λ b. code_onto Done b.instrs };

    ghost size = { size_of };

    ghost use Rattle.lowering.specs.CodeFalls.{max_le-size_of};

    ghost size_decreases = { λ a h. max_le-size_of a.instrs };
}

impl NamedCode {
    /// No code. It takes no memory.
    pub fn new(alloc: Global) -> NamedCode
        ensures { result ≡ Done }
    {
        NamedCode {
            instrs: Items::new(alloc),
        }
    }

    /// Puts an instruction before the code.
    pub fn push(&mut self, instr: NamedInstr) -> Result<(), OutOfMemory>
        ensures { OnOk result (self.new ≡ before instr self.old) }
    {
        self.instrs.push(instr)?;
        Ok(())
    }

    /// The instructions, the last one first. It takes no memory.
    pub fn instrs(&self) -> &[NamedInstr]
        ensures { code_onto Done result.now ≡ self.now }
    {
        self.instrs.as_slice()
    }
}
