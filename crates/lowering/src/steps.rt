ghost use Rattle.std.specs.Prelude.{◌≡◌, ◌++◌, OnOk, IfOk};
ghost use Rattle.lowering.specs.Steps as spec;

use crate::code::{NamedCode, NamedInstr};
use crate::instr::NamedPlain;
use desk_base::{Items, OutOfMemory};
use std::alloc::Global;

/// Whether the instruction is an access, a call, a `new` or a start.
fn is_step(plain: &NamedPlain) -> bool
    ensures { result ≡ spec.is_step plain.now }
{
    match plain {
        NamedPlain::Field(_)
        | NamedPlain::FieldKeep(_)
        | NamedPlain::PutField(_)
        | NamedPlain::Static(_, _)
        | NamedPlain::PutStatic(_, _)
        | NamedPlain::Make(_, _)
        | NamedPlain::MakePlain
        | NamedPlain::Call(_, _)
        | NamedPlain::CallStatic(_, _, _)
        | NamedPlain::Start => true,
        NamedPlain::Const(_)
        | NamedPlain::Get(_)
        | NamedPlain::Set(_)
        | NamedPlain::Drop
        | NamedPlain::Op(_)
        | NamedPlain::Neg
        | NamedPlain::Not
        | NamedPlain::Return
        | NamedPlain::ReturnValue => false,
    }
}

/// Puts the place at the end, where the instruction has one.
fn push_if(list: &mut Items<u32>, place: u32, plain: &NamedPlain) -> Result<(), OutOfMemory>
    ensures { OnOk result (list.new ≡ list.old ++ spec.place_if (spec.is_step plain.now) place) }
{
    if is_step(plain) {
        list.push(place)?;
    }
    Ok(())
}

/// Puts the places of the instruction's steps at the end.
#[cycle(steps)]
fn push_instr(instr: &NamedInstr, list: &mut Items<u32>) -> Result<(), OutOfMemory>
    ensures { OnOk result (list.new ≡ list.old ++ spec.instr_steps instr.now) }
{
    match instr {
        NamedInstr::Do(note, plain) => push_if(list, note.place, plain),
        NamedInstr::If(_, yes, no) => {
            push_steps(yes, list)?;
            push_steps(no, list)?;
            Ok(())
        }
        NamedInstr::While(_, condition, body) => {
            push_steps(condition, list)?;
            push_steps(body, list)?;
            Ok(())
        }
        NamedInstr::Enter(_, block) => push_steps(block, list),
        NamedInstr::EnterClass(_, _, block) => push_steps(block, list),
    }
}

/// Puts the places of the code's steps at the end.
#[cycle(steps)]
fn push_steps(code: &NamedCode, list: &mut Items<u32>) -> Result<(), OutOfMemory>
    ensures { OnOk result (list.new ≡ list.old ++ spec.steps_of code.now) }
{
    let instrs = code.instrs.as_slice();
    let mut at = instrs.len();
    while at > 0 {
        at -= 1;
        push_instr(&instrs[at], list)?;
    }
    Ok(())
}

/// The places of the code's field accesses, calls, `new` and starts, in the order in which they stand
/// in it: for each the number of its token within the unit.
pub fn places(code: &NamedCode, alloc: Global) -> Result<Items<u32>, OutOfMemory>
    ensures { IfOk result (λ list. list ≡ spec.steps_of code.now) }
{
    let mut list = Items::new(alloc);
    push_steps(code, &mut list)?;
    Ok(list)
}
