ghost use Rattle.std.specs.Prelude.{◌≡◌, true, false, Some, OnOk, IfOk};
ghost use Rattle.lowering.specs.Code.{Done, Do, If, While, Enter, EnterClass};
ghost use Rattle.lowering.specs.Lower as lower;
ghost use Rattle.lowering.specs.declared.instr.Constant.TheVariants as constant;
ghost use Rattle.lowering.specs.declared.instr.NamedPlain.TheVariants as named;
ghost use Rattle.bound_tree.specs.Claim as claim;

use crate::code::{NamedCode, NamedInstr};
use crate::instr::{Constant, NamedClaim, NamedKnown, NamedNote, NamedPlain};
use bound_tree::{FieldName, Literal, MemberName};
use desk_base::{Name, OutOfMemory};
use std::alloc::Global;

/// The least int.
pub(crate) const LEAST: i32 = i32::MIN;

/// Puts an instruction of which nothing is known but its place.
pub(crate) fn put_plain(
    code: &mut NamedCode,
    place: u32,
    plain: NamedPlain,
) -> Result<(), OutOfMemory>
    ensures { OnOk result (code.new ≡ Do (lower.plainly place) plain code.old) }
{
    let note = NamedNote {
        place,
        known: NamedKnown::Nothing,
    };
    code.push(NamedInstr::Do(note, plain))?;
    Ok(())
}

fn classed(place: u32, class: &Name) -> Result<NamedNote, OutOfMemory>
    ensures { IfOk result (λ note. note ≡ lower.classed place class.now) }
{
    Ok(NamedNote {
        place,
        known: NamedKnown::Class(class.clone()?),
    })
}

/// Puts an instruction on a class.
fn put_classed(
    code: &mut NamedCode,
    place: u32,
    class: &Name,
    plain: NamedPlain,
) -> Result<(), OutOfMemory>
    ensures { OnOk result (code.new ≡ Do (lower.classed place class.now) plain code.old) }
{
    let note = classed(place, class)?;
    code.push(NamedInstr::Do(note, plain))?;
    Ok(())
}

fn int_of(number: u32) -> i32
    ensures { result ≡ lower.int_of number }
{
    if number < 2147483648 {
        number as i32
    } else {
        LEAST
    }
}

fn constant_of(literal: &Literal) -> Result<Constant, OutOfMemory>
    ensures { IfOk result (λ constant. constant ≡ lower.constant_of literal.now) }
{
    match literal {
        Literal::Int(number) => Ok(Constant::Int(int_of(*number))),
        Literal::Boolean(value) => Ok(Constant::Boolean(*value)),
        Literal::Null => Ok(Constant::Null),
        Literal::Str(text) => Ok(Constant::Text(text.clone()?)),
    }
}

pub(crate) fn put_constant(
    code: &mut NamedCode,
    place: u32,
    constant: Constant,
) -> Result<(), OutOfMemory>
    ensures { OnOk result (code.new ≡ lower.const place constant code.old) }
{
    put_plain(code, place, NamedPlain::Const(constant))
}

pub(crate) fn put_literal(
    code: &mut NamedCode,
    place: u32,
    literal: &Literal,
) -> Result<(), OutOfMemory>
    ensures { OnOk result (code.new ≡ lower.const place (lower.constant_of literal.now) code.old) }
{
    let constant = constant_of(literal)?;
    put_constant(code, place, constant)
}

pub(crate) fn put_read(
    code: &mut NamedCode,
    place: u32,
    field: &FieldName,
) -> Result<(), OutOfMemory>
    ensures { OnOk result (code.new ≡ Do (lower.classed place field.now.class) (named.Field field.now.name) code.old) }
{
    let name = field.name.clone()?;
    put_classed(code, place, &field.class, NamedPlain::Field(name))
}

pub(crate) fn put_kept_read(
    code: &mut NamedCode,
    place: u32,
    field: &FieldName,
) -> Result<(), OutOfMemory>
    ensures { OnOk result (code.new ≡ Do (lower.classed place field.now.class) (named.FieldKeep field.now.name) code.old) }
{
    let name = field.name.clone()?;
    put_classed(code, place, &field.class, NamedPlain::FieldKeep(name))
}

pub(crate) fn put_write(
    code: &mut NamedCode,
    place: u32,
    field: &FieldName,
) -> Result<(), OutOfMemory>
    ensures { OnOk result (code.new ≡ Do (lower.classed place field.now.class) (named.PutField field.now.name) code.old) }
{
    let name = field.name.clone()?;
    put_classed(code, place, &field.class, NamedPlain::PutField(name))
}

fn static_read(field: &FieldName) -> Result<NamedPlain, OutOfMemory>
    ensures { IfOk result (λ plain. plain ≡ named.Static field.now.class field.now.name) }
{
    Ok(NamedPlain::Static(field.class.clone()?, field.name.clone()?))
}

pub(crate) fn put_static_read(
    code: &mut NamedCode,
    place: u32,
    field: &FieldName,
) -> Result<(), OutOfMemory>
    ensures { OnOk result (code.new ≡ Do (lower.classed place field.now.class) (named.Static field.now.class field.now.name) code.old) }
{
    let plain = static_read(field)?;
    put_classed(code, place, &field.class, plain)
}

fn static_write(field: &FieldName) -> Result<NamedPlain, OutOfMemory>
    ensures { IfOk result (λ plain. plain ≡ named.PutStatic field.now.class field.now.name) }
{
    Ok(NamedPlain::PutStatic(field.class.clone()?, field.name.clone()?))
}

pub(crate) fn put_static_write(
    code: &mut NamedCode,
    place: u32,
    field: &FieldName,
) -> Result<(), OutOfMemory>
    ensures { OnOk result (code.new ≡ Do (lower.classed place field.now.class) (named.PutStatic field.now.class field.now.name) code.old) }
{
    let plain = static_write(field)?;
    put_classed(code, place, &field.class, plain)
}

pub(crate) fn put_call(
    code: &mut NamedCode,
    place: u32,
    member: &MemberName,
    count: u32,
) -> Result<(), OutOfMemory>
    ensures { OnOk result (code.new ≡ Do (lower.classed place member.now.class) (named.Call member.now.name count) code.old) }
{
    let name = member.name.clone()?;
    put_classed(code, place, &member.class, NamedPlain::Call(name, count))
}

fn static_call(member: &MemberName, count: u32) -> Result<NamedPlain, OutOfMemory>
    ensures { IfOk result (λ plain. plain ≡ named.CallStatic member.now.class member.now.name count) }
{
    Ok(NamedPlain::CallStatic(member.class.clone()?, member.name.clone()?, count))
}

pub(crate) fn put_static_call(
    code: &mut NamedCode,
    place: u32,
    member: &MemberName,
    count: u32,
) -> Result<(), OutOfMemory>
    ensures { OnOk result (code.new ≡ Do (lower.classed place member.now.class) (named.CallStatic member.now.class member.now.name count) code.old) }
{
    let plain = static_call(member, count)?;
    put_classed(code, place, &member.class, plain)
}

fn made(class: &Name, count: u32) -> Result<NamedPlain, OutOfMemory>
    ensures { IfOk result (λ plain. plain ≡ lower.made class.now count) }
{
    if class.as_slice() == b"Object".as_slice() {
        Ok(NamedPlain::MakePlain)
    } else {
        Ok(NamedPlain::Make(class.clone()?, count))
    }
}

pub(crate) fn put_make(
    code: &mut NamedCode,
    place: u32,
    class: &Name,
    count: u32,
) -> Result<(), OutOfMemory>
    ensures { OnOk result (code.new ≡ Do (lower.plainly place) (lower.made class.now count) code.old) }
{
    let plain = made(class, count)?;
    put_plain(code, place, plain)
}

/// Puts an `If` of the two parts.
pub(crate) fn put_if(
    code: &mut NamedCode,
    place: u32,
    yes: NamedCode,
    no: NamedCode,
) -> Result<(), OutOfMemory>
    ensures { OnOk result (code.new ≡ If (lower.plainly place) yes no code.old) }
{
    let note = NamedNote {
        place,
        known: NamedKnown::Nothing,
    };
    code.push(NamedInstr::If(note, yes, no))?;
    Ok(())
}

/// Puts the choice between the right side of `&&` and false.
pub(crate) fn put_and(
    code: &mut NamedCode,
    place: u32,
    alloc: Global,
    right: NamedCode,
) -> Result<(), OutOfMemory>
    ensures { OnOk result (code.new ≡ If (lower.plainly place) right (lower.const place (constant.Boolean false) Done) code.old) }
{
    let mut no = NamedCode::new(alloc);
    put_constant(&mut no, place, Constant::Boolean(false))?;
    put_if(code, place, right, no)
}

/// Puts the choice between true and the right side of `||`.
pub(crate) fn put_or(
    code: &mut NamedCode,
    place: u32,
    alloc: Global,
    right: NamedCode,
) -> Result<(), OutOfMemory>
    ensures { OnOk result (code.new ≡ If (lower.plainly place) (lower.const place (constant.Boolean true) Done) right code.old) }
{
    let mut yes = NamedCode::new(alloc);
    put_constant(&mut yes, place, Constant::Boolean(true))?;
    put_if(code, place, yes, right)
}

/// Puts a loop.
pub(crate) fn put_while(
    code: &mut NamedCode,
    place: u32,
    condition: NamedCode,
    body: NamedCode,
) -> Result<(), OutOfMemory>
    ensures { OnOk result (code.new ≡ While (lower.plainly place) condition body code.old) }
{
    let note = NamedNote {
        place,
        known: NamedKnown::Nothing,
    };
    code.push(NamedInstr::While(note, condition, body))?;
    Ok(())
}

/// Puts the block of a class's monitor.
pub(crate) fn put_class_block(
    code: &mut NamedCode,
    place: u32,
    class: &Name,
    block: NamedCode,
) -> Result<(), OutOfMemory>
    ensures { OnOk result (code.new ≡ EnterClass (lower.claimed place (Some (claim.Class class.now))) class.now block code.old) }
{
    let note = NamedNote {
        place,
        known: NamedKnown::Monitor(NamedClaim::Class(class.clone()?)),
    };
    code.push(NamedInstr::EnterClass(note, class.clone()?, block))?;
    Ok(())
}

/// Puts the block of the monitor of `this`, and before it `this`.
pub(crate) fn put_this_block(code: &mut NamedCode, block: NamedCode) -> Result<(), OutOfMemory>
    ensures { OnOk result (code.new ≡ Do (lower.plainly 0) (named.Get 0) (Enter (lower.claimed 0 (Some (claim.Local 0))) block code.old)) }
{
    let note = NamedNote {
        place: 0,
        known: NamedKnown::Monitor(NamedClaim::Local(0)),
    };
    code.push(NamedInstr::Enter(note, block))?;
    put_plain(code, 0, NamedPlain::Get(0))
}
