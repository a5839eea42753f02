ghost use Rattle.std.specs.Prelude.{◌≡◌, IfOk};
ghost use Rattle.lowering.specs.Lower as lower;
ghost use Rattle.bound_tree.specs.Reading.{statement_of};

use crate::code::NamedCode;
use crate::instr::Constant;
use crate::put::{put_class_block, put_constant, put_this_block, put_while};
use crate::statements::put_stmt;
use bound_tree::{Body, BoundTree, Part, Stmt, ValueType, assigned_table};
use desk_base::{Name, OutOfMemory};
use std::alloc::Global;

/// The code of a block, by the locals that are assigned in it.
#[tactic(auto, using(crate::proofs::Readings::blocks))]
fn block_code(block: &Stmt, alloc: Global) -> Result<NamedCode, OutOfMemory>
    ensures { IfOk result (λ code. code ≡ lower.block_code (statement_of block.now)) }
{
    let varies = assigned_table(block, alloc)?;
    let mut code = NamedCode::new(alloc);
    put_stmt(block, varies.as_slice(), alloc, &mut code)?;
    Ok(code)
}

/// The code of a member with the monitor that it holds round its body.
fn member_code(
    class: &Name,
    is_synchronized: bool,
    is_static: bool,
    body: NamedCode,
    alloc: Global,
) -> Result<NamedCode, OutOfMemory>
    ensures { IfOk result (λ code. code ≡ lower.member_code class.now is_synchronized is_static body) }
{
    if !is_synchronized {
        return Ok(body);
    }
    let mut code = NamedCode::new(alloc);
    if is_static {
        put_class_block(&mut code, 0, class, body)?;
        return Ok(code);
    }
    put_this_block(&mut code, body)?;
    Ok(code)
}

fn body_code(class: &Name, body: &Body, alloc: Global) -> Result<NamedCode, OutOfMemory>
    ensures { IfOk result (λ code. code ≡ lower.member_code class.now body.now.is_synchronized body.now.is_static (lower.block_code (statement_of body.now.block))) }
{
    let block = block_code(&body.block, alloc)?;
    member_code(class, body.is_synchronized, body.is_static, block, alloc)
}

/// The code of an interface's method.
fn sig_code(ty: &Option<ValueType>, alloc: Global) -> Result<NamedCode, OutOfMemory>
    ensures { IfOk result (λ code. code ≡ lower.sig_code ty.now) }
{
    let mut code = NamedCode::new(alloc);
    if ty.is_none() {
        return Ok(code);
    }
    let mut condition = NamedCode::new(alloc);
    put_constant(&mut condition, 0, Constant::Boolean(true))?;
    put_while(&mut code, 0, condition, NamedCode::new(alloc))?;
    Ok(code)
}

/// The code of a unit in Java's order, with names in the place of numbers. A synchronized member is
/// the block of a monitor round its body; an interface's method with a result is a loop that comes to
/// no end, and one without result, a header and a field have no code. Its one error is want of memory,
/// also where a call has more arguments than 32 bits can count.
pub fn code_of(tree: &BoundTree, alloc: Global) -> Result<NamedCode, OutOfMemory>
    ensures { IfOk result (λ code. code ≡ lower.code_of tree.now) }
{
    match &tree.part {
        Part::Header(_) | Part::Field(_, _) => Ok(NamedCode::new(alloc)),
        Part::Sig(_, result) => sig_code(result, alloc),
        Part::Body(body) => body_code(&tree.class, body, alloc),
    }
}
