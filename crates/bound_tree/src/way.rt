ghost use Rattle.std.specs.Prelude.{◌≡◌, OnOk};
ghost use Rattle.bound_tree.specs.Flows as steps;
ghost use Rattle.bound_tree.specs.Ways.{whole};

use desk_base::{Items, OutOfMemory};
use std::alloc::Global;

/// What a part of a unit does to locals: it names a local at a token, sets one, leaves the call,
/// goes one of two ways, or the same way any number of times. In a list of ways the last comes
/// first, so that one is put before the others at once.
#[derive(Drop)]
pub enum Way {
    Names(u32, u32),
    Sets(u32),
    Leaves,
    Either(Items<Way>, Items<Way>),
    Again(Items<Way>),
}

/// A flow in which nothing is done.
pub fn no_ways(alloc: Global) -> Items<Way>
    ensures { whole result ≡ steps.End }
{
    Items::new(alloc)
}

/// Puts the naming of a local at a token before the flow.
pub fn put_naming(flow: &mut Items<Way>, local: u32, at: u32) -> Result<(), OutOfMemory>
    ensures { OnOk result (whole flow.new ≡ steps.Names local at (whole flow.old)) }
{
    flow.push(Way::Names(local, at))?;
    Ok(())
}

/// Puts the setting of a local before the flow.
pub fn put_setting(flow: &mut Items<Way>, local: u32) -> Result<(), OutOfMemory>
    ensures { OnOk result (whole flow.new ≡ steps.Sets local (whole flow.old)) }
{
    flow.push(Way::Sets(local))?;
    Ok(())
}

/// Puts the leaving of the call before the flow.
pub fn put_leaving(flow: &mut Items<Way>) -> Result<(), OutOfMemory>
    ensures { OnOk result (whole flow.new ≡ steps.Leaves (whole flow.old)) }
{
    flow.push(Way::Leaves)?;
    Ok(())
}

/// Puts one of two parts before the flow.
pub fn put_either(
    flow: &mut Items<Way>,
    one: Items<Way>,
    other: Items<Way>,
) -> Result<(), OutOfMemory>
    ensures { OnOk result (whole flow.new ≡ steps.Either (whole one) (whole other) (whole flow.old)) }
{
    flow.push(Way::Either(one, other))?;
    Ok(())
}

/// Puts a part that comes any number of times before the flow.
pub fn put_again(flow: &mut Items<Way>, turn: Items<Way>) -> Result<(), OutOfMemory>
    ensures { OnOk result (whole flow.new ≡ steps.Again (whole turn) (whole flow.old)) }
{
    flow.push(Way::Again(turn))?;
    Ok(())
}
