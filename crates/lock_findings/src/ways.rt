ghost use Rattle.std.specs.Prelude.{◌≡◌, ◌++◌, ◌==◌, ◌+◌, [], ◌∷◌, if◌then◌else◌, IfOk, OnOk};
ghost use Rattle.lock_findings.specs.Ways as spec;

use crate::lock::{Base, LockName};
use crate::own::{Own, OwnNeed};
use desk_base::{Items, OutOfMemory};
use result_records::{Alternative, FindingLink};
use std::alloc::Global;

/// Whether the locks are one: of one class, name and kind.
pub(crate) fn same_lock(a: &LockName, b: &LockName) -> bool
    ensures { result ≡ spec.same_lock a.now b.now }
{
    a.class.as_slice() == b.class.as_slice()
        && a.name.as_slice() == b.name.as_slice()
        && a.is_static == b.is_static
}

fn is_number(local: u32, after_this: bool, number: u32) -> bool
    ensures { result ≡ (if after_this then local == number + 1 else local == number) }
{
    if after_this {
        local > 0 && local - 1 == number
    } else {
        local == number
    }
}

/// Whether a base of the unit's own promises is that local.
fn is_own(is_static: bool, base: &Base, local: Option<u32>) -> bool
    ensures { result ≡ spec.same_local (spec.own_local is_static base.now) local }
{
    match (base, local) {
        (Base::This, Some(local)) => !is_static && local == 0,
        (Base::Param(number), Some(local)) => is_number(local, !is_static, *number),
        (Base::Nobody, _) | (Base::This, None) | (Base::Param(_), None) => false,
    }
}

/// Whether a promise of the unit requires that lock for that base.
fn is_required(is_static: bool, lock: &LockName, base: Option<u32>, own: &OwnNeed) -> bool
    ensures { result ≡ spec.is_required is_static lock.now base own.now }
{
    same_lock(&own.need.lock, lock) && (lock.is_static || is_own(is_static, &own.need.base, base))
}

/// Puts an alternative of one link.
pub(crate) fn put_way(
    alloc: Global,
    ways: &mut Items<Alternative>,
    link: FindingLink,
) -> Result<(), OutOfMemory>
    ensures { OnOk result (ways.new ≡ ways.old ++ (link ∷ []) ∷ []) }
{
    let mut way = Items::new(alloc);
    way.push(link)?;
    ways.push(way)?;
    Ok(())
}

fn put_required(
    alloc: Global,
    ways: &mut Items<Alternative>,
    own: &Own,
    lock: &LockName,
    base: Option<u32>,
) -> Result<(), OutOfMemory>
    ensures { OnOk result (ways.new ≡ ways.old ++ spec.required_ways own.now lock.now base) }
{
    for asked in own.needs.as_slice() {
        if is_required(own.is_static, lock, base, asked) {
            put_way(alloc, ways, FindingLink::Promise(asked.need.key.clone()?))?;
        }
    }
    Ok(())
}

fn is_this(base: Option<u32>) -> bool
    ensures { result ≡ spec.is_this base }
{
    match base {
        Some(local) => local == 0,
        None => false,
    }
}

fn put_excuse(
    alloc: Global,
    ways: &mut Items<Alternative>,
    confined: &Option<FindingLink>,
    excused: bool,
) -> Result<(), OutOfMemory>
    ensures { OnOk result (ways.new ≡ ways.old ++ spec.excuse_ways confined.now excused) }
{
    match confined {
        Some(link) if excused => put_way(alloc, ways, link.clone()?),
        Some(_) => Ok(()),
        None => Ok(()),
    }
}

fn put_held(alloc: Global, ways: &mut Items<Alternative>, held: bool) -> Result<(), OutOfMemory>
    ensures { OnOk result (ways.new ≡ ways.old ++ spec.held_way held) }
{
    if held {
        ways.push(Items::new(alloc))?;
    }
    Ok(())
}

/// The alternatives of a finding that wants the lock for the base: that it is held, that a promise of
/// the unit requires it, that the unit is a constructor whose `this` goes nowhere.
pub(crate) fn ways_of(
    alloc: Global,
    own: &Own,
    lock: &LockName,
    base: Option<u32>,
    held: bool,
    excused: bool,
) -> Result<Items<Alternative>, OutOfMemory>
    ensures { IfOk result (λ ways. ways ≡ spec.ways own.now lock.now base held excused) }
{
    let mut ways = Items::new(alloc);
    put_held(alloc, &mut ways, held)?;
    put_required(alloc, &mut ways, own, lock, base)?;
    put_excuse(alloc, &mut ways, &own.confined, excused && is_this(base))?;
    Ok(ways)
}
