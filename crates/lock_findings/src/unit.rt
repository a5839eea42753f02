ghost use Rattle.std.specs.Prelude.{◌≡◌, ◌++◌, IfOk, OnOk, OnErr};
ghost use Rattle.lock_findings.specs.Front.{Begins};
ghost use Rattle.lock_findings.specs.LockFindings as spec;

use crate::lock::{Base, Guard, Need};
use crate::own::{Own, OwnNeed};
use crate::role::Above;
use crate::row::{finding, subject_of};
use crate::ways::{put_way, same_lock};
use desk_base::{Items, Name, OutOfMemory, PromiseKey, Text};
use result_records::{Alternative, Finding, FindingCode, FindingLink};
use std::alloc::Global;

fn absent_finding(alloc: Global, own: &Own, asked: &OwnNeed) -> Result<Finding, OutOfMemory>
    ensures { IfOk result (λ found. found ≡ spec.absent_finding own.now asked.now) }
{
    let unit = own.key.clone()?;
    finding(
        FindingCode::AbsentName,
        own,
        &asked.need.key,
        asked.place,
        unit,
        Items::new(alloc),
    )
}

/// Puts a finding for each promise of the unit that requires a lock that isn't there.
#[tactic(auto, using(crate::proofs::Front::fronts))]
pub(crate) fn put_absent(
    alloc: Global,
    own: &Own,
    out: &mut Items<Finding>,
) -> Result<(), OutOfMemory>
    ensures ok { OnOk result (out.new ≡ out.old ++ spec.absent_findings own.now) }
    ensures front { OnErr result (Begins out.old out.new) }
{
    for asked in own.needs.as_slice() {
        if asked.need.holder.is_none() {
            out.push(absent_finding(alloc, own, asked)?)?;
        }
    }
    Ok(())
}

fn same_base(a: &Base, b: &Base) -> bool
    ensures { result ≡ spec.same_base a.now b.now }
{
    match (a, b) {
        (Base::Nobody, Base::Nobody) => true,
        (Base::This, Base::This) => true,
        (Base::Param(a), Base::Param(b)) => *a == *b,
        _ => false,
    }
}

/// Whether another promise requires the same lock for the same base.
fn asks_same(need: &Need, other: &Need) -> bool
    ensures { result ≡ spec.asks_same need.now other.now }
{
    same_lock(&other.lock, &need.lock) && same_base(&other.base, &need.base)
}

fn above_ways(
    alloc: Global,
    need: &Need,
    others: &[Need],
) -> Result<Items<Alternative>, OutOfMemory>
    ensures { IfOk result (λ ways. ways ≡ spec.above_ways need.now others.now) }
{
    let mut ways = Items::new(alloc);
    for other in others {
        if asks_same(need, other) {
            put_way(alloc, &mut ways, FindingLink::Promise(other.key.clone()?))?;
        }
    }
    Ok(ways)
}

fn above_finding(
    alloc: Global,
    own: &Own,
    need: &Need,
    above: &Above,
) -> Result<Finding, OutOfMemory>
    ensures { IfOk result (λ found. found ≡ spec.above_finding own.now need.now above.now) }
{
    let ways = above_ways(alloc, need, above.needs.as_slice())?;
    let subject = subject_of(alloc, &above.interface)?;
    finding(
        FindingCode::MoreLocksThanInterface,
        own,
        &need.key,
        1,
        subject,
        ways,
    )
}

#[tactic(auto, using(crate::proofs::Front::fronts))]
fn put_above(
    alloc: Global,
    own: &Own,
    aboves: &[Above],
    asked: &OwnNeed,
    out: &mut Items<Finding>,
) -> Result<(), OutOfMemory>
    ensures ok { OnOk result (out.new ≡ out.old ++ spec.above_findings own.now aboves.now asked.now) }
    ensures front { OnErr result (Begins out.old out.new) }
{
    for above in aboves {
        out.push(above_finding(alloc, own, &asked.need, above)?)?;
    }
    Ok(())
}

/// Puts the findings of a method, one for each lock that it requires and each method of an interface
/// that it implements.
#[tactic(auto, using(crate::proofs::Front::fronts))]
pub(crate) fn put_method(
    alloc: Global,
    own: &Own,
    aboves: &[Above],
    out: &mut Items<Finding>,
) -> Result<(), OutOfMemory>
    ensures ok { OnOk result (out.new ≡ out.old ++ spec.method_findings own.now aboves.now) }
    ensures front { OnErr result (Begins out.old out.new) }
{
    for asked in own.needs.as_slice() {
        put_above(alloc, own, aboves, asked, out)?;
    }
    Ok(())
}

fn main_finding(alloc: Global, own: &Own, asked: &OwnNeed) -> Result<Finding, OutOfMemory>
    ensures { IfOk result (λ found. found ≡ spec.main_finding own.now asked.now) }
{
    let subject = Text::from_text(alloc, "main")?;
    finding(
        FindingCode::LockedMain,
        own,
        &asked.need.key,
        1,
        subject,
        Items::new(alloc),
    )
}

/// Puts the findings of a main, one for each lock that it requires.
#[tactic(auto, using(crate::proofs::Front::fronts))]
pub(crate) fn put_main(
    alloc: Global,
    own: &Own,
    out: &mut Items<Finding>,
) -> Result<(), OutOfMemory>
    ensures ok { OnOk result (out.new ≡ out.old ++ spec.main_findings own.now) }
    ensures front { OnErr result (Begins out.old out.new) }
{
    for asked in own.needs.as_slice() {
        out.push(main_finding(alloc, own, asked)?)?;
    }
    Ok(())
}

fn unique_finding(
    alloc: Global,
    own: &Own,
    name: &Name,
    unique: &PromiseKey,
    guard: &Guard,
) -> Result<Finding, OutOfMemory>
    ensures { IfOk result (λ found. found ≡ spec.unique_finding own.now name.now unique.now guard.now) }
{
    let mut ways = Items::new(alloc);
    put_way(alloc, &mut ways, FindingLink::Promise(unique.clone()?))?;
    let subject = subject_of(alloc, name)?;
    finding(
        FindingCode::GuardedUnique,
        own,
        &guard.key,
        1,
        subject,
        ways,
    )
}

/// Puts the findings of a unique field, one for each lock in whose region it is.
#[tactic(auto, using(crate::proofs::Front::fronts))]
pub(crate) fn put_unique(
    alloc: Global,
    own: &Own,
    name: &Name,
    unique: &PromiseKey,
    guards: &[Guard],
    out: &mut Items<Finding>,
) -> Result<(), OutOfMemory>
    ensures ok { OnOk result (out.new ≡ out.old ++ spec.unique_findings own.now name.now unique.now guards.now) }
    ensures front { OnErr result (Begins out.old out.new) }
{
    for guard in guards {
        out.push(unique_finding(alloc, own, name, unique, guard)?)?;
    }
    Ok(())
}
