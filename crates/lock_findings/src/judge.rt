ghost use Rattle.std.specs.Prelude.{◌≡◌, ◌++◌, OnOk, OnErr};
ghost use Rattle.std.specs.List.{flat_map};
ghost use Rattle.bound_tree.specs.Claims.{varies_in};
ghost use Rattle.bound_tree.specs.Places.{places_of};
ghost use Rattle.lock_findings.specs.Front.{Begins};
ghost use Rattle.lock_findings.specs.LockFindings as spec;

use crate::own::Own;
use crate::promises::LockPromises;
use crate::role::Role;
use crate::row::Judge;
use crate::unit::{put_absent, put_main, put_method, put_unique};
use bound_tree::{BoundTree, Part, assigned_table, seen_places};
use bumpalo::Bump;
use desk_base::{Items, OutOfMemory};
use result_records::Finding;
use std::alloc::Global;

/// Puts the findings of the places of a unit whose assigned locals are these.
#[tactic(auto, using(crate::proofs::Places::seen_same, crate::proofs::Front::fronts))]
fn put_places_of<P: LockPromises>(
    alloc: Global,
    promises: &P,
    own: &Own,
    tree: &BoundTree,
    varies: &[bool],
    out: &mut Items<Finding>,
) -> Result<(), OutOfMemory>
    ensures ok { OnOk result (out.new ≡ out.old ++ flat_map (spec.place_findings (P.promises promises.now) own.now (varies_in varies.now)) (places_of tree.now)) }
    ensures front { OnErr result (Begins out.old out.new) }
{
    let arena = Bump::new(alloc);
    let places = seen_places(tree, varies, alloc, &arena)?;
    let judge = Judge {
        alloc,
        promises,
        own,
        varies,
    };
    judge.put_places(places.as_slice(), out)
}

/// Puts the findings of the places of a unit.
#[tactic(auto, using(crate::proofs::Front::fronts))]
fn put_code<P: LockPromises>(
    alloc: Global,
    promises: &P,
    own: &Own,
    tree: &BoundTree,
    out: &mut Items<Finding>,
) -> Result<(), OutOfMemory>
    ensures ok { OnOk result (out.new ≡ out.old ++ spec.places_findings (P.promises promises.now) own.now tree.now) }
    ensures front { OnErr result (Begins out.old out.new) }
{
    match &tree.part {
        Part::Body(body) => {
            let varies = assigned_table(&body.block, alloc)?;
            put_places_of(alloc, promises, own, tree, varies.as_slice(), out)
        }
        Part::Header(_) | Part::Field(_, _) | Part::Sig(_, _) => Ok(()),
    }
}

/// Puts the findings on what the unit is.
#[tactic(auto, using(crate::proofs::Front::fronts))]
fn put_role<P: LockPromises>(
    alloc: Global,
    promises: &P,
    own: &Own,
    role: &Role,
    out: &mut Items<Finding>,
) -> Result<(), OutOfMemory>
    ensures ok { OnOk result (out.new ≡ out.old ++ spec.role_findings (P.promises promises.now) own.now role.now) }
    ensures front { OnErr result (Begins out.old out.new) }
{
    match role {
        Role::Plain => Ok(()),
        Role::Method(aboves) => put_method(alloc, own, aboves.as_slice(), out),
        Role::Main => put_main(alloc, own, out),
        Role::UniqueField {
            class,
            name,
            unique,
        } => {
            let guards = promises.guards(alloc, class, name)?;
            put_unique(alloc, own, name, unique, guards.as_slice(), out)
        }
    }
}

/// Puts the findings on locks of a unit at the end: those on what its promises name, those on what it
/// is, and those of its places in the order of evaluation. They are not numbered yet. After want of
/// memory what was there still stands in front.
#[tactic(auto, using(crate::proofs::Front::fronts))]
pub fn judge_unit<P: LockPromises>(
    alloc: Global,
    promises: &P,
    own: &Own,
    role: &Role,
    tree: &BoundTree,
    out: &mut Items<Finding>,
) -> Result<(), OutOfMemory>
    ensures ok { OnOk result (out.new ≡ out.old ++ spec.lock_findings (P.promises promises.now) own.now role.now tree.now) }
    ensures front { OnErr result (Begins out.old out.new) }
{
    put_absent(alloc, own, out)?;
    put_role(alloc, promises, own, role, out)?;
    put_code(alloc, promises, own, tree, out)?;
    Ok(())
}
