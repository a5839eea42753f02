ghost use Rattle.std.specs.Prelude.{◌≡◌, ℕ, ◌<◌, ◌^◌, IfOk, length, slice_index_or};
ghost use Rattle.consistency.specs.Tables.{lost_of, CauseTo, Causes, BlameSteps, LeafSteps, blame_by, cause_next, leaf_by};

use crate::graph::Clause;
use crate::numbers::short;
use crate::rounds::none_left;
use crate::steps::{Step, blame_step, is_lost_in, leaf_step};
use desk_base::OutOfMemory;
use std::alloc::Global;

/// Whether no alternative of a finding survives the last round in which its promise is.
fn is_cause(left: &[Option<u32>], given: bool, clause: &Clause) -> bool
    ensures { result ≡ lost_of left.now given clause.now }
{
    match left.get(clause.on as usize) {
        Some(Some(out)) => is_lost_in(left, given, out.saturating_sub(1), clause),
        _ => false,
    }
}

fn first_cause(before: Option<u32>, lost: bool, finding: u32) -> Option<u32>
    ensures { result ≡ cause_next before lost finding }
{
    match before {
        Some(cause) => Some(cause),
        None if lost => Some(finding),
        None => None,
    }
}

/// The first lost finding of each promise that left.
pub(crate) fn causes_of(
    alloc: Global,
    clauses: &[Clause],
    left: &[Option<u32>],
    given: bool,
) -> Result<Vec<Option<u32>>, OutOfMemory>
    requires few { length left.now < 2 ^ 32 }
    requires ons { (k : ℕ) (d : Clause) → k < length clauses.now → (slice_index_or clauses.now k d).on < length left.now }
    ensures size { IfOk result (λ v. length v.items ≡ length left.now) }
    ensures causes { IfOk result (λ v. Causes clauses.now left.now given (length clauses.now) v.items) }
{
    let mut causes = none_left(alloc, left.len() as u32)?;
    for i in 0..clauses.len() {
        let clause = &clauses[i];
        let lost = is_cause(left, given, clause);
        let cause = first_cause(causes[clause.on as usize], lost, short(i)?);
        causes[clause.on as usize] = cause;
    }
    Ok(causes)
}

fn blame_step_of(
    clauses: &[Clause],
    left: &[Option<u32>],
    promise: usize,
    cause: Option<u32>,
) -> Option<Step>
    ensures { result ≡ blame_by clauses.now left.now (slice_index_or left.now promise None) cause }
{
    match (left.get(promise), cause) {
        (Some(Some(out)), Some(finding)) => match clauses.get(finding as usize) {
            None => None,
            Some(clause) => blame_step(left, finding, out.saturating_sub(1), clause),
        },
        _ => None,
    }
}

/// The step towards the blame of each promise that left.
pub(crate) fn blame_steps(
    alloc: Global,
    clauses: &[Clause],
    left: &[Option<u32>],
    causes: &[Option<u32>],
) -> Result<Vec<Option<Step>>, OutOfMemory>
    requires { length causes.now ≡ length left.now }
    ensures size { IfOk result (λ v. length v.items ≡ length left.now) }
    ensures steps { IfOk result (λ v. BlameSteps clauses.now left.now causes.now (length left.now) v.items) }
{
    let mut steps = Vec::new(alloc);
    for promise in 0..left.len() {
        steps.push(blame_step_of(clauses, left, promise, causes[promise]))?;
    }
    Ok(steps)
}

fn leaf_step_of(
    clauses: &[Clause],
    con: &[Option<u32>],
    firm: &[Option<u32>],
    promise: usize,
    cause: Option<u32>,
) -> Option<Step>
    requires { length con.now < 2 ^ 32 }
    ensures { result ≡ leaf_by clauses.now con.now firm.now (slice_index_or con.now promise None) (slice_index_or firm.now promise None) cause }
{
    if let Some(Some(_)) = con.get(promise) {
        return None;
    }
    match (firm.get(promise), cause) {
        (Some(Some(out)), Some(finding)) => match clauses.get(finding as usize) {
            None => None,
            Some(clause) => leaf_step(con, firm, con.len() as u32, out.saturating_sub(1), clause),
        },
        _ => None,
    }
}

/// The step towards the leaf of each promise that left where words don't count alone.
pub(crate) fn leaf_steps(
    alloc: Global,
    clauses: &[Clause],
    con: &[Option<u32>],
    firm: &[Option<u32>],
    causes: &[Option<u32>],
) -> Result<Vec<Option<Step>>, OutOfMemory>
    requires few { length con.now < 2 ^ 32 }
    requires size { length causes.now ≡ length firm.now }
    ensures size { IfOk result (λ v. length v.items ≡ length firm.now) }
    ensures steps { IfOk result (λ v. LeafSteps clauses.now con.now firm.now causes.now (length firm.now) v.items) }
{
    let mut steps = Vec::new(alloc);
    for promise in 0..firm.len() {
        steps.push(leaf_step_of(clauses, con, firm, promise, causes[promise]))?;
    }
    Ok(steps)
}
