ghost use Rattle.std.specs.Prelude.{◌≡◌, ◌⊎◌, ℕ, suc, ◌+◌, ◌-◌, ◌<◌, ◌≤◌, ◌^◌, Bool, true, false, List, Option, Some, None, All, Contains, IfOk, OnOk, length, map, slice_index, slice_index_or, slice_set, replicate, []};
ghost use Rattle.consistency.specs.Flat.{Fits, Left, Alive, on_of, finding_of, living_of};
ghost use Rattle.consistency.specs.Steps.{Level, Dying, Killed, Leave, Dependents, Counted, Emptying, Empties, Solved, Taken, Consistent, still_in, InOrder, Grows};

use crate::flat::Flat;
use desk_base::OutOfMemory;
use std::alloc::{AllocError, Global};

/// What stands between two levels.
#[derive(Drop)]
pub struct State {
    dead: Vec<bool>,
    living: Vec<u32>,
    left: Vec<Option<u32>>,
    front: Vec<u32>,
}

/// For each promise the alternatives that link to it.
fn dependents(alloc: Global, flat: &Flat) -> Result<Vec<Vec<u32>>, OutOfMemory>
    requires { Fits flat.now }
    ensures { IfOk result (λ v. Dependents flat.now (length flat.now.alternative.items) (map (λ r. r.items) v.items)) }
{
    let mut rows = empty_rows(alloc, flat.promises)?;
    for l in 0..flat.alternative.len() {
        let row = &mut rows[flat.target[l] as usize];
        row.push(flat.alternative[l])?;
    }
    Ok(rows)
}

fn empty_rows(alloc: Global, count: u32) -> Result<Vec<Vec<u32>>, OutOfMemory>
    ensures { IfOk result (λ v. map (λ r. r.items) v.items ≡ replicate count []) }
{
    let mut rows = Vec::new(alloc);
    for _ in 0..count {
        rows.push(Vec::new(alloc))?;
    }
    Ok(rows)
}

/// The alternatives that link into the front.
fn dying(alloc: Global, dependents: &[Vec<u32>], front: &[u32]) -> Result<Vec<u32>, OutOfMemory>
    requires { All (λ q. q < length dependents.now) front.now }
    ensures found { IfOk result (λ v. (q a : ℕ) → Contains front.now q → Contains (slice_index_or (map (λ r. r.items) dependents.now) q []) a → Contains v.items a) }
    ensures only { IfOk result (λ v. (a : ℕ) → Contains v.items a → (q : ℕ) × Contains front.now q × Contains (slice_index_or (map (λ r. r.items) dependents.now) q []) a) }
{
    let mut dying = Vec::new(alloc);
    for q in front {
        dying.extend_from_slice(&dependents[*q as usize])?;
    }
    Ok(dying)
}

/// Marks an alternative dead; whether its finding has lost its last one by it.
fn mark(finding: &[u32], dead: &mut [bool], living: &mut [u32], a: u32) -> bool
    requires within { a < length finding.now }
    requires dead_size { length dead.old ≡ length finding.now }
    requires finding_in { (k : ℕ) → k < length finding.now → slice_index finding.now k < length living.old }
    requires counts { Counted finding.now dead.old living.old }
    ensures marked { dead.new ≡ slice_set dead.old a true }
    ensures counts { Counted finding.now dead.new living.new }
    ensures emptied { result ≡ true → slice_index living.new (slice_index finding.now a) ≡ 0 }
    ensures others { Emptying finding.now a living.old living.new result }
{
    if dead[a as usize] {
        return false;
    }
    dead[a as usize] = true;
    let f = finding[a as usize] as usize;
    living[f] -= 1;
    living[f] == 0
}

/// Marks the dying; the findings that have lost their last alternative.
fn kill(
    alloc: Global,
    finding: &[u32],
    dead: &mut [bool],
    living: &mut [u32],
    dying: &[u32],
) -> Result<Vec<u32>, OutOfMemory>
    requires within { All (λ a. a < length finding.now) dying.now }
    requires dead_size { length dead.old ≡ length finding.now }
    requires finding_in { (k : ℕ) → k < length finding.now → slice_index finding.now k < length living.old }
    requires counts { Counted finding.now dead.old living.old }
    ensures { IfOk result (λ v. Killed finding.now dying.now dead.old dead.new living.old living.new v.items) }
{
    let mut emptied = Vec::new(alloc);
    for a in dying {
        if mark(finding, dead, living, *a) {
            emptied.push(finding[*a as usize])?;
        }
    }
    Ok(emptied)
}

/// The promises of emptied findings leave.
fn leave(
    alloc: Global,
    on: &[u32],
    left: &mut [Option<u32>],
    emptied: &[u32],
    round: u32,
) -> Result<Vec<u32>, OutOfMemory>
    requires within { All (λ f. f < length on.now) emptied.now }
    requires on_in { (k : ℕ) → k < length on.now → slice_index on.now k < length left.old }
    ensures { IfOk result (λ v. Leave on.now emptied.now round left.old left.new v.items) }
{
    let mut front = Vec::new(alloc);
    for f in emptied {
        let p = on[*f as usize];
        if left[p as usize].is_none() {
            left[p as usize] = Some(round);
            front.push(p)?;
        }
    }
    Ok(front)
}

/// How many alternatives of each finding live.
fn counts(
    alloc: Global,
    finding: &[u32],
    dead: &[bool],
    findings: usize,
) -> Result<Vec<u32>, OutOfMemory>
    requires few { length finding.now < 2 ^ 32 }
    requires dead_size { length dead.now ≡ length finding.now }
    requires finding_in { (k : ℕ) → k < length finding.now → slice_index finding.now k < findings }
    ensures size { IfOk result (λ v. length v.items ≡ findings) }
    ensures counts { IfOk result (λ v. Counted finding.now dead.now v.items) }
{
    let mut living = vec![in alloc; 0u32; findings]?;
    for a in 0..finding.len() {
        if !dead[a] {
            living[finding[a] as usize] += 1;
        }
    }
    Ok(living)
}

/// The findings with no living alternative.
fn empty_findings(alloc: Global, living: &[u32]) -> Result<Vec<u32>, OutOfMemory>
    requires { length living.now < 2 ^ 32 }
    ensures { IfOk result (λ v. Empties living.now (length living.now) v.items) }
{
    let mut empty = Vec::new(alloc);
    for f in 0..living.len() {
        if living[f] == 0 {
            empty.push(f as u32)?;
        }
    }
    Ok(empty)
}

fn copied(alloc: Global, flags: &[bool]) -> Result<Vec<bool>, AllocError>
    ensures { IfOk result (λ v. v.items ≡ flags.now) }
{
    flags.iter().copied().collect(alloc)
}

pub(crate) fn none_left(alloc: Global, count: u32) -> Result<Vec<Option<u32>>, OutOfMemory>
    ensures { IfOk result (λ v. v.items ≡ replicate count None) }
{
    let mut left = Vec::new(alloc);
    for _ in 0..count {
        left.push(None)?;
    }
    Ok(left)
}

/// The first level: what leaves in round 1.
fn start(alloc: Global, flat: &Flat) -> Result<State, OutOfMemory>
    requires { Fits flat.now }
    ensures level { IfOk result (λ s. Level flat.now 0 s.dead.items s.living.items s.left.items s.front.items) }
    ensures taken { IfOk result (λ s. Taken 0 s.left.items s.front.items) }
    ensures first { IfOk result (λ s. Grows 1 (replicate flat.now.promises None) s.left.items s.front.items) }
{
    let dead = copied(alloc, &flat.barred)?;
    let living = counts(alloc, &flat.finding, &dead, flat.on.len())?;
    let mut left = none_left(alloc, flat.promises)?;
    let emptied = empty_findings(alloc, &living)?;
    let front = leave(alloc, &flat.on, &mut left, &emptied, 1)?;
    Ok(State {
        dead,
        living,
        left,
        front,
    })
}

/// One level: the front's dependents are counted down, and those that lose by it are the next front.
fn level(
    alloc: Global,
    flat: &Flat,
    dependents: &[Vec<u32>],
    mut state: State,
    round: u32,
) -> Result<State, OutOfMemory>
    requires fits { Fits flat.now }
    requires rows { Dependents flat.now (length flat.now.alternative.items) (map (λ r. r.items) dependents.now) }
    requires some { 1 ≤ round }
    requires next { round < 2 ^ 32 - 1 }
    requires level { Level flat.now (round - 1) state.dead.items state.living.items state.left.items state.front.items }
    requires taken { Taken (round - 1) state.left.items state.front.items }
    requires more { 0 < length state.front.items }
    ensures level { IfOk result (λ s. Level flat.now round s.dead.items s.living.items s.left.items s.front.items) }
    ensures taken { IfOk result (λ s. Taken round s.left.items s.front.items) }
    ensures grows { IfOk result (λ s. Grows (round + 1) state.left.items s.left.items s.front.items) }
{
    let dying = dying(alloc, dependents, &state.front)?;
    let emptied = kill(
        alloc,
        &flat.finding,
        &mut state.dead,
        &mut state.living,
        &dying,
    )?;
    state.front = leave(alloc, &flat.on, &mut state.left, &emptied, round + 1)?;
    Ok(state)
}

/// For each promise the first round that it isn't in, if any, and the promises that leave, each
/// after those that left in rounds before.
#[derive(Drop)]
pub(crate) struct Rounds {
    pub(crate) left: Vec<Option<u32>>,
    pub(crate) order: Vec<u32>,
}

/// Counts down dependents from level to level until nobody leaves.
pub(crate) fn rounds_of(alloc: Global, flat: &Flat) -> Result<Rounds, OutOfMemory>
    requires { Fits flat.now }
    ensures solved { IfOk result (λ r. Solved flat.now r.left.items) }
    ensures order { IfOk result (λ r. InOrder r.left.items r.order.items) }
    ensures consistent { IfOk result (λ r. Consistent flat.now) }
{
    let dependents = dependents(alloc, flat)?;
    let mut state = start(alloc, flat)?;
    let mut order = Vec::new(alloc);
    order.extend_from_slice(&state.front)?;
    let mut round = 1;
    'levels: while !state.front.is_empty() {
        state = level(alloc, flat, &dependents, state, round)?;
        order.extend_from_slice(&state.front)?;
        round += 1;
    }
    Ok(Rounds {
        left: state.left,
        order,
    })
}

/// Whether a promise is in a round, by the round in which it left.
pub(crate) fn is_in(left: &[Option<u32>], promise: u32, round: u32) -> bool
    ensures { result ≡ still_in (slice_index_or left.now promise None) round }
{
    match left.get(promise as usize) {
        Some(Some(out)) => round < *out,
        _ => true,
    }
}
