ghost use Rattle.std.specs.Prelude.{◌≡◌, ℕ, ◌<◌, ◌^◌, Bool, List, IfOk, length, slice_index_or, true, false};
ghost use Rattle.desk_base.specs.declared.key.PromiseKey.{PromiseKey as Key};
ghost use Rattle.result_records.specs.declared.finding.Finding.{Finding};
ghost use Rattle.consistency.specs.Graph.{GraphOf};
ghost use Rattle.consistency.specs.Rounds.{IsGreatest};
ghost use Rattle.consistency.specs.Steps.{InOrder};
ghost use Rattle.consistency.specs.Tables.{BlameEnds, LeafEnds, RowsTo, key_at, row_of, word_at};
ghost use Rattle.consistency.specs.Verdicts.{Runs, VerdictsOf};

use crate::causes::{blame_steps, causes_of, leaf_steps};
use crate::flat::flat_of;
use crate::follow::ends_of;
use crate::graph::{Clause, Graph};
use crate::numbers::numbers_of;
use crate::rounds::{Rounds, rounds_of};
use crate::verdict::Verdict;
use crate::verdicts::{Judged, Verdicts};
use desk_base::OutOfMemory;
use result_records::{FindingKey, FindingLink};
use std::alloc::Global;

fn run(alloc: Global, graph: &Graph, given: bool) -> Result<Rounds, OutOfMemory>
    ensures runs { IfOk result (λ r. Runs graph.now given r.left.items) }
    ensures order { IfOk result (λ r. InOrder r.left.items r.order.items) }
    ensures size { IfOk result (λ r. length r.left.items ≡ length graph.now.keys.items) }
    ensures few { IfOk result (λ r. length r.left.items < 2 ^ 31) }
{
    let flat = flat_of(alloc, graph.keys.len(), &graph.clauses, given)?;
    let rounds = rounds_of(alloc, &flat)?;
    Ok(rounds)
}

fn blames_of(
    alloc: Global,
    clauses: &[Clause],
    con: &Rounds,
) -> Result<Vec<Option<u32>>, OutOfMemory>
    requires few { length con.now.left.items < 2 ^ 31 }
    requires ons { (k : ℕ) (d : Clause) → k < length clauses.now → (slice_index_or clauses.now k d).on < length con.now.left.items }
    requires order { InOrder con.now.left.items con.now.order.items }
    ensures size { IfOk result (λ v. length v.items ≡ length con.now.left.items) }
    ensures blames { IfOk result (λ v. BlameEnds clauses.now con.now.left.items v.items) }
{
    let causes = causes_of(alloc, clauses, &con.left, true)?;
    let steps = blame_steps(alloc, clauses, &con.left, &causes)?;
    let ends = ends_of(alloc, con, &steps)?;
    Ok(ends)
}

fn leaves_of(
    alloc: Global,
    clauses: &[Clause],
    con: &[Option<u32>],
    firm: &Rounds,
) -> Result<Vec<Option<u32>>, OutOfMemory>
    requires few { length firm.now.left.items < 2 ^ 31 }
    requires size { length con.now ≡ length firm.now.left.items }
    requires ons { (k : ℕ) (d : Clause) → k < length clauses.now → (slice_index_or clauses.now k d).on < length firm.now.left.items }
    requires order { InOrder firm.now.left.items firm.now.order.items }
    ensures size { IfOk result (λ v. length v.items ≡ length firm.now.left.items) }
    ensures leaves { IfOk result (λ v. LeafEnds clauses.now con.now firm.now.left.items v.items) }
{
    let causes = causes_of(alloc, clauses, &firm.left, false)?;
    let steps = leaf_steps(alloc, clauses, con, &firm.left, &causes)?;
    let ends = ends_of(alloc, firm, &steps)?;
    Ok(ends)
}

fn key_copy(clauses: &[Clause], finding: Option<u32>) -> Result<Option<FindingKey>, OutOfMemory>
    ensures { IfOk result (λ key. key ≡ key_at clauses.now finding) }
{
    let Some(finding) = finding else {
        return Ok(None);
    };
    match clauses.get(finding as usize) {
        None => Ok(None),
        Some(clause) => Ok(Some(clause.key.clone()?)),
    }
}

fn word_copy(words: &[FindingLink], word: Option<u32>) -> Result<Option<FindingLink>, OutOfMemory>
    ensures { IfOk result (λ link. link ≡ word_at words.now word) }
{
    let Some(word) = word else {
        return Ok(None);
    };
    match words.get(word as usize) {
        None => Ok(None),
        Some(link) => Ok(Some(link.clone()?)),
    }
}

fn judge_one(
    graph: &Graph,
    con: Option<u32>,
    firm: Option<u32>,
    blame: Option<u32>,
    leaf: Option<u32>,
) -> Result<Judged, OutOfMemory>
    ensures { IfOk result (λ row. row ≡ row_of graph.now.clauses.items graph.now.words.items con firm blame leaf) }
{
    match (con, firm) {
        (None, None) => Ok(Judged {
            verdict: Verdict::Firm,
            blame: None,
            leaf: None,
        }),
        (None, Some(_)) => Ok(Judged {
            verdict: Verdict::Contingent,
            blame: None,
            leaf: word_copy(&graph.words, leaf)?,
        }),
        (Some(_), _) => Ok(Judged {
            verdict: Verdict::Inconsistent,
            blame: key_copy(&graph.clauses, blame)?,
            leaf: None,
        }),
    }
}

fn judge_all(
    alloc: Global,
    graph: &Graph,
    con: &[Option<u32>],
    firm: &[Option<u32>],
    blames: &[Option<u32>],
    leaves: &[Option<u32>],
) -> Result<Vec<Judged>, OutOfMemory>
    requires firm { length firm.now ≡ length con.now }
    requires blames { length blames.now ≡ length con.now }
    requires leaves { length leaves.now ≡ length con.now }
    ensures { IfOk result (λ v. RowsTo graph.now.clauses.items graph.now.words.items con.now firm.now blames.now leaves.now (length con.now) v.items) }
{
    let mut judged = Vec::new(alloc);
    for p in 0..con.len() {
        judged.push(judge_one(graph, con[p], firm[p], blames[p], leaves[p])?)?;
    }
    Ok(judged)
}

/// The verdict on each promise of a graph, with its blame or its leaf. A promise is consistent where
/// it is in the greatest set of promises whose findings each have an alternative that leads into the
/// set; it is firm where that holds without vouches and assumptions.
pub fn solve(alloc: Global, graph: &Graph) -> Result<Verdicts, OutOfMemory>
    ensures verdicts { IfOk result (λ v. (ps : List Key) (fs : List Finding) → GraphOf ps fs graph.now → VerdictsOf ps fs v) }
    ensures greatest { IfOk result (λ v. (ps : List Key) (fs : List Finding) (given : Bool) → GraphOf ps fs graph.now → IsGreatest ps fs given) }
{
    let con = run(alloc, graph, true)?;
    let firm = run(alloc, graph, false)?;
    let blames = blames_of(alloc, &graph.clauses, &con)?;
    let leaves = leaves_of(alloc, &graph.clauses, &con.left, &firm)?;
    let judged = judge_all(alloc, graph, &con.left, &firm.left, &blames, &leaves)?;
    Ok(Verdicts {
        numbers: numbers_of(alloc, &graph.keys)?,
        judged,
    })
}
