//! The flow of a unit's locals: what is done to them, and which of their flows are clean.
//!
//! What is done is printed in its order: `1@9` names local 1 at token 9, `=1` sets it, `leave` leaves the
//! call, `( .. | .. )` goes one of two ways, and `( .. )*` the same way any number of times.

use crate::units::Project;
use anyhow::{Context, Result};
use bound_tree::{
    Body, BoundTree, Goal, Part, Seen, Stmt, Way, What, assigned_table, is_clean, local_of,
    no_ways, put_stmt, seen_places,
};
use bumpalo::Bump;
use std::alloc::Global;

/// What is still to be printed: a word, or ways, the last of them first.
#[derive(Drop)]
enum Piece<'a> {
    Word(&'static str),
    Ways(&'a [Way]),
}

fn put_way<'a>(out: &mut String, pieces: &mut Vec<Piece<'a>>, way: &'a Way) -> Result<()> {
    match way {
        Way::Names(local, at) => write!(out, " {local}@{at}")?,
        Way::Sets(local) => write!(out, " ={local}")?,
        Way::Leaves => out.push_str(" leave")?,
        Way::Either(one, other) => {
            out.push_str(" (")?;
            pieces.push(Piece::Word(" )"))?;
            pieces.push(Piece::Ways(other.as_slice()))?;
            pieces.push(Piece::Word(" |"))?;
            pieces.push(Piece::Ways(one.as_slice()))?;
        }
        Way::Again(turn) => {
            out.push_str(" (")?;
            pieces.push(Piece::Word(" )*"))?;
            pieces.push(Piece::Ways(turn.as_slice()))?;
        }
    }
    Ok(())
}

fn put_piece<'a>(out: &mut String, pieces: &mut Vec<Piece<'a>>, piece: Piece<'a>) -> Result<()> {
    match piece {
        Piece::Word(word) => {
            out.push_str(word)?;
            Ok(())
        }
        Piece::Ways(ways) => {
            let Some(last) = ways.len().checked_sub(1) else {
                return Ok(());
            };
            pieces.push(Piece::Ways(&ways[..last]))?;
            put_way(out, pieces, &ways[last])
        }
    }
}

fn put_flow(alloc: Global, out: &mut String, flow: &[Way]) -> Result<()> {
    let mut pieces = Vec::new(alloc);
    pieces.push(Piece::Ways(flow))?;
    for _ in 0..u64::MAX {
        let Some(piece) = pieces.pop() else {
            break;
        };
        put_piece(out, &mut pieces, piece)?;
    }
    Ok(())
}

// Whether a value goes to a method that lends it: one whose name is among the words.
fn is_lending(goal: &Goal<'_>, lenders: &str) -> bool {
    let (Goal::ToArgument(method, _) | Goal::ToReceiver(method)) = goal else {
        return false;
    };
    for word in lenders.split(' ') {
        if method.name.as_slice() == word.as_bytes() {
            return true;
        }
    }
    false
}

/// A flow of a local: its place, the local and the token that names it.
#[derive(Clone, Copy)]
struct LocalFlow<'a> {
    seen: Seen<'a>,
    local: u32,
    at: u32,
    is_lent: bool,
}

fn local_flow<'a>(seen: Seen<'a>, lenders: &str) -> Option<LocalFlow<'a>> {
    let What::Flows(value, goal) = seen.what else {
        return None;
    };
    let naming = local_of(value)?;
    Some(LocalFlow {
        seen,
        local: naming.local,
        at: naming.at,
        is_lent: is_lending(&goal, lenders),
    })
}

fn local_flows<'a>(
    alloc: Global,
    places: &[Seen<'a>],
    lenders: &str,
) -> Result<Vec<LocalFlow<'a>>> {
    let mut flows = Vec::new(alloc);
    for seen in places {
        if let Some(flow) = local_flow(*seen, lenders) {
            flows.push(flow)?;
        }
    }
    Ok(flows)
}

// By the number of each token whether a flow at it is no lending.
fn spends_of(alloc: Global, flows: &[LocalFlow<'_>]) -> Result<Vec<bool>> {
    let mut spends = Vec::new(alloc);
    for _ in 0..10_000 {
        spends.push(false)?;
    }
    for flow in flows {
        if let Some(spent) = spends.get_mut(flow.at as usize) {
            *spent = !flow.is_lent;
        }
    }
    Ok(spends)
}

fn put_local_flow(
    out: &mut String,
    flow: &[Way],
    spends: &[bool],
    one: &LocalFlow<'_>,
) -> Result<()> {
    let word = if one.is_lent { "lent" } else { "spent" };
    let clean = is_clean(flow, spends, one.seen.phrase, one.local, one.at);
    let clean = if clean { "clean" } else { "not clean" };
    writeln!(out, "{}@{} {word}, {clean}", one.local, one.at)?;
    Ok(())
}

fn put_local_flows(
    alloc: Global,
    out: &mut String,
    tree: &BoundTree,
    block: &Stmt,
    flow: &[Way],
    lenders: &str,
) -> Result<()> {
    let arena = Bump::new(alloc);
    let varies = assigned_table(block, alloc)?;
    let places = seen_places(tree, varies.as_slice(), alloc, &arena)?;
    let flows = local_flows(alloc, places.as_slice(), lenders)?;
    let spends = spends_of(alloc, flows.as_slice())?;
    for one in flows.as_slice() {
        put_local_flow(out, flow, spends.as_slice(), one)?;
    }
    Ok(())
}

fn body_of(tree: &BoundTree) -> Option<&Body> {
    match &tree.part {
        Part::Body(body) => Some(body),
        Part::Header(_) | Part::Field(_, _) | Part::Sig(_, _) => None,
    }
}

/// What is done to the locals of the unit of the key, and each flow of one of them. The heading's words
/// are the key and then the names of the methods that what flows to them is lent to.
pub(crate) fn put_flows(
    alloc: Global,
    out: &mut String,
    project: &Project,
    words: &str,
) -> Result<()> {
    let (key, lenders) = words.split_once(" lending to ").unwrap_or((words, ""));
    let unit = project.unit(key)?;
    let body = body_of(unit.tree()).context("no body")?;
    let mut flow = no_ways(alloc);
    put_stmt(&body.block, alloc, &mut flow)?;
    out.push_str("flow")?;
    put_flow(alloc, out, flow.as_slice())?;
    out.push('\n')?;
    put_local_flows(
        alloc,
        out,
        unit.tree(),
        &body.block,
        flow.as_slice(),
        lenders,
    )
}
