//! Cases of `region_tree` and `region_scrub`. Regions are written as `C extends B; static S`, fields as
//! `n in A; static s`, both together with a bar between them.

ghost use Rattle.region_tree.specs.Disjoint.{AreOf};
ghost use Rattle.region_tree.specs.Tree.{parents_in};

use crate::surfaces::put_bytes;
use anyhow::{Context, Result, bail};
use desk_base::Name;
use region_scrub::{RegionFault, set_faulty_aside};
use region_tree::{DisjointRegions, FieldPut, RegionDecl, RegionError, RegionTree, build};
use std::alloc::Global;

fn name_of(alloc: Global, text: &str) -> Result<Name> {
    Ok(Name::from_slice(alloc, text.as_bytes())?)
}

// The parts of what is written: whether it is static, its name, and what stands behind the word.
fn parts_of<'a>(written: &'a str, word: &str) -> (bool, &'a str, Option<&'a str>) {
    let (is_static, named) = match written.strip_prefix("static ") {
        Some(named) => (true, named),
        None => (false, written),
    };
    match named.split_once(word) {
        Some((name, above)) => (is_static, name, Some(above)),
        None => (is_static, named, None),
    }
}

fn name_perhaps(alloc: Global, text: Option<&str>) -> Result<Option<Name>> {
    match text {
        Some(text) => Ok(Some(name_of(alloc, text)?)),
        None => Ok(None),
    }
}

fn decl_of(alloc: Global, written: &str) -> Result<RegionDecl> {
    let (is_static, name, parent) = parts_of(written, " extends ");
    Ok(RegionDecl {
        name: name_of(alloc, name)?,
        parent: name_perhaps(alloc, parent)?,
        is_static,
    })
}

fn field_of(alloc: Global, written: &str) -> Result<FieldPut> {
    let (is_static, field, region) = parts_of(written, " in ");
    Ok(FieldPut {
        field: name_of(alloc, field)?,
        region: name_perhaps(alloc, region)?,
        is_static,
    })
}

fn decls_of(alloc: Global, written: &str) -> Result<Vec<RegionDecl>> {
    let mut decls = Vec::new(alloc);
    for decl in written.split("; ") {
        decls.push(decl_of(alloc, decl)?)?;
    }
    Ok(decls)
}

fn fields_of(alloc: Global, written: &str) -> Result<Vec<FieldPut>> {
    let mut fields = Vec::new(alloc);
    if written.is_empty() {
        return Ok(fields);
    }
    for field in written.split("; ") {
        fields.push(field_of(alloc, field)?)?;
    }
    Ok(fields)
}

fn tree_of(alloc: Global, written: &str) -> Result<Result<RegionTree, RegionError>> {
    let (decls, fields) = written.split_once(" | ").unwrap_or((written, ""));
    let decls = decls_of(alloc, decls)?;
    let fields = fields_of(alloc, fields)?;
    Ok(build(alloc, &decls, &fields))
}

fn put_fault(out: &mut String, error: &RegionError) -> Result<()> {
    let (fault, name) = match error {
        RegionError::Repeated { name } => ("repeated ", name),
        RegionError::UnknownParent { name } => ("unknown parent of ", name),
        RegionError::Mixed { name } => ("mixed ", name),
        RegionError::Cycle { name } => ("cycle of ", name),
        RegionError::FieldRegion { name } => ("no region of field ", name),
        RegionError::OutOfMemory => bail!("out of memory"),
    };
    out.push_str(fault)?;
    put_bytes(out, name.as_slice())
}

fn put_tree(alloc: Global, out: &mut String, written: &str) -> Result<()> {
    match tree_of(alloc, written)? {
        Ok(_) => put_bytes(out, b"a tree"),
        Err(error) => put_fault(out, &error),
    }
}

fn put_aside(alloc: Global, out: &mut String, written: &str) -> Result<()> {
    let decls = decls_of(alloc, written)?;
    for (i, fault) in set_faulty_aside(alloc, &decls)?.iter().enumerate() {
        out.push_str(if i == 0 { "" } else { ", " })?;
        out.push_str(match fault {
            None => "left",
            Some(RegionFault::Repeated) => "repeated",
            Some(RegionFault::UnknownParent) => "unknown parent",
            Some(RegionFault::Mixed) => "mixed",
            Some(RegionFault::Cycle) => "cycle",
        })?;
    }
    Ok(())
}

fn is_under(alloc: Global, tree: &RegionTree, below: &str, above: &str) -> Result<bool> {
    let below = tree.region(&name_of(alloc, below)?).context("no region")?;
    let above = tree.region(&name_of(alloc, above)?).context("no region")?;
    Ok(tree.is_under(below, above))
}

fn is_in(alloc: Global, tree: &RegionTree, field: &str, region: &str) -> Result<bool> {
    let place = tree.region_of(&name_of(alloc, field)?).context("no field")?;
    let region = tree.region(&name_of(alloc, region)?).context("no region")?;
    Ok(place == region)
}

// What the question asks of the tree: `A under B`, `n in A`, `region A` or `field n`.
fn holds(alloc: Global, tree: &RegionTree, question: &str) -> Result<bool> {
    if let Some((below, above)) = question.split_once(" under ") {
        return is_under(alloc, tree, below, above);
    }
    if let Some((field, region)) = question.split_once(" in ") {
        return is_in(alloc, tree, field, region);
    }
    if let Some(region) = question.strip_prefix("region ") {
        return Ok(tree.region(&name_of(alloc, region)?).is_some());
    }
    let field = question.strip_prefix("field ").context("no question")?;
    Ok(tree.region_of(&name_of(alloc, field)?).is_some())
}

fn put_question(alloc: Global, out: &mut String, written: &str, question: &str) -> Result<()> {
    let tree = tree_of(alloc, written)??;
    out.push_str(if holds(alloc, &tree, question)? {
        "yes"
    } else {
        "no"
    })?;
    Ok(())
}

fn put_added(
    alloc: Global,
    out: &mut String,
    tree: &RegionTree,
    apart: &mut DisjointRegions,
    name: &str,
) -> Result<()>
    requires { AreOf (parents_in tree.now) apart.old }
    ensures { AreOf (parents_in tree.now) apart.new }
{
    let region = tree.region(&name_of(alloc, name)?).context("no region")?;
    let word = if apart.add(tree, region) {
        "added"
    } else {
        "not"
    };
    out.push_str(if out.is_empty() { "" } else { "; " })?;
    write!(out, "{name} {word}")?;
    Ok(())
}

// Which of the regions are added, one after another, none being under another.
fn put_apart(alloc: Global, out: &mut String, written: &str, names: &str) -> Result<()> {
    let tree = tree_of(alloc, written)??;
    let mut apart = DisjointRegions::new(alloc, &tree)?;
    for name in names.split(' ') {
        put_added(alloc, out, &tree, &mut apart, name)?;
    }
    Ok(())
}

/// The first fault of the regions of the line, or those that are set aside; or what the line asks of the
/// regions of the heading.
pub(crate) fn put_case(alloc: Global, out: &mut String, words: &str, line: &str) -> Result<()> {
    if let Some(written) = words.strip_prefix("of ") {
        return put_question(alloc, out, written, line);
    }
    if let Some(written) = words.strip_prefix("apart of ") {
        return put_apart(alloc, out, written, line);
    }
    match words {
        "built" => put_tree(alloc, out, line),
        "set aside" => put_aside(alloc, out, line),
        _ => bail!("no cases of regions {words}"),
    }
}
