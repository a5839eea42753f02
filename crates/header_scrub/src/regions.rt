ghost use Rattle.std.specs.Prelude.{◌≡◌, ◌++◌, ℕ, List, drop, IfOk, OnOk};
ghost use Rattle.promise_grammar.specs.declared.tree.PromiseTree.{out-PromiseTree};
ghost use Rattle.region_tree.specs.Regions.{number_of, parents_of};
ghost use Rattle.region_tree.specs.Tree.{parents_in, region_in as region_at};
ghost use Rattle.header_scrub.specs.Regions as spec;
ghost use Rattle.header_scrub.specs.Regions.{RegionsScrubbed};

use desk_base::{Items, Name, OutOfMemory};
use promise_grammar::PromiseTree;
use promise_marks::Mark;
use region_scrub::{RegionFault, set_faulty_aside, those_left};
use region_tree::{RegionDecl, RegionTree, build};
use result_records::FindingCode;
use scrub_rules::{Site, first_code};
use std::alloc::Global;

fn put_decl(declared: &mut Items<RegionDecl>, tree: &PromiseTree) -> Result<(), OutOfMemory>
    ensures { OnOk result (declared.new ≡ declared.old ++ spec.region_decl (out-PromiseTree tree.now)) }
{
    match tree {
        PromiseTree::Region(region) => {
            let decl = RegionDecl::copied(&region.name, &region.parent, region.is_static)?;
            declared.push(decl)?;
            Ok(())
        }
        _ => Ok(()),
    }
}

fn put_region(declared: &mut Items<RegionDecl>, site: Site, mark: &Mark) -> Result<(), OutOfMemory>
    ensures { OnOk result (declared.new ≡ declared.old ++ spec.region_in site mark.now) }
{
    if first_code(site, &mark.tree).is_some() {
        return Ok(());
    }
    match &mark.tree {
        None => Ok(()),
        Some(tree) => put_decl(declared, tree.get()),
    }
}

// The regions that a header declares, whatever their faults, in written order.
fn decls_of(alloc: Global, site: Site, marks: &[Mark]) -> Result<Items<RegionDecl>, OutOfMemory>
    ensures { IfOk result (λ declared. declared ≡ spec.decls_of site marks.now) }
{
    let mut declared = Items::new(alloc);
    for mark in marks {
        put_region(&mut declared, site, mark)?;
    }
    Ok(declared)
}

pub(crate) fn is_root(name: &Name) -> bool
    ensures { result ≡ spec.is_root name.now }
{
    name.as_slice() == b"Instance".as_slice() || name.as_slice() == b"Static".as_slice()
}

fn fault_code(fault: RegionFault) -> FindingCode
    ensures { result ≡ spec.fault_code fault }
{
    match fault {
        RegionFault::Repeated => FindingCode::NameUsedTwice,
        RegionFault::UnknownParent => FindingCode::UnknownRegion,
        RegionFault::Mixed => FindingCode::MixedKinds,
        RegionFault::Cycle => FindingCode::RegionCycle,
    }
}

// The code of the next declaration, where it is set aside.
fn next_fault(aside: &[Option<RegionFault>]) -> Option<FindingCode>
    ensures { result ≡ spec.next_fault aside.now }
{
    match aside {
        [Some(fault), ..] => Some(fault_code(*fault)),
        _ => None,
    }
}

fn without_first(aside: &[Option<RegionFault>]) -> &[Option<RegionFault>]
    ensures { result.now ≡ drop 1 aside.now }
{
    match aside {
        [] => aside,
        [_, more @ ..] => more,
    }
}

fn is_region(tree: &PromiseTree) -> bool
    ensures { result ≡ spec.is_region (out-PromiseTree tree.now) }
{
    matches!(tree, PromiseTree::Region(_))
}

// Whether an annotation declares a region.
fn declares(site: Site, mark: &Mark) -> bool
    ensures { result ≡ spec.declares site mark.now }
{
    match (first_code(site, &mark.tree), &mark.tree) {
        (None, Some(tree)) => is_region(tree.get()),
        _ => false,
    }
}

// The code of an annotation where the declarations from its own on are set aside so.
fn code_here(site: Site, mark: &Mark, aside: &[Option<RegionFault>]) -> Option<FindingCode>
    ensures { result ≡ spec.code_here site mark.now aside.now }
{
    if declares(site, mark) {
        next_fault(aside)
    } else {
        first_code(site, &mark.tree)
    }
}

// The declarations after those of an annotation.
fn aside_after<'a>(
    site: Site,
    mark: &Mark,
    aside: &'a [Option<RegionFault>],
) -> &'a [Option<RegionFault>]
    ensures { result.now ≡ spec.aside_after site mark.now aside.now }
{
    if declares(site, mark) {
        without_first(aside)
    } else {
        aside
    }
}

// The codes of a header's annotations by their places and contents alone, and by those of their
// declarations that are set aside.
fn region_codes(
    alloc: Global,
    site: Site,
    marks: &[Mark],
    aside: &[Option<RegionFault>],
) -> Result<Items<Option<FindingCode>>, OutOfMemory>
    ensures { IfOk result (λ codes. codes ≡ spec.codes_with site marks.now aside.now) }
{
    let mut codes = Items::new(alloc);
    let mut left = aside;
    for mark in marks {
        codes.push(code_here(site, mark, left))?;
        left = aside_after(site, mark, left);
    }
    Ok(codes)
}

/// The regions of a class that stand, their tree, and the codes of the header's annotations after
/// them.
#[derive(Drop)]
pub(crate) struct ScrubbedRegions {
    pub(crate) regions: Items<RegionDecl>,
    pub(crate) tree: RegionTree,
    pub(crate) codes: Items<Option<FindingCode>>,
}

// The declarations that stand and their tree. No fault is left, so only memory can be wanting.
fn built(
    alloc: Global,
    regions: Items<RegionDecl>,
    codes: Items<Option<FindingCode>>,
) -> Result<ScrubbedRegions, OutOfMemory>
    ensures regions { IfOk result (λ scrubbed. scrubbed.regions ≡ regions) }
    ensures codes { IfOk result (λ scrubbed. scrubbed.codes ≡ codes) }
    ensures parents { IfOk result (λ scrubbed. parents_in scrubbed.tree ≡ parents_of regions) }
    ensures numbers { IfOk result (λ scrubbed. (name : List ℕ) → region_at scrubbed.tree name ≡ number_of regions name) }
{
    match build(alloc, regions.as_slice(), &[]) {
        Ok(tree) => Ok(ScrubbedRegions {
            regions,
            tree,
            codes,
        }),
        Err(_) => Err(OutOfMemory),
    }
}

/// Sets faulty declarations of a header aside and builds the others.
pub(crate) fn scrub_regions(
    alloc: Global,
    site: Site,
    marks: &[Mark],
) -> Result<ScrubbedRegions, OutOfMemory>
    ensures scrubs { IfOk result (λ scrubbed. RegionsScrubbed site marks.now scrubbed.regions scrubbed.codes) }
    ensures parents { IfOk result (λ scrubbed. parents_in scrubbed.tree ≡ parents_of scrubbed.regions) }
    ensures numbers { IfOk result (λ scrubbed. (name : List ℕ) → region_at scrubbed.tree name ≡ number_of scrubbed.regions name) }
{
    let declared = decls_of(alloc, site, marks)?;
    let aside = set_faulty_aside(alloc, declared.as_slice())?;
    let codes = region_codes(alloc, site, marks, &aside)?;
    let regions = Items::from_vec(those_left(alloc, declared.as_slice(), &aside)?);
    built(alloc, regions, codes)
}
