ghost use Rattle.std.specs.Prelude.{◌≡◌, IfOk};
ghost use Rattle.bound_unit.specs.Made.{made};

use bound_tree::BoundTree;
use desk_base::{Items, Name, OutOfMemory, Text};
use lowering::{NamedCode, code_of, places};
use result_records::Finding;
use std::alloc::Global;
use std::marker::Model;

/// A unit of a class under a view, bound. Contracts see what is known of it; its code and its places are
/// always those of its tree.
#[derive(Drop)]
pub struct BoundUnit {
    key: Text,
    tree: BoundTree,
    code: NamedCode,
    places: Items<u32>,
    findings: Items<Finding>,
    consulted: Items<Name>,
}

impl Model for BoundUnit {
    ghost use Rattle.bound_unit.specs.UnitFacts.{UnitFacts};
    ghost use Rattle.bound_unit.specs.Made.{IsMade};
    ghost use Rattle.std.specs.Coded.{codes};
    ghost use Rattle.bound_tree.specs.contracts.unit.BoundTree as bound;
    ghost use Rattle.lowering.specs.CodeCoded.{coded_code};
    ghost use Rattle.result_records.specs.contracts.finding.Finding as found;

    ghost Value = { UnitFacts };

    ghost coded = { Prim.hlevel (codes, bound.the_row.coded, found.the_row.coded, coded_code) };

    ghost view = { λ u. record { key = u.key; tree = u.tree; code = u.code; places = u.places; findings = u.findings; consulted = u.consulted } };

    ghost invariant = { λ u. IsMade u.tree u.code u.places };
}

impl BoundUnit {
    /// The unit of a key with this tree, these bind findings and these consulted names. Its code and
    /// the places of the code's steps are made of the tree. Its one error is want of memory.
    pub fn new(
        alloc: Global,
        key: Text,
        tree: BoundTree,
        findings: Items<Finding>,
        consulted: Items<Name>,
    ) -> Result<BoundUnit, OutOfMemory>
        ensures { IfOk result (λ unit. unit ≡ made key tree findings consulted) }
    {
        let code = code_of(&tree, alloc)?;
        let places = places(&code, alloc)?;
        Ok(BoundUnit {
            key,
            tree,
            code,
            places,
            findings,
            consulted,
        })
    }

    /// The unit's key: `C` of a header, `C.f` of a field, `C.m/2` of a method with two parameters.
    pub fn key(&self) -> &Text
        ensures { result.now ≡ self.now.key }
    {
        &self.key
    }

    /// The unit's tree, with what each name names and the type of each expression.
    pub fn tree(&self) -> &BoundTree
        ensures { result.now ≡ self.now.tree }
    {
        &self.tree
    }

    /// The unit's code, with names in the place of numbers.
    pub fn code(&self) -> &NamedCode
        ensures { result.now ≡ self.now.code }
    {
        &self.code
    }

    /// For each field access, call, `new` and start of the code, in the order in which they stand in
    /// it, the number of its token within the unit, from 1.
    pub fn places(&self) -> &[u32]
        ensures { result.now ≡ self.now.places }
    {
        self.places.as_slice()
    }

    /// The unit's bind findings.
    pub fn bind_findings(&self) -> &[Finding]
        ensures { result.now ≡ self.now.findings }
    {
        self.findings.as_slice()
    }

    /// The names of types that the unit consults, whether there is such a type or not.
    pub fn consulted(&self) -> &[Name]
        ensures { result.now ≡ self.now.consulted }
    {
        self.consulted.as_slice()
    }
}
