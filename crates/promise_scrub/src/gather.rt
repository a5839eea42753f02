ghost use Rattle.std.specs.Prelude.{◌≡◌, [], false, fold, IfOk, OnOk};
ghost use Rattle.scrub_rules.specs.Facts.{facts_of};
ghost use Rattle.scrub_rules.specs.Target.{kinds_in};
ghost use Rattle.promise_scrub.specs.Found as units;
ghost use Rattle.promise_scrub.specs.Members.{field_static, header_annotations, member_annotations};
ghost use Rattle.promise_scrub.specs.Steps.{kept_of, put_annotation as put_one};
ghost use Rattle.promise_scrub.specs.Surfaces as spec;
ghost use Rattle.promise_scrub.specs.Verdicts.{judged};

use crate::found::Found;
use crate::judge::{Place, put_annotation};
use crate::member::Scoped;
use crate::spread::promises_of;
use crate::unit::Unit;
use class_faces::{is_static, named_params};
use desk_base::{Items, Name, OutOfMemory, Text};
use java_tree::{Lexeme, MemberTree};
use promise_marks::{Mark, member_marks};
use result_records::FindingCode;
use scrub_rules::{Context, Site};
use std::alloc::Global;
use std::collections::BTreeMap;

fn put_header(
    alloc: Global,
    at: &Context<'_>,
    place: &Place<'_>,
    marks: &[Mark],
    codes: &[Option<FindingCode>],
    unit: &mut Unit,
) -> Result<(), OutOfMemory>
    requires spread { place.now.spread ≡ false }
    requires param { place.now.param.now ≡ [] }
    ensures { OnOk result (unit.new ≡ fold (put_one place.now.key.now) unit.old (header_annotations (facts_of at.now) place.now.site marks.now codes.now)) }
{
    for (i, mark) in marks.iter().enumerate() {
        if i >= codes.len() {
            return Ok(());
        }
        put_annotation(
            alloc,
            at,
            place,
            mark.kind.name(),
            codes[i],
            &mark.tree,
            unit,
        )?;
    }
    Ok(())
}

/// The promises of the header, by the codes of its annotations.
pub(crate) fn header_unit(
    alloc: Global,
    at: &Context<'_>,
    key: &Text,
    site: Site,
    marks: &[Mark],
    codes: &[Option<FindingCode>],
) -> Result<Unit, OutOfMemory>
    ensures { IfOk result (λ unit. unit ≡ kept_of key.now (judged (header_annotations (facts_of at.now) site marks.now codes.now))) }
{
    let place = Place {
        key,
        spread: false,
        site,
        param: &[],
    };
    let mut unit = Unit::new(alloc);
    put_header(alloc, at, &place, marks, codes, &mut unit)?;
    Ok(unit)
}

fn field_static(member: &MemberTree) -> bool
    ensures { result ≡ field_static member.now }
{
    match member {
        MemberTree::Field(field) => is_static(field.mods.as_slice()),
        _ => false,
    }
}

/// The annotations of each member, in written order.
pub(crate) fn all_marks(
    alloc: Global,
    members: &[MemberTree],
) -> Result<Items<Items<Mark>>, OutOfMemory>
    ensures { IfOk result (λ marks. spec.AreMemberMarks members.now marks) }
{
    let mut marks = Items::new(alloc);
    for member in members {
        marks.push(member_marks(alloc, member)?)?;
    }
    Ok(marks)
}

/// Puts what was found in a unit.
pub(crate) fn put_unit(found: &mut Found, key: &Text, unit: Unit) -> Result<(), OutOfMemory>
    ensures { OnOk result (found.new ≡ units.found_of key.now unit found.old) }
{
    found.standing.append(unit.standing)?;
    found.aside.append(unit.aside)?;
    if unit.vouched {
        found.vouched.push(key.clone()?)?;
    }
    Ok(())
}

/// What the promises of a class's members are judged by.
#[derive(Clone, Copy)]
pub(crate) struct ClassFacts<'a> {
    pub(crate) class: &'a Name,
    pub(crate) regions: &'a BTreeMap<Name, bool>,
    pub(crate) locks: &'a BTreeMap<Name, bool>,
    pub(crate) scoped: &'a [Scoped],
}

fn put_member(
    alloc: Global,
    facts: &ClassFacts<'_>,
    key: &Text,
    marks: &[Mark],
    member: &MemberTree,
    found: &mut Found,
) -> Result<(), OutOfMemory>
    ensures { OnOk result (found.new ≡ units.found_more found.old (record { key = key.now; annotations = member_annotations (spec.member_facts facts.now.class.now (kinds_in facts.now.regions.now) (kinds_in facts.now.locks.now) member.now) member.now marks.now facts.now.scoped.now })) }
{
    let params = named_params(alloc, member)?;
    let at = Context {
        class: facts.class,
        regions: facts.regions,
        locks: facts.locks,
        field_static: field_static(member),
        params: params.as_slice(),
    };
    let unit = promises_of(alloc, &at, key, member, marks, facts.scoped)?;
    put_unit(found, key, unit)
}

/// Puts what is found in the members, each under its key.
pub(crate) fn put_members(
    alloc: Global,
    facts: &ClassFacts<'_>,
    keys: &[Text],
    marks: &[Items<Mark>],
    members: &[MemberTree],
    found: &mut Found,
) -> Result<(), OutOfMemory>
    ensures { OnOk result (found.new ≡ units.found_in found.old (spec.member_units facts.now.class.now (kinds_in facts.now.regions.now) (kinds_in facts.now.locks.now) facts.now.scoped.now keys.now marks.now members.now)) }
{
    for (i, member) in members.iter().enumerate() {
        if i >= keys.len() || i >= marks.len() {
            return Ok(());
        }
        put_member(alloc, facts, &keys[i], marks[i].as_slice(), member, found)?;
    }
    Ok(())
}

/// The names of words.
pub(crate) fn names_of(alloc: Global, words: &[Lexeme]) -> Result<Items<Name>, OutOfMemory>
    ensures { IfOk result (λ names. names ≡ spec.names_of words.now) }
{
    let mut names = Items::new(alloc);
    for word in words {
        names.push(word.text.clone()?)?;
    }
    Ok(names)
}
