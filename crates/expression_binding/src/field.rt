ghost use Rattle.std.specs.Prelude.{◌≡◌, ◌++◌, IfOk, OnOk, Some, None};
ghost use Rattle.std.specs.Option.{option_copied};
ghost use Rattle.bound_tree.specs.Tree as t;
ghost use Rattle.bound_tree.specs.Reading.{term_of};
ghost use Rattle.expression_binding.specs.Fields as spec;
ghost use Rattle.expression_binding.specs.Bound as bound;
ghost use Rattle.expression_binding.specs.Before.{shown_before};

use crate::before::{Before, class_before, first_of, is_lost, is_misuse};
use crate::grounds::Ground;
use crate::name::{this_of, unknown_name};
use crate::stamp::{faulty, used};
use bound_tree::{Expr, FieldName, Stamp};
use class_faces::{FaceTy, FieldFace};
use desk_base::{Boxed, Items, Name, OutOfMemory};
use name_rules::{Note, TypeTable, Use, put_finding_if, put_type, put_use, use_of};
use result_records::FindingCode;
use std::alloc::Global;

/// A field that is named, with the type whose it is.
#[derive(Drop)]
pub(crate) struct NamedField<'t> {
    pub named: FieldName,
    pub ty: &'t FaceTy,
    pub is_static: bool,
}

fn field_name(class: &Name, field: &FieldFace) -> Result<FieldName, OutOfMemory>
    ensures { IfOk result (λ made. made ≡ spec.field_name class.now field.now) }
{
    let class = class.clone()?;
    Ok(FieldName {
        class,
        name: field.name.clone()?,
        is_final: field.is_final,
        is_lock: field.lock_form,
    })
}

fn field_in<'t, T: TypeTable>(
    types: &'t T,
    class: &Name,
    name: &Name,
) -> Result<Option<NamedField<'t>>, OutOfMemory>
    ensures { IfOk result (λ found. spec.shown_found found ≡ spec.field_named (T.types types.now) (Some class.now) name.now) }
{
    match types.field(class, name) {
        Some(field) => Ok(Some(NamedField {
            named: field_name(class, field)?,
            ty: &field.ty,
            is_static: field.is_static,
        })),
        None => Ok(None),
    }
}

/// The first field of a name; nothing but an object or a type has one.
pub(crate) fn field_named<'t, T: TypeTable>(
    types: &'t T,
    class: Option<&Name>,
    name: &Name,
) -> Result<Option<NamedField<'t>>, OutOfMemory>
    ensures { IfOk result (λ found. spec.shown_found found ≡ spec.field_named (T.types types.now) (option_copied class.entry) name.now) }
{
    match class {
        Some(class) => field_in(types, class, name),
        None => Ok(None),
    }
}

/// Puts the type of a field that is got, and the finding of its use.
fn put_field_use(
    notes: &mut Items<Note>,
    at: u32,
    ty: &FaceTy,
    found: Use,
) -> Result<(), OutOfMemory>
    ensures { OnOk result (notes.new ≡ notes.old ++ bound.field_notes at ty.now found) }
{
    put_type(notes, ty)?;
    put_use(notes, at, found)?;
    Ok(())
}

// ---- a bare name

#[tactic(auto, using(bound_tree::proofs::Readings::readings))]
fn own_instance(
    alloc: Global,
    class: &Name,
    at: u32,
    field: &FieldFace,
    stamp: Stamp,
) -> Result<Expr, OutOfMemory>
    ensures { IfOk result (λ made. term_of made ≡ t.Field stamp (bound.this_of class.now at) (spec.field_name class.now field.now)) }
{
    let this = Boxed::new(alloc, this_of(class, at)?)?;
    Ok(Expr::Field(stamp, this, field_name(class, field)?))
}

#[tactic(auto, using(bound_tree::proofs::Readings::readings))]
fn own_field_term<T: TypeTable>(
    site: &Ground<'_, T>,
    at: u32,
    field: &FieldFace,
    stamp: Stamp,
) -> Result<Expr, OutOfMemory>
    ensures { IfOk result (λ made. term_of made ≡ bound.own_field_term (bound.grounded (T.types site.now.types.now) site.now.class.now site.now.is_static) at field.now stamp) }
{
    if field.is_static {
        return Ok(Expr::Static(stamp, field_name(site.class, field)?));
    }
    if site.is_static {
        return unknown_name(site.alloc, stamp, &field.name);
    }
    own_instance(site.alloc, site.class, at, field, stamp)
}

/// Whether an instance member is named in a static place.
pub(crate) fn is_out_of_place(in_static: bool, is_static: bool) -> bool
    ensures { result ≡ bound.is_out_of_place in_static is_static }
{
    in_static && !is_static
}

/// A bare name of a field of the own class.
pub(crate) fn own_field<T: TypeTable>(
    site: &Ground<'_, T>,
    at: u32,
    field: &FieldFace,
    notes: &mut Items<Note>,
) -> Result<Expr, OutOfMemory>
    ensures term { IfOk result (λ made. term_of made ≡ (bound.own_field (bound.grounded (T.types site.now.types.now) site.now.class.now site.now.is_static) at field.now).term) }
    ensures notes { OnOk result (notes.new ≡ notes.old ++ (bound.own_field (bound.grounded (T.types site.now.types.now) site.now.class.now site.now.is_static) at field.now).notes) }
{
    let misused = is_out_of_place(site.is_static, field.is_static);
    let found = use_of(site.types, misused, Some(&field.ty));
    put_field_use(notes, at, &field.ty, found)?;
    let stamp = used(at, at, Some(&field.ty), found)?;
    own_field_term(site, at, field, stamp)
}

// ---- behind a dot

#[tactic(auto, using(bound_tree::proofs::Readings::readings))]
fn value_field_term(
    alloc: Global,
    value: Expr,
    name: &Name,
    field: NamedField<'_>,
    stamp: Stamp,
) -> Result<Expr, OutOfMemory>
    ensures { IfOk result (λ made. term_of made ≡ bound.value_field_term (term_of value) name.now (spec.shown_field field.entry) stamp) }
{
    let base = Boxed::new(alloc, value)?;
    if field.is_static {
        return Ok(Expr::UnknownField(stamp, base, name.clone()?));
    }
    Ok(Expr::Field(stamp, base, field.named))
}

#[tactic(auto, using(bound_tree::proofs::Readings::readings))]
fn type_field_term(
    alloc: Global,
    name: &Name,
    field: NamedField<'_>,
    stamp: Stamp,
) -> Result<Expr, OutOfMemory>
    ensures { IfOk result (λ made. term_of made ≡ bound.type_field_term name.now (spec.shown_field field.entry) stamp) }
{
    if field.is_static {
        return Ok(Expr::Static(stamp, field.named));
    }
    unknown_name(alloc, stamp, name)
}

fn field_term(
    alloc: Global,
    before: Before<'_>,
    name: &Name,
    field: NamedField<'_>,
    stamp: Stamp,
) -> Result<Expr, OutOfMemory>
    ensures { IfOk result (λ made. term_of made ≡ bound.field_term (shown_before before.entry) name.now (spec.shown_field field.entry) stamp) }
{
    match before {
        Before::OnType(_, _) => type_field_term(alloc, name, field, stamp),
        Before::OnValue(value) => value_field_term(alloc, value, name, field, stamp),
    }
}

fn field_by<T: TypeTable>(
    site: &Ground<'_, T>,
    before: Before<'_>,
    at: u32,
    name: &Name,
    field: NamedField<'_>,
    notes: &mut Items<Note>,
) -> Result<Expr, OutOfMemory>
    ensures term { IfOk result (λ made. term_of made ≡ bound.field_made (T.types site.now.types.now) (shown_before before.entry) at name.now (Some (spec.shown_field field.entry))) }
    ensures notes { OnOk result (notes.new ≡ notes.old ++ bound.field_told (T.types site.now.types.now) (shown_before before.entry) at (Some (spec.shown_field field.entry))) }
{
    let misused = is_misuse(&before, field.is_static);
    let found = use_of(site.types, misused, Some(field.ty));
    put_field_use(notes, at, field.ty, found)?;
    let stamp = used(at, first_of(&before), Some(field.ty), found)?;
    field_term(site.alloc, before, name, field, stamp)
}

#[tactic(auto, using(bound_tree::proofs::Readings::readings))]
fn no_field_term(
    alloc: Global,
    before: Before<'_>,
    name: &Name,
    stamp: Stamp,
) -> Result<Expr, OutOfMemory>
    ensures { IfOk result (λ made. term_of made ≡ bound.no_field_term (shown_before before.entry) name.now stamp) }
{
    match before {
        Before::OnType(_, _) => unknown_name(alloc, stamp, name),
        Before::OnValue(value) => {
            let base = Boxed::new(alloc, value)?;
            Ok(Expr::UnknownField(stamp, base, name.clone()?))
        }
    }
}

fn no_field<T: TypeTable>(
    site: &Ground<'_, T>,
    before: Before<'_>,
    at: u32,
    name: &Name,
    notes: &mut Items<Note>,
) -> Result<Expr, OutOfMemory>
    ensures term { IfOk result (λ made. term_of made ≡ bound.field_made (T.types site.now.types.now) (shown_before before.entry) at name.now None) }
    ensures notes { OnOk result (notes.new ≡ notes.old ++ bound.field_told (T.types site.now.types.now) (shown_before before.entry) at None) }
{
    let is_new = !is_lost(&before);
    put_finding_if(notes, is_new, FindingCode::UnknownMember, at)?;
    let stamp = faulty(at, first_of(&before));
    no_field_term(site.alloc, before, name, stamp)
}

fn field_behind<T: TypeTable>(
    site: &Ground<'_, T>,
    before: Before<'_>,
    at: u32,
    name: &Name,
    found: Option<NamedField<'_>>,
    notes: &mut Items<Note>,
) -> Result<Expr, OutOfMemory>
    ensures term { IfOk result (λ made. term_of made ≡ bound.field_made (T.types site.now.types.now) (shown_before before.entry) at name.now (spec.shown_found found.entry)) }
    ensures notes { OnOk result (notes.new ≡ notes.old ++ bound.field_told (T.types site.now.types.now) (shown_before before.entry) at (spec.shown_found found.entry)) }
{
    match found {
        Some(field) => field_by(site, before, at, name, field, notes),
        None => no_field(site, before, at, name, notes),
    }
}

/// A name behind a dot.
pub(crate) fn select<T: TypeTable>(
    site: &Ground<'_, T>,
    before: Before<'_>,
    at: u32,
    name: &Name,
    notes: &mut Items<Note>,
) -> Result<Expr, OutOfMemory>
    ensures term { IfOk result (λ made. term_of made ≡ bound.select_term (T.types site.now.types.now) (shown_before before.entry) at name.now) }
    ensures notes { OnOk result (notes.new ≡ notes.old ++ bound.select_notes (T.types site.now.types.now) (shown_before before.entry) at name.now) }
{
    let found = field_named(site.types, class_before(&before), name)?;
    field_behind(site, before, at, name, found, notes)
}
