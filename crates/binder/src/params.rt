ghost use Rattle.std.specs.Prelude.{◌≡◌, ◌+◌, ◌++◌, length, map, IfOk, OnOk};
ghost use Rattle.std.specs.Option.{option_copied};
ghost use Rattle.class_faces.specs.Faces.{is_final as has_final};
ghost use Rattle.tree_places.specs.Numbers.{number_of};
ghost use Rattle.views.specs.Face.{face};
ghost use Rattle.unit_rules.specs.Shown.{types_shown};
ghost use Rattle.binder.specs.Params as spec;

use bound_tree::{ValueType, Variable};
use class_faces::{FaceTy, face_ty};
use desk_base::{Items, OutOfMemory};
use expression_binding::{Ground, Places, type_of};
use java_tree::{Mod, ModWord, Param, Ty};
use name_rules::{Entry, Note, Scope, Variable as Local, put_finding_if};
use result_records::FindingCode;
use statement_binding::put_declared;
use std::alloc::Global;
use unit_rules::ViewTypes;

/// The type of a value of a declared type.
pub(crate) fn value_type(ty: &Ty) -> Result<ValueType, OutOfMemory>
    ensures { IfOk result (λ made. made ≡ spec.value_type ty.now) }
{
    let face = face_ty(ty)?;
    type_of(&face)
}

/// The type of a result.
pub(crate) fn result_type(ty: Option<&Ty>) -> Result<Option<ValueType>, OutOfMemory>
    ensures { IfOk result (λ made. made ≡ spec.result_type (option_copied ty.entry)) }
{
    match ty {
        Some(ty) => Ok(Some(value_type(ty)?)),
        None => Ok(None),
    }
}

/// The same as it is declared.
pub(crate) fn result_face(ty: Option<&Ty>) -> Result<Option<FaceTy>, OutOfMemory>
    ensures { IfOk result (λ face. face ≡ spec.result_face (option_copied ty.entry)) }
{
    match ty {
        Some(ty) => Ok(Some(face_ty(ty)?)),
        None => Ok(None),
    }
}

/// Puts what is found and consulted of the type of a result.
pub(crate) fn put_result(
    site: &Ground<'_, ViewTypes<'_>>,
    ty: Option<&Ty>,
    notes: &mut Items<Note>,
) -> Result<(), OutOfMemory>
    ensures { OnOk result (notes.new ≡ notes.old ++ spec.result_notes (types_shown (face site.now.types.now)) (number_of site.now.places.now) (option_copied ty.entry)) }
{
    match ty {
        Some(ty) => put_declared(site, ty, notes),
        None => Ok(()),
    }
}

fn variable(places: &Places<'_>, param: &Param) -> Result<Variable, OutOfMemory>
    ensures { IfOk result (λ made. made ≡ spec.variable_of (number_of places.now) param.now) }
{
    Ok(Variable {
        at: places.place(param.name.span),
        name: param.name.text.clone()?,
        ty: value_type(&param.ty)?,
    })
}

/// Parameters with the numbers of their tokens, and their types.
pub(crate) fn variables(
    alloc: Global,
    places: &Places<'_>,
    params: &[Param],
) -> Result<Items<Variable>, OutOfMemory>
    ensures { IfOk result (λ made. made ≡ map (spec.variable_of (number_of places.now)) params.now) }
{
    let mut made = Items::new(alloc);
    for param in params {
        made.push(variable(places, param)?)?;
    }
    Ok(made)
}

fn is_final(mods: &[Mod]) -> bool
    ensures { result ≡ has_final mods.now }
{
    mods.iter()
        .any(|word| matches!(word, Mod::Word(ModWord::Final, _)))
}

fn entry(number: u32, param: &Param) -> Result<Entry, OutOfMemory>
    ensures { IfOk result (λ made. made ≡ spec.param_entry number param.now) }
{
    let name = param.name.text.clone()?;
    Ok(Entry {
        name,
        variable: Some(Local {
            number,
            ty: face_ty(&param.ty)?,
            is_final: is_final(param.mods.as_slice()),
        }),
    })
}

fn put_param(
    site: &Ground<'_, ViewTypes<'_>>,
    scope: &Scope,
    param: &Param,
    notes: &mut Items<Note>,
) -> Result<(), OutOfMemory>
    ensures { OnOk result (notes.new ≡ notes.old ++ spec.param_notes (types_shown (face site.now.types.now)) (number_of site.now.places.now) scope.now param.now) }
{
    put_declared(site, &param.ty, notes)?;
    let repeated = scope.has(&param.name.text);
    let at = site.places.place(param.name.span);
    put_finding_if(notes, repeated, FindingCode::RepeatedLocal, at)
}

fn number_behind(number: u32) -> Result<u32, OutOfMemory>
    ensures { IfOk result (λ next. next ≡ number + 1) }
{
    match number.checked_add(1) {
        Some(next) => Ok(next),
        None => Err(OutOfMemory),
    }
}

/// Puts parameters into the scope, the first as the local of a number, and what is found and consulted
/// of them. It answers the number of the next local. More locals than can be numbered are told as want
/// of memory.
pub(crate) fn put_params(
    site: &Ground<'_, ViewTypes<'_>>,
    first: u32,
    params: &[Param],
    scope: &mut Scope,
    notes: &mut Items<Note>,
) -> Result<u32, OutOfMemory>
    ensures next { IfOk result (λ next. next ≡ first + length params.now) }
    ensures scope { OnOk result (scope.new ≡ spec.params_scope first scope.old params.now) }
    ensures notes { OnOk result (notes.new ≡ notes.old ++ spec.params_notes (types_shown (face site.now.types.now)) (number_of site.now.places.now) first scope.old params.now) }
{
    let mut number = first;
    for param in params {
        put_param(site, &*scope, param, notes)?;
        scope.put(entry(number, param)?)?;
        number = number_behind(number)?;
    }
    Ok(number)
}
