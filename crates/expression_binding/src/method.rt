ghost use Rattle.std.specs.Prelude.{◌≡◌, ◌++◌, [], IfOk, OnOk, Some};
ghost use Rattle.std.specs.Option.{option_copied};
ghost use Rattle.name_rules.specs.Notes.{consults_params};
ghost use Rattle.expression_binding.specs.Methods as spec;

use crate::grounds::Ground;
use bound_tree::MemberName;
use class_faces::{FaceTy, MemberFace, ParamFace};
use desk_base::{Items, Name, OutOfMemory};
use name_rules::{Note, TypeTable, is_class, is_object, is_runnable, put_call, put_name};
use std::alloc::Global;

/// A method, an interface's method or a main, with the type by which it was found.
#[derive(Drop)]
pub(crate) struct NamedMethod<'t> {
    pub named: MemberName,
    pub params: &'t [ParamFace],
    pub result: Option<&'t FaceTy>,
    pub is_static: bool,
}

fn member_name(class: &Name, name: &Name, has_result: bool) -> Result<MemberName, OutOfMemory>
    ensures { IfOk result (λ made. made ≡ spec.member_name class.now name.now has_result) }
{
    let class = class.clone()?;
    Ok(MemberName {
        class,
        name: name.clone()?,
        has_result,
    })
}

fn is_run(class: &Name, name: &Name, count: usize) -> bool
    ensures { result ≡ spec.is_run class.now name.now count }
{
    is_runnable(class.as_slice()) && name.as_slice() == b"run".as_slice() && count == 0
}

/// The one method of Runnable, which stands in no file.
fn run_method<'t>(class: &Name, name: &Name) -> Result<NamedMethod<'t>, OutOfMemory>
    ensures { IfOk result (λ made. spec.shown_method made ≡ spec.run_method class.now name.now) }
{
    Ok(NamedMethod {
        named: member_name(class, name, false)?,
        params: &[],
        result: None,
        is_static: false,
    })
}

fn named_method<'t>(
    class: &Name,
    name: &Name,
    member: &'t MemberFace,
) -> Result<NamedMethod<'t>, OutOfMemory>
    ensures { IfOk result (λ made. spec.shown_method made ≡ spec.named_method class.now name.now member.now) }
{
    Ok(NamedMethod {
        named: member_name(class, name, member.result.is_some())?,
        params: member.params.as_slice(),
        result: member.result.as_ref(),
        is_static: member.is_static,
    })
}

/// The first method, interface's method or main of a type with the name and so many parameters.
pub(crate) fn method_in<'t, T: TypeTable>(
    types: &'t T,
    alloc: Global,
    class: &Name,
    name: &Name,
    count: usize,
) -> Result<Option<NamedMethod<'t>>, OutOfMemory>
    ensures { IfOk result (λ found. spec.shown_found found ≡ spec.method_in (T.types types.now) class.now name.now count) }
{
    if is_run(class, name, count) {
        return Ok(Some(run_method(class, name)?));
    }
    match types.method(alloc, class, name, count)? {
        Some(member) => Ok(Some(named_method(class, name, member)?)),
        None => Ok(None),
    }
}

fn method_named<'t, T: TypeTable>(
    types: &'t T,
    alloc: Global,
    class: Option<&Name>,
    name: &Name,
    count: usize,
) -> Result<Option<NamedMethod<'t>>, OutOfMemory>
    ensures { IfOk result (λ found. spec.shown_found found ≡ spec.method_named (T.types types.now) (option_copied class.entry) name.now count) }
{
    match class {
        Some(class) => method_in(types, alloc, class, name, count),
        None => Ok(None),
    }
}

/// The types of the parameters, which are the places of the arguments.
pub(crate) fn method_params<'t>(found: &Option<NamedMethod<'t>>) -> &'t [ParamFace]
    ensures { result.now ≡ spec.method_params (spec.shown_found found.now) }
{
    match found {
        Some(method) => method.params,
        None => &[],
    }
}

fn put_method(
    notes: &mut Items<Note>,
    found: &Option<NamedMethod<'_>>,
    count: usize,
) -> Result<(), OutOfMemory>
    ensures { OnOk result (notes.new ≡ notes.old ++ spec.method_notes count (spec.shown_found found.now)) }
{
    match found {
        Some(method) => {
            let name = method.named.name.clone()?;
            put_call(
                notes,
                &method.named.class,
                name,
                count,
                method.params,
                method.result,
            )
        }
        None => Ok(()),
    }
}

/// The method that a call names, if there is one; it is put.
pub(crate) fn called<'t, T: TypeTable>(
    site: &Ground<'t, T>,
    class: Option<&Name>,
    name: &Name,
    count: usize,
    notes: &mut Items<Note>,
) -> Result<Option<NamedMethod<'t>>, OutOfMemory>
    ensures found { IfOk result (λ found. spec.shown_found found ≡ spec.method_named (T.types site.now.types.now) (option_copied class.entry) name.now count) }
    ensures notes { OnOk result (notes.new ≡ notes.old ++ spec.method_notes count (spec.method_named (T.types site.now.types.now) (option_copied class.entry) name.now count)) }
{
    let found = method_named(site.types, site.alloc, class, name, count)?;
    put_method(notes, &found, count)?;
    Ok(found)
}

// ---- `new`

/// The types of the constructor's parameters.
pub(crate) fn maker_params(maker: Option<&MemberFace>) -> &[ParamFace]
    ensures { result.now ≡ spec.maker_params (option_copied maker.entry) }
{
    match maker {
        Some(member) => member.params.as_slice(),
        None => &[],
    }
}

fn is_makeable<T: TypeTable>(types: &T, class: &Name) -> bool
    ensures { result ≡ spec.is_makeable (T.types types.now) class.now }
{
    is_object(class.as_slice()) || is_class(types, class)
}

/// Whether a class, or Object, is made with so many arguments.
pub(crate) fn is_made<T: TypeTable>(types: &T, class: &Name, count: usize) -> bool
    ensures { result ≡ spec.is_made (T.types types.now) class.now count }
{
    is_makeable(types, class) && maker_params(types.constructor(class)).len() == count
}

fn made_by<'t, T: TypeTable>(types: &'t T, class: &Name, count: usize) -> Option<&'t MemberFace>
    ensures { option_copied result ≡ spec.made_by (T.types types.now) class.now count }
{
    if is_made(types, class, count) {
        types.constructor(class)
    } else {
        None
    }
}

fn put_maker(
    notes: &mut Items<Note>,
    alloc: Global,
    class: &Name,
    count: usize,
    maker: Option<&MemberFace>,
) -> Result<(), OutOfMemory>
    ensures { OnOk result (notes.new ≡ notes.old ++ spec.made_notes class.now count (option_copied maker.entry)) }
{
    put_name(notes, class)?;
    let name = Name::from_slice(alloc, b"new")?;
    put_call(notes, class, name, count, maker_params(maker), None)
}

/// The constructor that a `new` calls, if it calls one; the class and a constructor with so many
/// parameters are put.
pub(crate) fn made<'t, T: TypeTable>(
    site: &Ground<'t, T>,
    class: &Name,
    count: usize,
    notes: &mut Items<Note>,
) -> Result<Option<&'t MemberFace>, OutOfMemory>
    ensures found { IfOk result (λ found. option_copied found ≡ spec.made_by (T.types site.now.types.now) class.now count) }
    ensures notes { OnOk result (notes.new ≡ notes.old ++ spec.made_notes class.now count (spec.made_by (T.types site.now.types.now) class.now count)) }
{
    let found = made_by(site.types, class, count);
    put_maker(notes, site.alloc, class, count, found)?;
    Ok(found)
}
