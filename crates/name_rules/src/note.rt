ghost use Rattle.std.specs.Prelude.{◌≡◌, ◌++◌, [], ◌∷◌, OnOk, drop};
ghost use Rattle.std.specs.Option.{option_copied};
ghost use Rattle.name_rules.specs.Notes as spec;

use class_faces::{FaceTy, ParamFace};
use desk_base::{Items, Name, OutOfMemory};
use result_records::FindingCode;

/// What binding tells of a unit on its way: a bind finding with the number of its token, a type name
/// that is consulted, or a member that is called, by its class, its name (`new` for a constructor) and
/// the number of arguments, whose promises are consulted too.
#[derive(Drop)]
pub enum Note {
    Finding(FindingCode, u32),
    Names(Name),
    Calls(Name, Name, usize),
}

/// Puts a bind finding at a token.
pub fn put_finding(notes: &mut Items<Note>, code: FindingCode, at: u32) -> Result<(), OutOfMemory>
    ensures { OnOk result (notes.new ≡ notes.old ++ Note.Finding code at ∷ []) }
{
    notes.push(Note::Finding(code, at))?;
    Ok(())
}

/// Puts a bind finding at a token where something holds.
pub fn put_finding_if(
    notes: &mut Items<Note>,
    found: bool,
    code: FindingCode,
    at: u32,
) -> Result<(), OutOfMemory>
    ensures { OnOk result (notes.new ≡ notes.old ++ spec.found_if found code at) }
{
    if found {
        return put_finding(notes, code, at);
    }
    Ok(())
}

/// Puts a type name that is consulted.
pub fn put_name(notes: &mut Items<Note>, name: &Name) -> Result<(), OutOfMemory>
    ensures { OnOk result (notes.new ≡ notes.old ++ Note.Names name.now ∷ []) }
{
    notes.push(Note::Names(name.clone()?))?;
    Ok(())
}

/// Puts a declared type that is named, called, passed to or got.
pub fn put_type(notes: &mut Items<Note>, ty: &FaceTy) -> Result<(), OutOfMemory>
    ensures { OnOk result (notes.new ≡ notes.old ++ spec.consults ty.now) }
{
    match ty {
        FaceTy::Named(name) => put_name(notes, name),
        FaceTy::Int => Ok(()),
        FaceTy::Bool => Ok(()),
        FaceTy::Args => Ok(()),
    }
}

fn put_given(notes: &mut Items<Note>, given: Option<&FaceTy>) -> Result<(), OutOfMemory>
    ensures { OnOk result (notes.new ≡ notes.old ++ spec.consults_result (option_copied given.entry)) }
{
    match given {
        Some(ty) => put_type(notes, ty),
        None => Ok(()),
    }
}

/// Puts the types of parameters.
pub fn put_params(notes: &mut Items<Note>, params: &[ParamFace]) -> Result<(), OutOfMemory>
    ensures { OnOk result (notes.new ≡ notes.old ++ spec.consults_params params.now) }
{
    for param in params {
        put_type(notes, &param.ty)?;
    }
    Ok(())
}

/// Puts a member that is called with so many arguments, with the types of its result and parameters.
pub fn put_call(
    notes: &mut Items<Note>,
    class: &Name,
    name: Name,
    count: usize,
    params: &[ParamFace],
    given: Option<&FaceTy>,
) -> Result<(), OutOfMemory>
    ensures { OnOk result (notes.new ≡ notes.old ++ spec.calls class.now name count params.now (option_copied given.entry)) }
{
    notes.push(Note::Calls(class.clone()?, name, count))?;
    put_given(notes, given)?;
    put_params(notes, params)?;
    Ok(())
}
