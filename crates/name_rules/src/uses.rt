ghost use Rattle.std.specs.Prelude.{◌≡◌, ◌++◌, OnOk, Some};
ghost use Rattle.std.specs.Option.{option_copied};
ghost use Rattle.name_rules.specs.Places as spec;

use crate::note::{Note, put_finding};
use crate::types::{TypeTable, is_known};
use class_faces::FaceTy;
use desk_base::{Items, OutOfMemory};
use result_records::FindingCode;

/// A use of what has a declared type, or of a method without result: whether that type is there, and
/// whether it is an instance member in a static place or a static one through a reference.
#[derive(Clone, Copy)]
pub enum Use {
    Unjudged,
    Misused,
    Used,
}

fn judged(misused: bool) -> Use
    ensures { result ≡ spec.judged misused }
{
    if misused { Use::Misused } else { Use::Used }
}

fn type_judged<T: TypeTable>(types: &T, misused: bool, ty: &FaceTy) -> Use
    ensures { result ≡ spec.use_of (T.types types.now) misused (Some ty.now) }
{
    if is_known(types, ty) {
        judged(misused)
    } else {
        Use::Unjudged
    }
}

/// How what has a declared type, or a method without result, is used, by whether its static place or
/// its reference misuses it.
pub fn use_of<T: TypeTable>(types: &T, misused: bool, ty: Option<&FaceTy>) -> Use
    ensures { result ≡ spec.use_of (T.types types.now) misused (option_copied ty.entry) }
{
    match ty {
        Some(ty) => type_judged(types, misused, ty),
        None => judged(misused),
    }
}

/// Puts the bind finding of a use, where it has one.
pub fn put_use(notes: &mut Items<Note>, at: u32, found: Use) -> Result<(), OutOfMemory>
    ensures { OnOk result (notes.new ≡ notes.old ++ spec.use_notes at found) }
{
    match found {
        Use::Unjudged => Ok(()),
        Use::Misused => put_finding(notes, FindingCode::StaticUse, at),
        Use::Used => Ok(()),
    }
}
