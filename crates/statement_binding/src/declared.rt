ghost use Rattle.std.specs.Prelude.{◌≡◌, ℕ, ◌++◌, IfOk, OnOk};
ghost use Rattle.desk_base.specs.declared.span.Span.{Span};
ghost use Rattle.tree_places.specs.Numbers.{number_of};
ghost use Rattle.tree_places.specs.Plain.{plain_lexeme, plain_ty};
ghost use Rattle.statement_binding.specs.DeclaredTypes as spec;

use class_faces::FaceTy;
use desk_base::{Items, OutOfMemory};
use expression_binding::Ground;
use java_tree::{Lexeme, Ty};
use name_rules::{Note, TypeTable, is_known_name, put_finding_if, put_name};
use result_records::FindingCode;

/// A declared type as other units see it.
pub(crate) fn declared(ty: &Ty) -> Result<FaceTy, OutOfMemory>
    ensures { IfOk result (λ made. (number : Span → ℕ) → made ≡ spec.declared (plain_ty number ty.now)) }
{
    match ty {
        Ty::Int(_) => Ok(FaceTy::Int),
        Ty::Boolean(_) => Ok(FaceTy::Bool),
        Ty::Named(word) => Ok(FaceTy::Named(word.text.clone()?)),
    }
}

fn put_type_name<T: TypeTable>(
    site: &Ground<'_, T>,
    word: &Lexeme,
    notes: &mut Items<Note>,
) -> Result<(), OutOfMemory>
    ensures { OnOk result (notes.new ≡ notes.old ++ spec.name_notes (T.types site.now.types.now) (plain_lexeme (number_of site.now.places.now) word.now)) }
{
    put_name(notes, &word.text)?;
    let is_new = !is_known_name(site.types, &word.text);
    let at = site.places.place(word.span);
    put_finding_if(notes, is_new, FindingCode::UnknownType, at)?;
    Ok(())
}

/// Tells that a declared type's name is consulted, and the finding at that name where the type isn't
/// there.
pub fn put_declared<T: TypeTable>(
    site: &Ground<'_, T>,
    ty: &Ty,
    notes: &mut Items<Note>,
) -> Result<(), OutOfMemory>
    ensures { OnOk result (notes.new ≡ notes.old ++ spec.declared_notes (T.types site.now.types.now) (plain_ty (number_of site.now.places.now) ty.now)) }
{
    match ty {
        Ty::Int(_) => Ok(()),
        Ty::Boolean(_) => Ok(()),
        Ty::Named(word) => put_type_name(site, word, notes),
    }
}
