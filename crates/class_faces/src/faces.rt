ghost use Rattle.std.specs.Prelude.{◌≡◌, ◌++◌, [], map, codes, IfOk, OnOk};
ghost use Rattle.std.specs.Option.{option_map, option_to_list};
ghost use Rattle.class_faces.specs.Assigned.{Names, block_names};
ghost use Rattle.class_faces.specs.Faces as spec;
ghost use Rattle.class_faces.specs.Faces.{Holds};
ghost use Rattle.class_faces.specs.Keys.{slot_of};

use crate::assigned::put_block;
use crate::face::{FaceTy, FieldFace, MemberFace, ParamFace};
use crate::key::next_key;
use desk_base::{Items, Name, OutOfMemory, Text};
use java_tree::{Block, ClassTree, Field, Init, Lexeme, MemberTree, Mod, ModWord, Param, Sig, Ty};
use std::alloc::Global;
use std::collections::{BTreeMap, BTreeSet};

/// A type as other units see it.
pub fn face_ty(ty: &Ty) -> Result<FaceTy, OutOfMemory>
    ensures { IfOk result (λ face. face ≡ spec.face_ty ty.now) }
{
    match ty {
        Ty::Int(_) => Ok(FaceTy::Int),
        Ty::Boolean(_) => Ok(FaceTy::Bool),
        Ty::Named(word) => Ok(FaceTy::Named(word.text.clone()?)),
    }
}

/// Whether the modifiers have the word `static`.
pub fn is_static(mods: &[Mod]) -> bool
    ensures { result ≡ spec.is_static mods.now }
{
    mods.iter()
        .any(|word| matches!(word, Mod::Word(ModWord::Static, _)))
}

fn is_final(mods: &[Mod]) -> bool
    ensures { result ≡ spec.is_final mods.now }
{
    mods.iter()
        .any(|word| matches!(word, Mod::Word(ModWord::Final, _)))
}

fn is_object(ty: &Ty) -> bool
    ensures { result ≡ spec.is_object ty.now }
{
    match ty {
        Ty::Int(_) => false,
        Ty::Boolean(_) => false,
        Ty::Named(word) => word.text.as_slice() == b"Object".as_slice(),
    }
}

fn is_fresh(init: &Option<Init>) -> bool
    ensures { result ≡ spec.is_fresh init.now }
{
    matches!(init, Some(Init::NewObject(_)))
}

fn field_face(field: &Field) -> Result<FieldFace, OutOfMemory>
    ensures { IfOk result (λ face. face ≡ spec.field_face field.now) }
{
    let is_final = is_final(field.mods.as_slice());
    Ok(FieldFace {
        name: field.name.text.clone()?,
        ty: face_ty(&field.ty)?,
        is_static: is_static(field.mods.as_slice()),
        is_final,
        final_init: is_final && field.init.is_some(),
        lock_form: is_final && is_object(&field.ty) && is_fresh(&field.init),
    })
}

/// The fields of a class, in written order.
pub fn field_faces(alloc: Global, class: &ClassTree) -> Result<Items<FieldFace>, OutOfMemory>
    ensures { IfOk result (λ faces. faces ≡ spec.field_faces class.now) }
{
    let mut faces = Items::new(alloc);
    for member in class.members.as_slice() {
        if let MemberTree::Field(field) = member {
            faces.push(field_face(field)?)?;
        }
    }
    Ok(faces)
}

// The names that a body assigns to.
fn assigned(alloc: Global, body: &Block) -> Result<BTreeSet<Name>, OutOfMemory>
    ensures { IfOk result (λ names. Holds names (block_names body.now)) }
{
    let mut names = BTreeSet::new(alloc);
    put_block(&mut names, body)?;
    Ok(names)
}

fn param_face(assigned: &BTreeSet<Name>, param: &Param) -> Result<ParamFace, OutOfMemory>
    ensures { IfOk result (λ face. (names : Names) → Holds assigned.now names → face ≡ spec.param_face names param.now) }
{
    Ok(ParamFace {
        name: param.name.text.clone()?,
        ty: face_ty(&param.ty)?,
        effectively_final: !assigned.contains(&param.name.text),
    })
}

fn param_faces(
    alloc: Global,
    assigned: &BTreeSet<Name>,
    params: &[Param],
) -> Result<Items<ParamFace>, OutOfMemory>
    ensures { IfOk result (λ faces. (names : Names) → Holds assigned.now names → faces ≡ map (spec.param_face names) params.now) }
{
    let mut faces = Items::new(alloc);
    for param in params {
        faces.push(param_face(assigned, param)?)?;
    }
    Ok(faces)
}

fn result_face(result_type: &Option<Ty>) -> Result<Option<FaceTy>, OutOfMemory>
    ensures { IfOk result (λ face. face ≡ option_map spec.face_ty result_type.now) }
{
    match result_type {
        Some(ty) => Ok(Some(face_ty(ty)?)),
        None => Ok(None),
    }
}

fn main_face(word: &Lexeme) -> Result<ParamFace, OutOfMemory>
    ensures { IfOk result (λ face. face ≡ spec.main_face word.now) }
{
    Ok(ParamFace {
        name: word.text.clone()?,
        ty: FaceTy::Args,
        effectively_final: true,
    })
}

// A member with a body or without one, under its key.
fn member_face(
    alloc: Global,
    key: Text,
    member: &MemberTree,
) -> Result<Option<MemberFace>, OutOfMemory>
    ensures { IfOk result (λ face. face ≡ spec.face_of key member.now) }
{
    match member {
        MemberTree::Field(_) => Ok(None),
        MemberTree::Method(method) => {
            let assigned = assigned(alloc, &method.body)?;
            Ok(Some(MemberFace {
                key,
                params: param_faces(alloc, &assigned, method.params.as_slice())?,
                result: result_face(&method.result)?,
                is_static: is_static(method.mods.as_slice()),
            }))
        }
        MemberTree::Sig(sig) => sig_face(alloc, key, sig),
        MemberTree::Ctor(ctor) => {
            let assigned = assigned(alloc, &ctor.body)?;
            Ok(Some(MemberFace {
                key,
                params: param_faces(alloc, &assigned, ctor.params.as_slice())?,
                result: None,
                is_static: false,
            }))
        }
        MemberTree::Main(main) => {
            let mut params = Items::new(alloc);
            params.push(main_face(&main.param)?)?;
            Ok(Some(MemberFace {
                key,
                params,
                result: None,
                is_static: true,
            }))
        }
    }
}

fn sig_face(alloc: Global, key: Text, sig: &Sig) -> Result<Option<MemberFace>, OutOfMemory>
    ensures { IfOk result (λ face. face ≡ spec.sig_face key sig.now) }
{
    let assigned = BTreeSet::new(alloc);
    Ok(Some(MemberFace {
        key,
        params: param_faces(alloc, &assigned, sig.params.as_slice())?,
        result: result_face(&sig.result)?,
        is_static: is_static(sig.mods.as_slice()),
    }))
}

fn put_face(faces: &mut Items<MemberFace>, face: Option<MemberFace>) -> Result<(), OutOfMemory>
    ensures { OnOk result (faces.new ≡ faces.old ++ option_to_list face) }
{
    match face {
        Some(face) => Ok(faces.push(face)?),
        None => Ok(()),
    }
}

/// The methods, interface methods, constructors and mains of a class, in written order.
pub fn member_faces(alloc: Global, class: &ClassTree) -> Result<Items<MemberFace>, OutOfMemory>
    ensures { IfOk result (λ faces. faces ≡ spec.member_faces class.now) }
{
    let mut counts = BTreeMap::new(alloc);
    let mut faces = Items::new(alloc);
    for member in class.members.as_slice() {
        let key = next_key(alloc, &mut counts, class.name.text.as_slice(), member)?;
        let face = member_face(alloc, key, member)?;
        put_face(&mut faces, face)?;
    }
    Ok(faces)
}

/// The parameters that names in a member's promises mean. That of a `main` isn't one.
pub fn named_params(alloc: Global, member: &MemberTree) -> Result<Items<ParamFace>, OutOfMemory>
    ensures { IfOk result (λ faces. faces ≡ spec.named_params member.now) }
{
    match member {
        MemberTree::Field(_) => Ok(Items::new(alloc)),
        MemberTree::Method(method) => {
            let assigned = assigned(alloc, &method.body)?;
            param_faces(alloc, &assigned, method.params.as_slice())
        }
        MemberTree::Sig(sig) => {
            let assigned = BTreeSet::new(alloc);
            param_faces(alloc, &assigned, sig.params.as_slice())
        }
        MemberTree::Ctor(ctor) => {
            let assigned = assigned(alloc, &ctor.body)?;
            param_faces(alloc, &assigned, ctor.params.as_slice())
        }
        MemberTree::Main(_) => Ok(Items::new(alloc)),
    }
}
