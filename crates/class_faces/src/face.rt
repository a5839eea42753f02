ghost use Rattle.std.specs.Prelude.{◌≡◌, ◌↔◌, IfOk, IsTrue};
ghost use Rattle.class_faces.specs.Same.{same_member, member_decides};
ghost use Rattle.std.specs.Cmp.{decided, partial_equiv_from_equiv};

use desk_base::{Items, Name, OutOfMemory, Text};
use std::alloc::{AllocError, Global};

/// A type as other units see it. `Args` is that of the parameter of a `main`.
#[derive(Debug, PartialEq, Eq, Drop)]
pub enum FaceTy {
    Int,
    Bool,
    Named(Name),
    Args,
}

impl Clone for FaceTy {
    ghost is_clone = { λ ty copy. copy ≡ ty };

    fn clone(&self) -> Result<FaceTy, AllocError> {
        match self {
            FaceTy::Int => Ok(FaceTy::Int),
            FaceTy::Bool => Ok(FaceTy::Bool),
            FaceTy::Named(name) => Ok(FaceTy::Named(name.clone()?)),
            FaceTy::Args => Ok(FaceTy::Args),
        }
    }
}

/// A field. `final_init` says that it is final and has an initializer, `lock_form` that it is a
/// final `Object` with the initializer `new Object()`, as the field of a lock is.
#[derive(Debug, PartialEq, Eq, Drop)]
pub struct FieldFace {
    pub name: Name,
    pub ty: FaceTy,
    pub is_static: bool,
    pub is_final: bool,
    pub final_init: bool,
    pub lock_form: bool,
}

impl Clone for FieldFace {
    ghost is_clone = { λ field copy. copy ≡ field };

    fn clone(&self) -> Result<FieldFace, AllocError> {
        Ok(FieldFace {
            name: self.name.clone()?,
            ty: self.ty.clone()?,
            is_static: self.is_static,
            is_final: self.is_final,
            final_init: self.final_init,
            lock_form: self.lock_form,
        })
    }
}

/// A parameter. It is effectively final where no assignment or step of the body has its bare name
/// as target (JLS 8, 4.12.4).
#[derive(Debug, PartialEq, Eq, Drop)]
pub struct ParamFace {
    pub name: Name,
    pub ty: FaceTy,
    pub effectively_final: bool,
}

impl Clone for ParamFace {
    ghost is_clone = { λ param copy. copy ≡ param };

    fn clone(&self) -> Result<ParamFace, AllocError> {
        Ok(ParamFace {
            name: self.name.clone()?,
            ty: self.ty.clone()?,
            effectively_final: self.effectively_final,
        })
    }
}

/// A method, a method of an interface, a constructor or a `main`, under its unit's key. `result` is
/// `None` for `void` and for a constructor.
#[derive(Debug, Drop)]
pub struct MemberFace {
    pub key: Text,
    pub params: Items<ParamFace>,
    pub result: Option<FaceTy>,
    pub is_static: bool,
}

fn is_same(one: &MemberFace, other: &MemberFace) -> bool
    ensures { result ≡ same_member one.now other.now }
{
    one.key == other.key
        && one.params.as_slice() == other.params.as_slice()
        && one.result == other.result
        && one.is_static == other.is_static
}

impl PartialEq for MemberFace {
    ghost eq = { same_member };

    ghost laws = { partial_equiv_from_equiv (decided same_member member_decides) };

    /// True exactly where the two are equal.
    fn eq(&self, other: &MemberFace) -> bool
        ensures value { result ≡ same_member self.now other.now }
        ensures exact { IsTrue result ↔ (self.now ≡ other.now) }
    {
        is_same(self, other)
    }
}

impl Eq for MemberFace {
    ghost laws = { decided same_member member_decides };
}

fn copied_ty(ty: &Option<FaceTy>) -> Result<Option<FaceTy>, AllocError>
    ensures { IfOk result (λ copy. copy ≡ ty.now) }
{
    match ty {
        Some(ty) => Ok(Some(ty.clone()?)),
        None => Ok(None),
    }
}

impl MemberFace {
    /// A copy. It takes the allocator, since a list doesn't give its own.
    pub fn copied(&self, alloc: Global) -> Result<MemberFace, OutOfMemory>
        ensures { IfOk result (λ copy. copy ≡ self.now) }
    {
        let key = self.key.clone()?;
        let params = Items::from_vec(self.params.as_slice().to_vec(alloc)?);
        Ok(MemberFace {
            key,
            params,
            result: copied_ty(&self.result)?,
            is_static: self.is_static,
        })
    }
}
