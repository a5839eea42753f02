ghost use Rattle.std.specs.Prelude.{◌≡◌, ◌↔◌, IfOk, IsTrue};
ghost use Rattle.std.specs.Cmp.{decided, partial_equiv_from_equiv};
ghost use Rattle.promise_scrub.specs.Same.{same_parts, same_promises, same_surface, surface_decides};

use class_faces::{FieldFace, MemberFace};
use desk_base::{Items, Name, OutOfMemory, PromiseKey, Text};
use java_tree::TypeKind;
use promise_grammar::{PromiseTree, Shared};
use region_tree::RegionDecl;
use result_records::FindingCode;
use std::alloc::{AllocError, Global};

/// A promise that stands, with the content of the annotation that gives it; the promises of one
/// annotation share it.
#[derive(PartialEq, Eq, Drop)]
pub struct Standing {
    pub key: PromiseKey,
    pub tree: Shared<PromiseTree>,
}

/// A promise that was set aside, and the rule that it breaks. Its detail is its number among the
/// promise annotations of its target.
#[derive(PartialEq, Eq, Drop)]
pub struct Aside {
    pub key: PromiseKey,
    pub code: FindingCode,
}

/// An assumption: the class and the member (`name/count`) that it is about, and the assumed promise.
#[derive(PartialEq, Eq, Drop)]
pub struct Assumption {
    pub class: Name,
    pub member: Text,
    pub key: PromiseKey,
    pub tree: Shared<PromiseTree>,
}

/// What a class says to the others. Lists are in written order, what stands at the header first,
/// and spread promises after the written ones of their target.
#[derive(Drop)]
pub struct Surface {
    pub kind: TypeKind,
    pub name: Name,
    pub implements: Items<Name>,
    pub fields: Items<FieldFace>,
    pub members: Items<MemberFace>,
    pub regions: Items<RegionDecl>,
    pub standing: Items<Standing>,
    pub aside: Items<Aside>,
    pub assumptions: Items<Assumption>,
    pub vouched: Items<Text>,
}

fn is_same_in_parts(one: &Surface, other: &Surface) -> bool
    ensures { result ≡ same_parts one.now other.now }
{
    one.kind == other.kind
        && one.name == other.name
        && one.implements.as_slice() == other.implements.as_slice()
        && one.fields.as_slice() == other.fields.as_slice()
        && one.members.as_slice() == other.members.as_slice()
}

fn is_same_in_promises(one: &Surface, other: &Surface) -> bool
    ensures { result ≡ same_promises one.now other.now }
{
    one.regions.as_slice() == other.regions.as_slice()
        && one.standing.as_slice() == other.standing.as_slice()
        && one.aside.as_slice() == other.aside.as_slice()
        && one.assumptions.as_slice() == other.assumptions.as_slice()
        && one.vouched.as_slice() == other.vouched.as_slice()
}

fn is_same(one: &Surface, other: &Surface) -> bool
    ensures { result ≡ same_surface one.now other.now }
{
    is_same_in_parts(one, other) && is_same_in_promises(one, other)
}

impl PartialEq for Surface {
    ghost eq = { same_surface };

    ghost laws = { partial_equiv_from_equiv (decided same_surface surface_decides) };

    /// True exactly where the two are equal, in all their parts.
    fn eq(&self, other: &Surface) -> bool
        ensures value { result ≡ same_surface self.now other.now }
        ensures exact { IsTrue result ↔ (self.now ≡ other.now) }
    {
        is_same(self, other)
    }
}

impl Eq for Surface {
    ghost laws = { decided same_surface surface_decides };
}

fn copied_key(key: &PromiseKey) -> Result<PromiseKey, AllocError>
    ensures { IfOk result (λ copy. copy ≡ key.now) }
{
    Ok(PromiseKey {
        target: key.target.clone()?,
        name: key.name,
        detail: key.detail.clone()?,
    })
}

impl Clone for Standing {
    ghost is_clone = { λ promise copy. copy ≡ promise };

    fn clone(&self) -> Result<Standing, AllocError> {
        Ok(Standing {
            key: copied_key(&self.key)?,
            tree: self.tree.clone()?,
        })
    }
}

impl Clone for Aside {
    ghost is_clone = { λ aside copy. copy ≡ aside };

    fn clone(&self) -> Result<Aside, AllocError> {
        Ok(Aside {
            key: copied_key(&self.key)?,
            code: self.code,
        })
    }
}

impl Clone for Assumption {
    ghost is_clone = { λ assumption copy. copy ≡ assumption };

    fn clone(&self) -> Result<Assumption, AllocError> {
        Ok(Assumption {
            class: self.class.clone()?,
            member: self.member.clone()?,
            key: copied_key(&self.key)?,
            tree: self.tree.clone()?,
        })
    }
}

fn copied_members(alloc: Global, members: &[MemberFace]) -> Result<Items<MemberFace>, OutOfMemory>
    ensures { IfOk result (λ copies. copies ≡ members.now) }
{
    let mut copies = Items::new(alloc);
    for member in members {
        copies.push(member.copied(alloc)?)?;
    }
    Ok(copies)
}

// A copy of a list, whose elements give their own allocator.
fn copied_items<T: Clone>(alloc: Global, items: &[T]) -> Result<Items<T>, OutOfMemory>
    ensures { IfOk result (λ copies. ((x y : T) → T.is_clone x y → y ≡ x) → copies ≡ items.now) }
{
    Ok(Items::from_vec(items.to_vec(alloc)?))
}

impl Surface {
    /// A copy, which shares the contents of promises. It takes the allocator, since a list doesn't
    /// give its own.
    pub fn copied(&self, alloc: Global) -> Result<Surface, OutOfMemory>
        ensures { IfOk result (λ copy. copy ≡ self.now) }
    {
        Ok(Surface {
            kind: self.kind,
            name: self.name.clone()?,
            implements: copied_items(alloc, self.implements.as_slice())?,
            fields: copied_items(alloc, self.fields.as_slice())?,
            members: copied_members(alloc, self.members.as_slice())?,
            regions: copied_items(alloc, self.regions.as_slice())?,
            standing: copied_items(alloc, self.standing.as_slice())?,
            aside: copied_items(alloc, self.aside.as_slice())?,
            assumptions: copied_items(alloc, self.assumptions.as_slice())?,
            vouched: copied_items(alloc, self.vouched.as_slice())?,
        })
    }
}
