ghost use Rattle.std.specs.Prelude.{◌≡◌};
ghost use Rattle.std.specs.Option.{option_copied};
ghost use Rattle.promise_grammar.specs.declared.tree.PromiseTree.{out-PromiseTree};
ghost use Rattle.scrub_rules.specs.Place as spec;

use class_faces::is_static;
use desk_base::Name;
use java_tree::{MemberTree, Param, Ty, TypeKind};
use promise_grammar::{BorrowedContent, PromiseTree, Shared, UniqueContent};
use result_records::FindingCode;

/// What an annotation stands on: the header of a class or interface, a member, or a parameter.
#[derive(Clone, Copy, Debug, PartialEq, Eq)]
pub enum SiteKind {
    Class,
    Interface,
    Field,
    Method,
    Sig,
    Ctor,
    Main,
    Param,
}

/// The sort of a declared type, `Nothing` where none is declared there.
#[derive(Clone, Copy, Debug, PartialEq, Eq)]
pub enum TypeSort {
    Primitive,
    Object,
    Text,
    Runnable,
    Declared,
    Nothing,
}

/// What an annotation stands on, the declared type of a field or parameter there, and whether there
/// is a `this`.
#[derive(Clone, Copy, Debug, PartialEq, Eq)]
pub struct Site {
    pub kind: SiteKind,
    pub sort: TypeSort,
    pub has_this: bool,
}

fn sort_of_name(name: &Name) -> TypeSort
    ensures { result ≡ spec.sort_of_name name.now }
{
    if name.as_slice() == b"Object".as_slice() {
        TypeSort::Object
    } else if name.as_slice() == b"String".as_slice() {
        TypeSort::Text
    } else if name.as_slice() == b"Runnable".as_slice() {
        TypeSort::Runnable
    } else {
        TypeSort::Declared
    }
}

fn sort_of(ty: &Ty) -> TypeSort
    ensures { result ≡ spec.sort_of ty.now }
{
    match ty {
        Ty::Int(_) => TypeSort::Primitive,
        Ty::Boolean(_) => TypeSort::Primitive,
        Ty::Named(word) => sort_of_name(&word.text),
    }
}

fn made(kind: SiteKind, sort: TypeSort, has_this: bool) -> Site
    ensures { result ≡ spec.made kind sort has_this }
{
    Site {
        kind,
        sort,
        has_this,
    }
}

/// The header of a class or interface.
pub fn header_site(kind: TypeKind) -> Site
    ensures { result ≡ spec.header_site kind }
{
    match kind {
        TypeKind::Class => made(SiteKind::Class, TypeSort::Nothing, false),
        TypeKind::Interface => made(SiteKind::Interface, TypeSort::Nothing, false),
    }
}

fn member_site(member: &MemberTree) -> Site
    ensures { result ≡ spec.member_site member.now }
{
    match member {
        MemberTree::Field(field) => made(SiteKind::Field, sort_of(&field.ty), false),
        MemberTree::Method(method) => {
            let has_this = !is_static(method.mods.as_slice());
            made(SiteKind::Method, TypeSort::Nothing, has_this)
        }
        MemberTree::Sig(_) => made(SiteKind::Sig, TypeSort::Nothing, true),
        MemberTree::Ctor(_) => made(SiteKind::Ctor, TypeSort::Nothing, true),
        MemberTree::Main(_) => made(SiteKind::Main, TypeSort::Nothing, false),
    }
}

pub(crate) fn params_of(member: &MemberTree) -> &[Param]
    ensures { result.now ≡ spec.params_of member.now }
{
    match member {
        MemberTree::Field(_) => &[],
        MemberTree::Method(method) => method.params.as_slice(),
        MemberTree::Sig(sig) => sig.params.as_slice(),
        MemberTree::Ctor(ctor) => ctor.params.as_slice(),
        MemberTree::Main(_) => &[],
    }
}

fn param_sort(param: Option<&Param>) -> TypeSort
    ensures { result ≡ spec.param_sort (option_copied param.entry) }
{
    match param {
        Some(param) => sort_of(&param.ty),
        None => TypeSort::Nothing,
    }
}

/// A member, or its parameter of this number from 0.
pub fn site_of(member: &MemberTree, param: Option<usize>) -> Site
    ensures { result ≡ spec.site_of member.now param }
{
    let own = member_site(member);
    match param {
        None => own,
        Some(i) => {
            let sort = param_sort(sqlite_items::at(params_of(member), i));
            made(SiteKind::Param, sort, own.has_this)
        }
    }
}

fn is_callable(kind: SiteKind) -> bool
    ensures { result ≡ spec.is_callable kind }
{
    matches!(kind, SiteKind::Method | SiteKind::Sig | SiteKind::Ctor)
}

fn is_lendable(sort: TypeSort) -> bool
    ensures { result ≡ spec.is_lendable sort }
{
    matches!(
        sort,
        TypeSort::Declared | TypeSort::Object | TypeSort::Runnable
    )
}

fn is_class(kind: SiteKind) -> bool
    ensures { result ≡ spec.is_class kind }
{
    matches!(kind, SiteKind::Class)
}

fn is_vouchable(kind: SiteKind) -> bool
    ensures { result ≡ spec.is_vouchable kind }
{
    matches!(kind, SiteKind::Class | SiteKind::Method | SiteKind::Ctor)
}

fn is_unique_place(at: Site) -> bool
    ensures { result ≡ spec.is_unique_place at }
{
    matches!(at.kind, SiteKind::Field | SiteKind::Param) && matches!(at.sort, TypeSort::Declared)
}

fn stands_on(at: Site, tree: &PromiseTree) -> bool
    ensures { result ≡ spec.stands_on at (out-PromiseTree tree.now) }
{
    match tree {
        PromiseTree::Region(_) => is_class(at.kind),
        PromiseTree::InRegion(_) => matches!(at.kind, SiteKind::Field),
        PromiseTree::RegionLock(_) => is_class(at.kind),
        PromiseTree::RequiresLock(_) => is_callable(at.kind) || matches!(at.kind, SiteKind::Main),
        PromiseTree::Unique(UniqueContent::Place) => is_unique_place(at),
        PromiseTree::Unique(UniqueContent::Return) => is_callable(at.kind),
        PromiseTree::Borrowed(BorrowedContent::Place) => {
            matches!(at.kind, SiteKind::Param) && is_lendable(at.sort)
        }
        PromiseTree::Borrowed(BorrowedContent::This) => is_callable(at.kind) && at.has_this,
        PromiseTree::RegionEffects(_) => is_callable(at.kind),
        PromiseTree::Starts => is_callable(at.kind),
        PromiseTree::Promise(_, _) => is_class(at.kind),
        PromiseTree::Assume(_, _) => is_class(at.kind),
        PromiseTree::Vouch(_) => is_vouchable(at.kind),
    }
}

fn may_spread(tree: &PromiseTree) -> bool
    ensures { result ≡ spec.may_spread (out-PromiseTree tree.now) }
{
    match tree {
        PromiseTree::InRegion(_) => true,
        PromiseTree::Unique(_) => true,
        PromiseTree::RequiresLock(_) => true,
        PromiseTree::Borrowed(BorrowedContent::This) => true,
        PromiseTree::RegionEffects(_) => true,
        PromiseTree::Starts => true,
        _ => false,
    }
}

fn may_assume(tree: &PromiseTree) -> bool
    ensures { result ≡ spec.may_assume (out-PromiseTree tree.now) }
{
    match tree {
        PromiseTree::Borrowed(BorrowedContent::This) => true,
        PromiseTree::Unique(UniqueContent::Return) => true,
        PromiseTree::RegionEffects(_) => true,
        PromiseTree::Starts => true,
        _ => false,
    }
}

fn form_allows(tree: &PromiseTree) -> bool
    ensures { result ≡ spec.form_allows (out-PromiseTree tree.now) }
{
    match tree {
        PromiseTree::Promise(inner, _) => may_spread(inner.get()),
        PromiseTree::Assume(inner, _) => may_assume(inner.get()),
        _ => true,
    }
}

/// The code of an annotation whose content is spelled, by its place and form alone: `BadPlace`
/// where it stands on nothing that the promise may stand on, or gives a promise that its form
/// doesn't allow.
pub fn place_code(at: Site, tree: &PromiseTree) -> Option<FindingCode>
    ensures { result ≡ spec.place_code at (out-PromiseTree tree.now) }
{
    if stands_on(at, tree) && form_allows(tree) {
        None
    } else {
        Some(FindingCode::BadPlace)
    }
}

/// The same of any annotation: `BadContent` where the content isn't spelled.
pub fn first_code(at: Site, tree: &Option<Shared<PromiseTree>>) -> Option<FindingCode>
    ensures { result ≡ spec.first_code at tree.now }
{
    match tree {
        None => Some(FindingCode::BadContent),
        Some(tree) => place_code(at, tree.get()),
    }
}
