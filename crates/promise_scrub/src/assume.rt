ghost use Rattle.std.specs.Prelude.{◌≡◌, ◌++◌, IfOk, OnOk};
ghost use Rattle.std.specs.List.{flat_map};
ghost use Rattle.promise_grammar.specs.declared.tree.PromiseTree.{out-PromiseTree};
ghost use Rattle.scrub_rules.specs.Facts.{facts_of};
ghost use Rattle.scrub_rules.specs.Offers.{flat};
ghost use Rattle.promise_scrub.specs.Surfaces as spec;

use crate::surface::Assumption;
use class_faces::{member_key, text_of};
use desk_base::{Bytes, Items, OutOfMemory, PromiseKey, Text};
use itoa::Buffer;
use promise_grammar::{MemberContent, MemberName, PromiseTree, Shared};
use promise_marks::Mark;
use result_records::FindingCode;
use scrub_rules::{Context, Offer, Site, SiteKind, TypeSort, copied, offers_of};
use std::alloc::Global;

fn member_name(name: &MemberName) -> &[u8]
    ensures { result.now ≡ spec.member_name name.now }
{
    match name {
        MemberName::Named(name) => name.as_slice(),
        MemberName::New => b"new",
    }
}

fn assumed_site(name: &MemberName) -> SiteKind
    ensures { result ≡ spec.assumed_site name.now }
{
    match name {
        MemberName::Named(_) => SiteKind::Method,
        MemberName::New => SiteKind::Ctor,
    }
}

fn member_text(alloc: Global, member: &MemberContent) -> Result<Bytes, OutOfMemory>
    ensures { IfOk result (λ text. text ≡ spec.member_text member.now) }
{
    let mut text = Bytes::from_slice(alloc, member_name(&member.name))?;
    text.append(b"/")?;
    let mut buffer = Buffer::new();
    text.append(buffer.format(member.count).as_bytes())?;
    Ok(text)
}

fn assumed_at(name: &MemberName) -> Site
    ensures { result ≡ spec.assumed_at name.now }
{
    Site {
        kind: assumed_site(name),
        sort: TypeSort::Nothing,
        has_this: true,
    }
}

fn assumed_key(
    alloc: Global,
    member: &MemberContent,
    offer: &Offer,
) -> Result<PromiseKey, OutOfMemory>
    ensures { IfOk result (λ key. key ≡ spec.assumed_key member.now offer.now) }
{
    let class = member.class.as_slice();
    let name = member_name(&member.name);
    Ok(PromiseKey {
        target: member_key(alloc, class, name, Some(member.count as usize), 1)?,
        name: offer.name,
        detail: offer.detail.clone()?,
    })
}

fn shown_member(alloc: Global, member: &MemberContent) -> Result<Text, OutOfMemory>
    ensures { IfOk result (λ text. text ≡ spec.shown_member member.now) }
{
    let text = member_text(alloc, member)?;
    text_of(alloc, text.as_slice())
}

// Puts an assumed promise, under the key that it has at the member.
fn put_assumption(
    alloc: Global,
    out: &mut Items<Assumption>,
    member: &MemberContent,
    offer: &Offer,
    inner: &PromiseTree,
) -> Result<(), OutOfMemory>
    ensures { OnOk result (out.new ≡ out.old ++ spec.assumption_with member.now offer.now (flat inner.now)) }
{
    match copied(alloc, inner)? {
        None => Ok(()),
        Some(tree) => {
            let tree = Shared::new(alloc, tree)?;
            out.push(Assumption {
                class: member.class.clone()?,
                member: shown_member(alloc, member)?,
                key: assumed_key(alloc, member, offer)?,
                tree,
            })?;
            Ok(())
        }
    }
}

fn put_offers(
    alloc: Global,
    out: &mut Items<Assumption>,
    member: &MemberContent,
    offers: &[Offer],
    inner: &PromiseTree,
) -> Result<(), OutOfMemory>
    ensures { OnOk result (out.new ≡ out.old ++ flat_map (λ offer. spec.assumption_with member.now offer (flat inner.now)) offers.now) }
{
    for offer in offers {
        put_assumption(alloc, out, member, offer, inner)?;
    }
    Ok(())
}

fn put_tree(
    alloc: Global,
    out: &mut Items<Assumption>,
    at: &Context<'_>,
    tree: &PromiseTree,
) -> Result<(), OutOfMemory>
    ensures { OnOk result (out.new ≡ out.old ++ spec.assumptions_in (facts_of at.now) (out-PromiseTree tree.now)) }
{
    match tree {
        PromiseTree::Assume(inner, member) => {
            let site = assumed_at(&member.name);
            let offers = offers_of(alloc, at, site, &[], inner.get())?;
            put_offers(alloc, out, member, offers.as_slice(), inner.get())
        }
        _ => Ok(()),
    }
}

fn put_mark(
    alloc: Global,
    out: &mut Items<Assumption>,
    at: &Context<'_>,
    code: Option<FindingCode>,
    tree: &Option<Shared<PromiseTree>>,
) -> Result<(), OutOfMemory>
    ensures { OnOk result (out.new ≡ out.old ++ spec.assumptions_by (facts_of at.now) code tree.now) }
{
    match (code, tree) {
        (None, Some(tree)) => put_tree(alloc, out, at, tree.get()),
        _ => Ok(()),
    }
}

/// The assumptions of a header that stand, in written order.
pub(crate) fn assumptions_of(
    alloc: Global,
    at: &Context<'_>,
    marks: &[Mark],
    codes: &[Option<FindingCode>],
) -> Result<Items<Assumption>, OutOfMemory>
    ensures { IfOk result (λ out. out ≡ spec.assumptions_of (facts_of at.now) marks.now codes.now) }
{
    let mut out = Items::new(alloc);
    for (i, mark) in marks.iter().enumerate() {
        if i >= codes.len() {
            return Ok(out);
        }
        put_mark(alloc, &mut out, at, codes[i], &mark.tree)?;
    }
    Ok(out)
}
