ghost use Rattle.std.specs.Prelude.{◌≡◌, IfOk};
ghost use Rattle.std.specs.Option.{option_copied};
ghost use Rattle.project_judge.specs.Found.{IsFound};
ghost use Rattle.project_judge.specs.Units.{member_tokens, unit_tokens};

use binder::bind_keyed;
use desk_base::{Items, OutOfMemory, Text};
use java_tree::{ClassTree, MemberTree, Token};
use promise_scrub::Aside;
use result_records::Finding;
use std::alloc::Global;
use unit_judge::judge_bound;
use views::View;

/// A class whose units are judged: the number of its file, its tree, its view, and what its surface sets
/// aside.
#[derive(Drop)]
pub(crate) struct ClassAt<'a> {
    pub(crate) file: u32,
    pub(crate) class: &'a ClassTree,
    pub(crate) view: View<'a>,
    pub(crate) asides: &'a [Aside],
}

fn member_tokens(member: &MemberTree) -> &[Token]
    ensures { result.now ≡ member_tokens member.now }
{
    match member {
        MemberTree::Field(field) => field.tokens.as_slice(),
        MemberTree::Method(method) => method.tokens.as_slice(),
        MemberTree::Sig(sig) => sig.tokens.as_slice(),
        MemberTree::Ctor(ctor) => ctor.tokens.as_slice(),
        MemberTree::Main(main) => main.tokens.as_slice(),
    }
}

/// The tokens of a unit.
pub(crate) fn unit_tokens<'a>(class: &'a ClassTree, member: Option<&'a MemberTree>) -> &'a [Token]
    ensures { result.now ≡ unit_tokens class.now (option_copied member.entry) }
{
    match member {
        None => class.tokens.as_slice(),
        Some(member) => member_tokens(member),
    }
}

/// The findings of a unit, which is bound and judged: of the header where there is no member.
pub(crate) fn findings_of(
    alloc: Global,
    at: &ClassAt<'_>,
    member: Option<&MemberTree>,
    key: Text,
) -> Result<Items<Finding>, OutOfMemory>
    ensures { IfOk result (IsFound at.now.class.now (option_copied member.entry) key at.now.asides.now at.now.view) }
{
    let unit = bind_keyed(alloc, at.class, member, key, &at.view)?;
    judge_bound(alloc, &unit, &at.view, at.asides)
}
