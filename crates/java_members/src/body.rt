//! The bodies of members.

ghost use Rattle.std.specs.Prelude.{◌≡◌, OnOk};
ghost use Rattle.java_phrases.specs.Cursor.{ahead, from_start};
ghost use Rattle.java_statements.specs.Spelling.{BlockSpells};
ghost use Rattle.java_phrases.specs.Answers.{Finds};
ghost use Rattle.java_members.specs.Parts.{Completes, Whole};

use desk_base::{Items, Name};
use java_heads::{CtorHeading, Heading, MainHeading, MethodHeading, read_heading};
use java_phrases::{SyntaxError, Tokens};
use java_statements::read_block;
use java_tree::{Block, Ctor, Main, MemberTree, Method};
use std::alloc::Global;

/// How many nodes there are at most on a path of a member's tree.
const PATH_LIMIT: u8 = 64;

fn body(alloc: Global, tokens: &mut Tokens) -> Result<Block, SyntaxError>
    ensures reads { Finds (BlockSpells 64) (ahead tokens.old) result (ahead tokens.new) }
    ensures kept { OnOk result (from_start tokens.new ≡ from_start tokens.old) }
{
    read_block(alloc, tokens, PATH_LIMIT)
}

fn method(
    alloc: Global,
    tokens: &mut Tokens,
    heading: MethodHeading,
) -> Result<MemberTree, SyntaxError>
    ensures reads { Finds (Completes (Heading.Method heading)) (ahead tokens.old) result (ahead tokens.new) }
    ensures kept { OnOk result (from_start tokens.new ≡ from_start tokens.old) }
{
    let body = body(alloc, tokens)?;
    Ok(MemberTree::Method(Method {
        mods: heading.mods,
        result: heading.result,
        name: heading.name,
        params: heading.params,
        throws: heading.throws,
        body,
        tokens: Items::new(alloc),
    }))
}

fn ctor(alloc: Global, tokens: &mut Tokens, heading: CtorHeading) -> Result<MemberTree, SyntaxError>
    ensures reads { Finds (Completes (Heading.Ctor heading)) (ahead tokens.old) result (ahead tokens.new) }
    ensures kept { OnOk result (from_start tokens.new ≡ from_start tokens.old) }
{
    let body = body(alloc, tokens)?;
    Ok(MemberTree::Ctor(Ctor {
        mods: heading.mods,
        name: heading.name,
        params: heading.params,
        throws: heading.throws,
        body,
        tokens: Items::new(alloc),
    }))
}

fn main_member(
    alloc: Global,
    tokens: &mut Tokens,
    heading: MainHeading,
) -> Result<MemberTree, SyntaxError>
    ensures reads { Finds (Completes (Heading.Main heading)) (ahead tokens.old) result (ahead tokens.new) }
    ensures kept { OnOk result (from_start tokens.new ≡ from_start tokens.old) }
{
    let body = body(alloc, tokens)?;
    Ok(MemberTree::Main(Main {
        mods: heading.mods,
        name: heading.name,
        final_word: heading.final_word,
        param: heading.param,
        throws: heading.throws,
        body,
        tokens: Items::new(alloc),
    }))
}

/// The member with its body, if it has one.
fn completed(
    alloc: Global,
    tokens: &mut Tokens,
    heading: Heading,
) -> Result<MemberTree, SyntaxError>
    ensures reads { Finds (Completes heading) (ahead tokens.old) result (ahead tokens.new) }
    ensures kept { OnOk result (from_start tokens.new ≡ from_start tokens.old) }
{
    match heading {
        Heading::Field(field) => Ok(MemberTree::Field(field)),
        Heading::Method(heading) => method(alloc, tokens, heading),
        Heading::Ctor(heading) => ctor(alloc, tokens, heading),
        Heading::Main(heading) => main_member(alloc, tokens, heading),
    }
}

/// A member of the class of this name, without its tokens.
pub(crate) fn whole(
    alloc: Global,
    tokens: &mut Tokens,
    class_name: &Name,
) -> Result<MemberTree, SyntaxError>
    ensures reads { Finds (Whole class_name.now) (ahead tokens.old) result (ahead tokens.new) }
    ensures kept { OnOk result (from_start tokens.new ≡ from_start tokens.old) }
{
    let heading = read_heading(alloc, tokens, class_name)?;
    completed(alloc, tokens, heading)
}
