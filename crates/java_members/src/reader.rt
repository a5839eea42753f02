//! The members of a class, each by one call.

ghost use Rattle.std.specs.Prelude.{◌≡◌, List, [], IfOk, OnOk};
ghost use Rattle.java_tree.specs.declared.token.Token.{Token};
ghost use Rattle.java_tree.specs.declared.member.MemberTree.{MemberTree};
ghost use Rattle.java_phrases.specs.Cursor.{ahead};
ghost use Rattle.java_phrases.specs.Answers.{Gives, Takes};
ghost use Rattle.java_members.specs.Spelling.{MemberSpells};
ghost use Rattle.java_members.specs.Parts.{Whole, member_with};

use crate::body::whole;
use desk_base::{Items, Name};
use java_phrases::{SyntaxError, Tokens};
use java_tree::{MemberTree, Token};
use std::alloc::Global;

fn with_tokens(member: MemberTree, tokens: Items<Token>) -> MemberTree
    ensures { result ≡ member_with tokens member }
{
    match member {
        MemberTree::Field(mut field) => {
            field.tokens = tokens;
            MemberTree::Field(field)
        }
        MemberTree::Method(mut method) => {
            method.tokens = tokens;
            MemberTree::Method(method)
        }
        MemberTree::Sig(mut sig) => {
            sig.tokens = tokens;
            MemberTree::Sig(sig)
        }
        MemberTree::Ctor(mut ctor) => {
            ctor.tokens = tokens;
            MemberTree::Ctor(ctor)
        }
        MemberTree::Main(mut main) => {
            main.tokens = tokens;
            MemberTree::Main(main)
        }
    }
}

fn kept_member(
    alloc: Global,
    tokens: &mut Tokens,
    class_name: &Name,
) -> Result<MemberTree, SyntaxError>
    ensures reads { Takes (Whole class_name.now) member_with (ahead tokens.old) result (ahead tokens.new) }
    ensures fresh { OnOk result (tokens.new.taken ≡ []) }
{
    let _before = tokens.keep(alloc);
    let member = whole(alloc, tokens, class_name)?;
    Ok(with_tokens(member, tokens.keep(alloc)))
}

/// Reads a member of the class of this name with its tokens: a field, method, constructor or `main`
/// with at most 64 nodes on a path (JLS 8, 8.3, 8.4, 8.8, 12.1.4, as far as the subset goes).
/// `NotSpelled` comes exactly where the tokens ahead begin with no such member; where the cursor stands
/// then isn't said. The next part begins with the next token.
pub fn read_member(
    alloc: Global,
    tokens: &mut Tokens,
    class_name: &Name,
) -> Result<MemberTree, SyntaxError>
    ensures found { IfOk result (λ m. MemberSpells class_name.now m (ahead tokens.old) (ahead tokens.new)) }
    ensures only { (m : MemberTree) (rest : List Token) → MemberSpells class_name.now m (ahead tokens.old) rest → Gives result (ahead tokens.new) m rest }
    ensures fresh { OnOk result (tokens.new.taken ≡ []) }
{
    kept_member(alloc, tokens, class_name)
}
