//! Qualified names.

ghost use Rattle.std.specs.Prelude.{◌≡◌};
ghost use Rattle.java_tree.specs.declared.kind.Kind.TheVariants as k;
ghost use Rattle.java_phrases.specs.Parser.{word, turns};
ghost use Rattle.java_phrases.specs.Cursor.{ahead, Steps};
ghost use Rattle.java_heads.specs.Reading as spec;

use desk_base::Items;
use java_phrases::{SyntaxError, Tokens};
use java_tree::{Kind, Lexeme};
use std::alloc::Global;

#[tactic(auto, unfolding(crate::specs::Reading::goes_on))]
fn goes_on(tokens: &Tokens) -> bool
    ensures { result ≡ spec.goes_on (ahead tokens.now) }
{
    tokens.sees(Kind::Dot) && matches!(tokens.kind_at(1), Some(Kind::Name))
}

/// One more name, behind a sign.
#[tactic(auto, unfolding(crate::specs::Reading::after))]
pub(crate) fn name_after(
    alloc: Global,
    tokens: &mut Tokens,
    before: Kind,
    found: Items<Lexeme>,
) -> Result<Items<Lexeme>, SyntaxError>
    ensures { Steps (spec.after before (word k.Name) found) tokens.old result tokens.new }
{
    let mut found = found;
    tokens.sign(before)?;
    found.push(tokens.word(alloc, Kind::Name)?)?;
    Ok(found)
}

fn more_names(
    alloc: Global,
    tokens: &mut Tokens,
    found: Items<Lexeme>,
) -> Result<Items<Lexeme>, SyntaxError>
    ensures { Steps (turns spec.goes_on (spec.after k.Dot (word k.Name)) found) tokens.old result tokens.new }
{
    let mut found = found;
    'more: while goes_on(tokens) {
        found = name_after(alloc, tokens, Kind::Dot, found)?;
    }
    Ok(found)
}

/// Reads a qualified name, as far as a name follows each dot (JLS 8, 6.5).
#[tactic(auto, unfolding(crate::specs::Reading::qualified))]
pub(crate) fn read_qualified(
    alloc: Global,
    tokens: &mut Tokens,
) -> Result<Items<Lexeme>, SyntaxError>
    ensures { Steps spec.qualified tokens.old result tokens.new }
{
    let mut names = Items::new(alloc);
    names.push(tokens.word(alloc, Kind::Name)?)?;
    more_names(alloc, tokens, names)
}
