//! What follows from the definitions alone: the call does nothing, and its contract is a law.

ghost use Rattle.std.specs.Prelude.{ℕ, List};
ghost use Rattle.java_heads.specs.Laws.{OneTree};
ghost use Rattle.java_members.specs.Spelling.{MemberSpells};

use java_heads::one_part;
use java_statements::one_block;

/// Tokens begin with one member of a class at most. So no member's spelling is a front of another's.
pub fn one_member()
    ensures { (class : List ℕ) → OneTree (MemberSpells class) }
{
    one_part();
    one_block();
}
