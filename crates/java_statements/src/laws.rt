//! What follows from the definitions alone: the call does nothing, and its contract is a law.

ghost use Rattle.std.specs.Prelude.{◌≡◌, ℕ, List};
ghost use Rattle.java_tree.specs.declared.token.Token.{Token};
ghost use Rattle.java_tree.specs.declared.stmt.Block.{Block};
ghost use Rattle.java_statements.specs.Spelling.{BlockSpells};

/// Tokens begin with one block at most.
pub fn one_block()
    ensures { (limit : ℕ) (ts rest other_rest : List Token) (one other : Block) → BlockSpells limit one ts rest → BlockSpells limit other ts other_rest → (one ≡ other) × (rest ≡ other_rest) }
{}
