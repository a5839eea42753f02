//! What follows from the definitions alone: the call does nothing, and its contract is a law.

ghost use Rattle.std.specs.Prelude.{◌≡◌, ℕ, List};
ghost use Rattle.java_tree.specs.declared.token.Token.{Token};
ghost use Rattle.java_tree.specs.declared.expr.Expr.{Expr};
ghost use Rattle.java_expressions.specs.Spelling.{ExprSpells, Ends};

/// Tokens begin with one expression at most, up to a token by which none goes on.
pub fn one_expression()
    ensures { (limit : ℕ) (ts rest other_rest : List Token) (one other : Expr) → ExprSpells limit one ts rest → Ends rest → ExprSpells limit other ts other_rest → Ends other_rest → (one ≡ other) × (rest ≡ other_rest) }
{}
