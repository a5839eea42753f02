ghost use Rattle.std.specs.Prelude.{◌≡◌, List, IfOk, OnOk};
ghost use Rattle.java_tree.specs.declared.token.Token.{Token};
ghost use Rattle.java_tree.specs.declared.expr.Expr.{Expr};
ghost use Rattle.java_expressions.specs.Spelling.{ExprSpells, PostSpells, Ends};
ghost use Rattle.java_phrases.specs.Cursor.{ahead, from_start};
ghost use Rattle.java_phrases.specs.Answers.{Gives};

use crate::grammar::{ended_expr, ended_post};
use java_phrases::{SyntaxError, Tokens};
use java_tree::Expr;
use std::alloc::Global;

/// Reads an expression with at most `limit` nodes on a path (JLS 8, 15, as far as the subset goes),
/// up to a token by which none goes on. `NotSpelled` comes exactly where the tokens ahead begin with
/// no such expression; where the cursor stands then isn't said.
pub fn read_expr(alloc: Global, tokens: &mut Tokens, limit: u8) -> Result<Expr, SyntaxError>
    ensures found { IfOk result (λ e. ExprSpells limit e (ahead tokens.old) (ahead tokens.new) × Ends (ahead tokens.new)) }
    ensures only { (e : Expr) (rest : List Token) → ExprSpells limit e (ahead tokens.old) rest → Ends rest → Gives result (ahead tokens.new) e rest }
    ensures kept { OnOk result (from_start tokens.new ≡ from_start tokens.old) }
{
    ended_expr(alloc, tokens, limit)
}

/// The same of an expression that begins a statement: a name, call, selection, `new` or another leaf,
/// without an operator before or between its parts.
pub fn read_post(alloc: Global, tokens: &mut Tokens, limit: u8) -> Result<Expr, SyntaxError>
    ensures found { IfOk result (λ e. PostSpells limit e (ahead tokens.old) (ahead tokens.new) × Ends (ahead tokens.new)) }
    ensures only { (e : Expr) (rest : List Token) → PostSpells limit e (ahead tokens.old) rest → Ends rest → Gives result (ahead tokens.new) e rest }
    ensures kept { OnOk result (from_start tokens.new ≡ from_start tokens.old) }
{
    ended_post(alloc, tokens, limit)
}
