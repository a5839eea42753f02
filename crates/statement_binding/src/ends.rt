ghost use Rattle.std.specs.Prelude.{◌≡◌, ℕ, ◌&&◌, false, map, Option};
ghost use Rattle.std.specs.Option.{option_map};
ghost use Rattle.desk_base.specs.declared.span.Span.{Span};
ghost use Rattle.java_tree.specs.declared.stmt.Stmt.{Stmt as Tree};
ghost use Rattle.tree_places.specs.PlainStmt.{stmts, otherwise};
ghost use Rattle.tree_places.specs.Plain.{plain_block, plain_expr, plain_item, plain_stmt};
ghost use Rattle.statement_binding.specs.Ends as spec;

use desk_base::Boxed;
use java_tree::{Block, BlockItem, Expr, Stmt};

/// Whether it is the word `true`, without parentheses.
#[tactic(auto, using(tree_places::proofs::PlainShapes::plain_shapes))]
fn is_true(expr: &Expr) -> bool
    ensures { (number : Span → ℕ) → result ≡ spec.is_true (plain_expr number expr.now) }
{
    match expr {
        Expr::True(_) => true,
        Expr::Int(_)
        | Expr::Str(_)
        | Expr::False(_)
        | Expr::Null(_)
        | Expr::This(_)
        | Expr::Name(_)
        | Expr::Call(_, _, _)
        | Expr::New(_, _, _, _)
        | Expr::Paren(_, _, _)
        | Expr::Select(_, _)
        | Expr::CallOn(_, _, _, _)
        | Expr::Not(_, _)
        | Expr::Neg(_, _)
        | Expr::Binary(_, _, _, _) => false,
    }
}

fn both(one: bool, other: bool) -> bool
    ensures { result ≡ (one && other) }
{
    one && other
}

/// Whether the statement can't end normally, as far as the rule knows it.
#[cycle(ends)]
#[tactic(auto, using(tree_places::proofs::PlainShapes::plain_shapes, crate::proofs::Shapes::end_shapes))]
fn never_ends(stmt: &Stmt) -> bool
    ensures { (number : Span → ℕ) → result ≡ spec.never_ends (plain_stmt number stmt.now) }
{
    match stmt {
        Stmt::Block(block) => block_never_ends(block),
        Stmt::If(_, _, yes, no) => {
            let one = never_ends(yes.get());
            let other = other_never_ends(no);
            both(one, other)
        }
        Stmt::While(_, test, _) => is_true(test),
        Stmt::Sync(_, _, block) => block_never_ends(block),
        Stmt::Return(_, _, _) => true,
        Stmt::Empty(_) | Stmt::Action(_, _) | Stmt::For(_, _, _, _, _) => false,
    }
}

#[cycle(ends)]
#[tactic(auto, using(crate::proofs::Shapes::end_shapes))]
fn other_never_ends(other: &Option<Boxed<Stmt>>) -> bool
    ensures { (number : Span → ℕ) → result ≡ spec.last_never_ends false (otherwise (option_map (plain_stmt number) other.now)) }
{
    match other {
        Some(stmt) => never_ends(stmt.get()),
        None => false,
    }
}

#[cycle(ends)]
#[tactic(auto, using(tree_places::proofs::PlainShapes::plain_shapes, crate::proofs::Shapes::end_shapes))]
fn item_never_ends(item: &BlockItem) -> bool
    ensures { (number : Span → ℕ) → result ≡ spec.never_ends (plain_item number item.now) }
{
    match item {
        BlockItem::Local(_, _) => false,
        BlockItem::Stmt(stmt) => never_ends(stmt),
    }
}

#[cycle(ends)]
fn last_never_ends(items: &[BlockItem]) -> bool
    ensures { (number : Span → ℕ) → result ≡ spec.last_never_ends false (stmts (map (plain_item number) items.now)) }
{
    if items.is_empty() {
        return false;
    }
    item_never_ends(&items[items.len() - 1])
}

/// Whether the block's last statement can't end normally.
#[cycle(ends)]
#[tactic(auto, using(crate::proofs::Blocks::block_ends))]
pub(crate) fn block_never_ends(block: &Block) -> bool
    ensures { (number : Span → ℕ) → result ≡ spec.never_ends (plain_block number block.now) }
{
    last_never_ends(block.items.as_slice())
}
