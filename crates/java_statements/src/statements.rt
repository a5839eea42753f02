//! Statements and blocks. `room` is the number of nodes that are left for a path through a part.

ghost use Rattle.std.specs.Prelude.{◌≡◌, ◌<◌, IfOk, IfErr};
ghost use Rattle.java_tree.specs.declared.stmt.Stmt.TheVariants as tree;
ghost use Rattle.java_statements.specs.Reading as spec;
ghost use Rattle.java_phrases.specs.Cursor.{ahead, from_start, Steps};

use crate::actions::{action_within, condition};
use crate::drops::let_go;
use crate::head::{ForHead, for_head, sync_head, value_if};
use crate::locals::{begins_local, declaration};
use desk_base::{Boxed, Items, Span};
use java_phrases::{SyntaxError, Tokens};
use java_tree::{Block, BlockItem, Expr, Kind, Stmt};
use std::alloc::Global;

fn if_else_tree(
    alloc: Global,
    at: Span,
    test: Expr,
    does: Stmt,
    other: Stmt,
) -> Result<Stmt, SyntaxError>
    ensures made { IfOk result (λ made. made ≡ tree.If at test does (Some other)) }
    ensures memory { IfErr result (λ e. e ≡ SyntaxError.OutOfMemory) }
{
    let does = Boxed::new(alloc, does)?;
    let other = Boxed::new(alloc, other)?;
    Ok(Stmt::If(at, test, does, Some(other)))
}

fn if_tree(
    alloc: Global,
    at: Span,
    test: Expr,
    does: Stmt,
    other: Option<Stmt>,
) -> Result<Stmt, SyntaxError>
    ensures made { IfOk result (λ made. made ≡ tree.If at test does other) }
    ensures memory { IfErr result (λ e. e ≡ SyntaxError.OutOfMemory) }
{
    match other {
        Some(other) => if_else_tree(alloc, at, test, does, other),
        None => Ok(Stmt::If(at, test, Boxed::new(alloc, does)?, None)),
    }
}

fn while_tree(alloc: Global, at: Span, test: Expr, does: Stmt) -> Result<Stmt, SyntaxError>
    ensures made { IfOk result (λ made. made ≡ tree.While at test does) }
    ensures memory { IfErr result (λ e. e ≡ SyntaxError.OutOfMemory) }
{
    Ok(Stmt::While(at, test, Boxed::new(alloc, does)?))
}

fn for_tree(alloc: Global, at: Span, head: ForHead, does: Stmt) -> Result<Stmt, SyntaxError>
    ensures made { IfOk result (λ made. made ≡ tree.For at head.first head.test head.last does) }
    ensures memory { IfErr result (λ e. e ≡ SyntaxError.OutOfMemory) }
{
    match Boxed::new(alloc, does) {
        Ok(does) => Ok(head.with_body(at, does)),
        Err(error) => {
            head.let_go();
            Err(SyntaxError::from(error))
        }
    }
}

#[tactic(auto, unfolding(crate::specs::Reading::returned))]
fn returned(alloc: Global, tokens: &mut Tokens, room: u8) -> Result<Stmt, SyntaxError>
    ensures { Steps (spec.returned room) tokens.old result tokens.new }
{
    let at = tokens.sign(Kind::Return)?;
    let found = value_if(alloc, tokens, room)?;
    let end = tokens.sign(Kind::Semicolon)?;
    Ok(Stmt::Return(at, found, end))
}

#[tactic(auto, unfolding(crate::specs::Reading::action_stmt))]
fn action_stmt(alloc: Global, tokens: &mut Tokens, room: u8) -> Result<Stmt, SyntaxError>
    requires { room < 255 }
    ensures { Steps (spec.action_stmt room) tokens.old result tokens.new }
{
    let does = action_within(alloc, tokens, room)?;
    match tokens.sign(Kind::Semicolon) {
        Ok(at) => Ok(Stmt::Action(does, at)),
        Err(error) => {
            let_go(does);
            Err(error)
        }
    }
}

#[tactic(auto, unfolding(crate::specs::Reading::empty_stmt))]
fn empty_stmt(tokens: &mut Tokens) -> Result<Stmt, SyntaxError>
    ensures { Steps spec.empty_stmt tokens.old result tokens.new }
{
    Ok(Stmt::Empty(tokens.sign(Kind::Semicolon)?))
}

/// A local's declaration or a statement.
#[cycle(statements)]
#[tactic(auto, unfolding(crate::specs::Reading::block_item))]
fn block_item(alloc: Global, tokens: &mut Tokens, room: u8) -> Result<BlockItem, SyntaxError>
    ensures { Steps (spec.block_item room (spec.statement room)) tokens.old result tokens.new }
{
    if begins_local(tokens) {
        declaration(alloc, tokens, room)
    } else {
        Ok(BlockItem::Stmt(statement(alloc, tokens, room)?))
    }
}

/// The declarations and statements up to a closing brace.
#[cycle(statements)]
fn items(alloc: Global, tokens: &mut Tokens, room: u8) -> Result<Items<BlockItem>, SyntaxError>
    ensures { Steps (spec.items room (spec.statement room)) tokens.old result tokens.new }
{
    let mut found = Items::new(alloc);
    'more: while !tokens.sees(Kind::RBrace) {
        found.push(block_item(alloc, tokens, room)?)?;
    }
    Ok(found)
}

#[cycle(statements)]
#[tactic(auto, unfolding(crate::specs::Reading::block_within))]
pub(crate) fn block_within(
    alloc: Global,
    tokens: &mut Tokens,
    room: u8,
) -> Result<Block, SyntaxError>
    ensures { Steps (spec.block_within room (spec.statement room)) tokens.old result tokens.new }
{
    let opening = tokens.sign(Kind::LBrace)?;
    let items = items(alloc, tokens, room)?;
    let closing = tokens.sign(Kind::RBrace)?;
    Ok(Block {
        opening,
        items,
        closing,
    })
}

#[cycle(statements)]
#[tactic(auto, unfolding(crate::specs::Reading::if_stmt))]
fn if_stmt(alloc: Global, tokens: &mut Tokens, room: u8) -> Result<Stmt, SyntaxError>
    ensures { Steps (spec.if_stmt room (spec.statement room)) tokens.old result tokens.new }
{
    let at = tokens.sign(Kind::If)?;
    let test = condition(alloc, tokens, room)?;
    let does = statement(alloc, tokens, room)?;
    let other = if tokens.sees(Kind::Else) {
        tokens.sign(Kind::Else)?;
        Some(statement(alloc, tokens, room)?)
    } else {
        None
    };
    if_tree(alloc, at, test, does, other)
}

#[cycle(statements)]
#[tactic(auto, unfolding(crate::specs::Reading::while_stmt))]
fn while_stmt(alloc: Global, tokens: &mut Tokens, room: u8) -> Result<Stmt, SyntaxError>
    ensures { Steps (spec.while_stmt room (spec.statement room)) tokens.old result tokens.new }
{
    let at = tokens.sign(Kind::While)?;
    let test = condition(alloc, tokens, room)?;
    let does = statement(alloc, tokens, room)?;
    while_tree(alloc, at, test, does)
}

#[cycle(statements)]
#[tactic(auto, unfolding(crate::specs::Reading::for_stmt))]
fn for_stmt(alloc: Global, tokens: &mut Tokens, room: u8) -> Result<Stmt, SyntaxError>
    ensures { Steps (spec.for_stmt room (spec.statement room)) tokens.old result tokens.new }
{
    let at = tokens.sign(Kind::For)?;
    let head = for_head(alloc, tokens, room)?;
    match statement(alloc, tokens, room) {
        Ok(does) => for_tree(alloc, at, head, does),
        Err(error) => {
            head.let_go();
            Err(error)
        }
    }
}

#[cycle(statements)]
#[tactic(auto, unfolding(crate::specs::Reading::sync_stmt))]
fn sync_stmt(alloc: Global, tokens: &mut Tokens, room: u8) -> Result<Stmt, SyntaxError>
    ensures { Steps (spec.sync_stmt room (spec.statement room) (spec.block room)) tokens.old result tokens.new }
{
    let at = tokens.sign(Kind::Synchronized)?;
    let held = sync_head(alloc, tokens, room)?;
    let found = block(alloc, tokens, room)?;
    Ok(Stmt::Sync(at, held, found))
}

/// A block with at most `limit` nodes on a path.
#[cycle(statements)]
pub(crate) fn block(alloc: Global, tokens: &mut Tokens, limit: u8) -> Result<Block, SyntaxError>
    ensures { Steps (spec.block limit) tokens.old result tokens.new }
{
    if limit == 0 {
        return Err(SyntaxError::NotSpelled);
    }
    block_within(alloc, tokens, limit - 1)
}

#[cycle(statements)]
#[tactic(auto, unfolding(crate::specs::Reading::stmt_within))]
fn stmt_within(alloc: Global, tokens: &mut Tokens, room: u8) -> Result<Stmt, SyntaxError>
    requires { room < 255 }
    ensures { Steps (spec.stmt_within room (spec.statement room) (spec.block room)) tokens.old result tokens.new }
{
    match tokens.peek() {
        Some(Kind::LBrace) => Ok(Stmt::Block(block_within(alloc, tokens, room)?)),
        Some(Kind::Semicolon) => empty_stmt(tokens),
        Some(Kind::If) => if_stmt(alloc, tokens, room),
        Some(Kind::While) => while_stmt(alloc, tokens, room),
        Some(Kind::For) => for_stmt(alloc, tokens, room),
        Some(Kind::Synchronized) => sync_stmt(alloc, tokens, room),
        Some(Kind::Return) => returned(alloc, tokens, room),
        _ => action_stmt(alloc, tokens, room),
    }
}

/// A statement with at most `limit` nodes on a path.
#[cycle(statements)]
fn statement(alloc: Global, tokens: &mut Tokens, limit: u8) -> Result<Stmt, SyntaxError>
    ensures { Steps (spec.statement limit) tokens.old result tokens.new }
{
    if limit == 0 {
        return Err(SyntaxError::NotSpelled);
    }
    stmt_within(alloc, tokens, limit - 1)
}
