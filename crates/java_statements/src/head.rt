//! What stands between the parentheses of a `for` and of a `synchronized` statement.

ghost use Rattle.java_statements.specs.Reading as spec;
ghost use Rattle.std.specs.Prelude.{◌≡◌};
ghost use Rattle.java_phrases.specs.Cursor.{ahead, Steps};

use crate::actions::{action, value};
use crate::drops::let_go;
use crate::locals::{begins_local, local};
use desk_base::{Boxed, Span};
use java_phrases::{SyntaxError, Tokens};
use java_tree::{Action, Expr, ForFirst, Kind, Monitor, Stmt};
use std::alloc::Global;

/// The parts of a `for` before its statement. It is no `Drop`: what holds one lets it go by a call, since
/// each `?` would spell the parts out.
pub(crate) struct ForHead {
    first: ForFirst,
    test: Option<Expr>,
    last: Option<Action>,
}

impl ForHead {
    ghost use Rattle.java_tree.specs.declared.stmt.Stmt.TheVariants as tree;

    /// The `for` with these parts and this statement.
    pub(crate) fn with_body(self, at: Span, does: Boxed<Stmt>) -> Stmt
        ensures { result ≡ tree.For at self.first self.test self.last does }
    {
        let ForHead { first, test, last } = self;
        Stmt::For(at, first, test, last, does)
    }

    pub(crate) fn let_go(self) {
        let ForHead { first, test, last } = self;
        let_go(first);
        let_go(test);
        let_go(last);
    }
}

#[tactic(auto, unfolding(crate::specs::Reading::for_first))]
fn for_first(alloc: Global, tokens: &mut Tokens, room: u8) -> Result<ForFirst, SyntaxError>
    ensures { Steps (spec.for_first room) tokens.old result tokens.new }
{
    if tokens.sees(Kind::Semicolon) {
        return Ok(ForFirst::Nothing);
    }
    if begins_local(tokens) {
        Ok(ForFirst::Local(local(alloc, tokens, room)?))
    } else {
        Ok(ForFirst::Action(action(alloc, tokens, room)?))
    }
}

/// An expression up to a semicolon, if there is one.
#[tactic(auto, unfolding(crate::specs::Reading::value_if))]
pub(crate) fn value_if(
    alloc: Global,
    tokens: &mut Tokens,
    room: u8,
) -> Result<Option<Expr>, SyntaxError>
    ensures { Steps (spec.value_if room) tokens.old result tokens.new }
{
    if tokens.sees(Kind::Semicolon) {
        Ok(None)
    } else {
        Ok(Some(value(alloc, tokens, room)?))
    }
}

#[tactic(auto, unfolding(crate::specs::Reading::for_last))]
fn for_last(alloc: Global, tokens: &mut Tokens, room: u8) -> Result<Option<Action>, SyntaxError>
    ensures { Steps (spec.for_last room) tokens.old result tokens.new }
{
    if tokens.sees(Kind::RParen) {
        Ok(None)
    } else {
        Ok(Some(action(alloc, tokens, room)?))
    }
}

/// The first part of a `for` with the parenthesis before it and the semicolon behind it.
#[tactic(auto, unfolding(crate::specs::Reading::for_open))]
fn for_open(alloc: Global, tokens: &mut Tokens, room: u8) -> Result<ForFirst, SyntaxError>
    ensures { Steps (spec.for_open room) tokens.old result tokens.new }
{
    tokens.sign(Kind::LParen)?;
    let found = for_first(alloc, tokens, room)?;
    match tokens.sign(Kind::Semicolon) {
        Ok(_) => Ok(found),
        Err(error) => {
            let_go(found);
            Err(error)
        }
    }
}

/// The test of a `for` with the semicolon behind it.
#[tactic(auto, unfolding(crate::specs::Reading::for_test))]
fn for_test(alloc: Global, tokens: &mut Tokens, room: u8) -> Result<Option<Expr>, SyntaxError>
    ensures { Steps (spec.for_test room) tokens.old result tokens.new }
{
    let found = value_if(alloc, tokens, room)?;
    tokens.sign(Kind::Semicolon)?;
    Ok(found)
}

/// The last part of a `for` with the parenthesis behind it.
#[tactic(auto, unfolding(crate::specs::Reading::for_close))]
fn for_close(alloc: Global, tokens: &mut Tokens, room: u8) -> Result<Option<Action>, SyntaxError>
    ensures { Steps (spec.for_close room) tokens.old result tokens.new }
{
    let found = for_last(alloc, tokens, room)?;
    match tokens.sign(Kind::RParen) {
        Ok(_) => Ok(found),
        Err(error) => {
            let_go(found);
            Err(error)
        }
    }
}

/// The parts of a `for` behind its first one.
#[tactic(auto, unfolding(crate::specs::Reading::for_rest))]
fn for_rest(
    alloc: Global,
    tokens: &mut Tokens,
    room: u8,
    first: ForFirst,
) -> Result<ForHead, SyntaxError>
    ensures { Steps (spec.for_rest room first) tokens.old result tokens.new }
{
    let test = match for_test(alloc, tokens, room) {
        Ok(test) => test,
        Err(error) => {
            let_go(first);
            return Err(error);
        }
    };
    match for_close(alloc, tokens, room) {
        Ok(last) => Ok(ForHead { first, test, last }),
        Err(error) => {
            let_go(first);
            Err(error)
        }
    }
}

#[tactic(auto, unfolding(crate::specs::Reading::for_head))]
pub(crate) fn for_head(alloc: Global, tokens: &mut Tokens, room: u8) -> Result<ForHead, SyntaxError>
    ensures { Steps (spec.for_head room) tokens.old result tokens.new }
{
    let first = for_open(alloc, tokens, room)?;
    for_rest(alloc, tokens, room, first)
}

/// Whether a name, `.` and `class` stand next.
#[tactic(auto, unfolding(crate::specs::Reading::names_class))]
fn names_class(tokens: &Tokens) -> bool
    ensures { result ≡ spec.names_class (ahead tokens.now) }
{
    match (tokens.peek(), tokens.kind_at(1), tokens.kind_at(2)) {
        (Some(Kind::Name), Some(Kind::Dot), Some(Kind::Class)) => true,
        _ => false,
    }
}

#[tactic(auto, unfolding(crate::specs::Reading::class_monitor))]
fn class_monitor(alloc: Global, tokens: &mut Tokens) -> Result<Monitor, SyntaxError>
    ensures { Steps spec.class_monitor tokens.old result tokens.new }
{
    let name = tokens.word(alloc, Kind::Name)?;
    tokens.sign(Kind::Dot)?;
    let at = tokens.sign(Kind::Class)?;
    Ok(Monitor::Class(name, at))
}

#[tactic(auto, unfolding(crate::specs::Reading::monitor_read))]
fn monitor(alloc: Global, tokens: &mut Tokens, room: u8) -> Result<Monitor, SyntaxError>
    ensures { Steps (spec.monitor_read room) tokens.old result tokens.new }
{
    if names_class(tokens) {
        class_monitor(alloc, tokens)
    } else {
        Ok(Monitor::Expr(value(alloc, tokens, room)?))
    }
}

#[tactic(auto, unfolding(crate::specs::Reading::sync_head))]
pub(crate) fn sync_head(
    alloc: Global,
    tokens: &mut Tokens,
    room: u8,
) -> Result<Monitor, SyntaxError>
    ensures { Steps (spec.sync_head room) tokens.old result tokens.new }
{
    tokens.sign(Kind::LParen)?;
    let found = monitor(alloc, tokens, room)?;
    tokens.sign(Kind::RParen)?;
    Ok(found)
}
