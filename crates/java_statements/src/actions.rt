//! Actions: assignments, steps, calls, `new` and starts of threads, each without its semicolon.

ghost use Rattle.std.specs.Prelude.{◌≡◌, ◌<◌};
ghost use Rattle.java_tree.specs.declared.expr.Expr.{out-Expr};
ghost use Rattle.java_statements.specs.Spelling as spelling;
ghost use Rattle.java_statements.specs.Reading as spec;
ghost use Rattle.java_phrases.specs.Cursor.{ahead, Steps};

use desk_base::Span;
use java_expressions::{Tall, expr, post_read};
use java_phrases::{SyntaxError, Tokens};
use java_tree::{Action, AssignOp, Expr, Kind, StepOp};
use std::alloc::Global;

fn sign_of_assign(op: AssignOp) -> Kind
    ensures { result ≡ spelling.sign_of_assign op }
{
    match op {
        AssignOp::Set => Kind::Assign,
        AssignOp::Add => Kind::AddAssign,
        AssignOp::Subtract => Kind::SubtractAssign,
    }
}

fn sign_of_step(op: StepOp) -> Kind
    ensures { result ≡ spelling.sign_of_step op }
{
    match op {
        StepOp::Increment => Kind::Increment,
        StepOp::Decrement => Kind::Decrement,
    }
}

/// The name that is written so.
#[tactic(auto, unfolding(crate::specs::Reading::named))]
fn named(tokens: &mut Tokens, text: &[u8]) -> Result<Span, SyntaxError>
    ensures { Steps (spec.named text.now) tokens.old result tokens.new }
{
    if !tokens.sees_text(Kind::Name, text) {
        return Err(SyntaxError::NotSpelled);
    }
    tokens.sign(Kind::Name)
}

/// An expression with at most `room` nodes on a path.
#[tactic(auto, unfolding(crate::specs::Reading::value))]
pub(crate) fn value(alloc: Global, tokens: &mut Tokens, room: u8) -> Result<Expr, SyntaxError>
    ensures { Steps (spec.value room) tokens.old result tokens.new }
{
    let found = expr(alloc, tokens, room, 1)?;
    Ok(found.expr)
}

/// An expression in parentheses.
#[tactic(auto, unfolding(crate::specs::Reading::condition))]
pub(crate) fn condition(alloc: Global, tokens: &mut Tokens, room: u8) -> Result<Expr, SyntaxError>
    ensures { Steps (spec.condition room) tokens.old result tokens.new }
{
    tokens.sign(Kind::LParen)?;
    let found = value(alloc, tokens, room)?;
    tokens.sign(Kind::RParen)?;
    Ok(found)
}

/// Whether it is a name, or a selection with at most `room` nodes on a path.
#[tactic(auto, unfolding(crate::specs::Reading::is_target))]
fn is_target(found: &Tall, room: u8) -> bool
    ensures { result ≡ spec.is_target room found.now }
{
    match found.expr {
        Expr::Name(_) => true,
        Expr::Select(_, _) => found.height <= room as usize,
        _ => false,
    }
}

#[tactic(auto, unfolding(crate::specs::Reading::target))]
fn target(alloc: Global, tokens: &mut Tokens, room: u8) -> Result<Expr, SyntaxError>
    requires { room < 255 }
    ensures { Steps (spec.target room) tokens.old result tokens.new }
{
    let found = post_read(alloc, tokens, room + 1)?;
    if !is_target(&found, room) {
        return Err(SyntaxError::NotSpelled);
    }
    Ok(found.expr)
}

#[tactic(auto, unfolding(crate::specs::Reading::assigned))]
fn assigned(
    alloc: Global,
    tokens: &mut Tokens,
    room: u8,
    target: Tall,
    op: AssignOp,
) -> Result<Action, SyntaxError>
    ensures { Steps (spec.assigned room target op) tokens.old result tokens.new }
{
    if !is_target(&target, room) {
        return Err(SyntaxError::NotSpelled);
    }
    let at = tokens.sign(sign_of_assign(op))?;
    let found = value(alloc, tokens, room)?;
    Ok(Action::Assign(target.expr, op, at, found))
}

#[tactic(auto, unfolding(crate::specs::Reading::stepped))]
fn stepped(tokens: &mut Tokens, room: u8, target: Tall, op: StepOp) -> Result<Action, SyntaxError>
    ensures { Steps (spec.stepped room target op) tokens.old result tokens.new }
{
    if !is_target(&target, room) {
        return Err(SyntaxError::NotSpelled);
    }
    let at = tokens.sign(sign_of_step(op))?;
    Ok(Action::StepAfter(target.expr, op, at))
}

/// A call or a `new`.
#[tactic(auto, unfolding(crate::specs::Reading::called))]
fn called(tokens: &mut Tokens, found: Expr) -> Result<Action, SyntaxError>
    ensures { Steps (spec.called found) tokens.old result tokens.new }
{
    match found {
        Expr::Call(_, _, _) | Expr::CallOn(_, _, _, _) => Ok(Action::Call(found)),
        Expr::New(_, _, _, _) => Ok(Action::New(found)),
        _ => Err(SyntaxError::NotSpelled),
    }
}

/// An action that begins with an expression.
#[tactic(auto, unfolding(crate::specs::Reading::posted))]
fn posted(alloc: Global, tokens: &mut Tokens, room: u8) -> Result<Action, SyntaxError>
    requires { room < 255 }
    ensures { Steps (spec.posted room) tokens.old result tokens.new }
{
    let found = post_read(alloc, tokens, room + 1)?;
    match tokens.peek() {
        Some(Kind::Assign) => assigned(alloc, tokens, room, found, AssignOp::Set),
        Some(Kind::AddAssign) => assigned(alloc, tokens, room, found, AssignOp::Add),
        Some(Kind::SubtractAssign) => assigned(alloc, tokens, room, found, AssignOp::Subtract),
        Some(Kind::Increment) => stepped(tokens, room, found, StepOp::Increment),
        Some(Kind::Decrement) => stepped(tokens, room, found, StepOp::Decrement),
        _ => called(tokens, found.expr),
    }
}

#[tactic(auto, unfolding(crate::specs::Reading::step_before))]
fn step_before(
    alloc: Global,
    tokens: &mut Tokens,
    room: u8,
    op: StepOp,
) -> Result<Action, SyntaxError>
    requires { room < 255 }
    ensures { Steps (spec.step_before room op) tokens.old result tokens.new }
{
    let at = tokens.sign(sign_of_step(op))?;
    let found = target(alloc, tokens, room)?;
    Ok(Action::StepBefore(at, op, found))
}

/// `.start()` behind the thread that is made of an expression.
fn start_called(tokens: &mut Tokens, at: Span, started: Expr) -> Result<Action, SyntaxError>
    ensures { Steps (spec.start_called at started) tokens.old result tokens.new }
{
    tokens.sign(Kind::Dot)?;
    named(tokens, b"start".as_slice())?;
    tokens.sign(Kind::LParen)?;
    let closing = tokens.sign(Kind::RParen)?;
    Ok(Action::Start(at, started, closing))
}

/// `new Thread(e).start()`
#[tactic(auto, unfolding(crate::specs::Reading::start))]
fn start(alloc: Global, tokens: &mut Tokens, room: u8) -> Result<Action, SyntaxError>
    ensures { Steps (spec.start room) tokens.old result tokens.new }
{
    let at = tokens.sign(Kind::New)?;
    named(tokens, b"Thread".as_slice())?;
    let started = condition(alloc, tokens, room)?;
    start_called(tokens, at, started)
}

/// An action, where `room` nodes are left for a path through a part of it.
#[tactic(auto, unfolding(crate::specs::Reading::action_within))]
pub(crate) fn action_within(
    alloc: Global,
    tokens: &mut Tokens,
    room: u8,
) -> Result<Action, SyntaxError>
    requires { room < 255 }
    ensures { Steps (spec.action_within room) tokens.old result tokens.new }
{
    match tokens.peek() {
        Some(Kind::Increment) => step_before(alloc, tokens, room, StepOp::Increment),
        Some(Kind::Decrement) => step_before(alloc, tokens, room, StepOp::Decrement),
        Some(Kind::New) => {
            if tokens.text_at(1, Kind::Name, b"Thread".as_slice()) {
                start(alloc, tokens, room)
            } else {
                posted(alloc, tokens, room)
            }
        }
        _ => posted(alloc, tokens, room),
    }
}

/// An action with at most `limit` nodes on a path.
pub(crate) fn action(alloc: Global, tokens: &mut Tokens, limit: u8) -> Result<Action, SyntaxError>
    ensures { Steps (spec.action_read limit) tokens.old result tokens.new }
{
    if limit == 0 {
        return Err(SyntaxError::NotSpelled);
    }
    action_within(alloc, tokens, limit - 1)
}
