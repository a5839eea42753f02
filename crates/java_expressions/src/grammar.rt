//! The productions of expressions, each a function that reads it from the tokens ahead. Those that hold
//! expressions take the reader of these as a parameter, so that each is proved by itself.

ghost use Rattle.std.specs.Prelude.{◌≡◌, ◌≤◌, ◌+◌, max, IfOk, IfErr};
ghost use Rattle.java_tree.specs.declared.kind.Kind.TheVariants as k;
ghost use Rattle.java_phrases.specs.Parser.{sees, turns};
ghost use Rattle.java_expressions.specs.Reading as spec;
ghost use Rattle.java_phrases.specs.Cursor.{ahead, from_start, Steps};
ghost use Rattle.java_expressions.specs.Nests.{Nests};

use crate::operators::{goes_on, level_of, next_operator, sign_of};
use crate::tall::{Arguments, Listed, Tall};
use desk_base::{Boxed, Items, Span};
use java_phrases::{SyntaxError, Tokens};
use java_tree::{BinaryOp, Expr, Kind, Lexeme};
use std::alloc::Global;

#[tactic(auto, unfolding(crate::specs::Reading::small))]
fn small(alloc: Global, tokens: &mut Tokens) -> Result<Tall, SyntaxError>
    ensures { Steps spec.small tokens.old result tokens.new }
{
    let number = tokens.word(alloc, Kind::IntLiteral)?;
    if number.text.as_slice() == b"2147483648".as_slice() {
        return Err(SyntaxError::NotSpelled);
    }
    Ok(Tall {
        expr: Expr::Int(number),
        height: 1,
    })
}

/// An expression that is one node.
fn leaf(expr: Expr) -> Tall
    ensures { result ≡ spec.tall expr 1 }
{
    Tall { expr, height: 1 }
}

/// The name of a class behind `new`.
#[tactic(auto, unfolding(crate::specs::Reading::class_name))]
fn class_name(alloc: Global, tokens: &mut Tokens) -> Result<Lexeme, SyntaxError>
    ensures { Steps spec.class_name tokens.old result tokens.new }
{
    let name = tokens.word(alloc, Kind::Name)?;
    if name.text.as_slice() == b"Thread".as_slice() {
        return Err(SyntaxError::NotSpelled);
    }
    Ok(name)
}

fn greater(left: usize, right: usize) -> usize
    ensures { result ≡ max left right }
{
    if left < right { right } else { left }
}

/// The height of a node over two parts of these heights.
fn above(left: usize, right: usize) -> usize
    requires left { left ≤ 255 }
    requires right { right ≤ 255 }
    ensures { result ≡ max left right + 1 }
{
    if left < right { right + 1 } else { left + 1 }
}

/// The list with one more at its end.
fn with_item(found: Listed, next: Tall) -> Result<Listed, SyntaxError>
    ensures made { IfOk result (λ made. made ≡ spec.with_item found next) }
    ensures memory { IfErr result (λ e. e ≡ SyntaxError.OutOfMemory) }
{
    let mut items = found.items;
    items.push(next.expr)?;
    Ok(Listed {
        items,
        height: greater(found.height, next.height),
    })
}

fn paren_tree(
    alloc: Global,
    opening: Span,
    inside: Tall,
    closing: Span,
) -> Result<Tall, SyntaxError>
    requires { inside.height ≤ 255 }
    ensures made { IfOk result (λ made. made ≡ spec.paren_tree opening inside closing) }
    ensures memory { IfErr result (λ e. e ≡ SyntaxError.OutOfMemory) }
{
    Ok(Tall {
        expr: Expr::Paren(opening, Boxed::new(alloc, inside.expr)?, closing),
        height: inside.height + 1,
    })
}

fn select_tree(alloc: Global, from: Tall, name: Lexeme) -> Result<Tall, SyntaxError>
    requires { from.height ≤ 255 }
    ensures made { IfOk result (λ made. made ≡ spec.select_tree from name) }
    ensures memory { IfErr result (λ e. e ≡ SyntaxError.OutOfMemory) }
{
    Ok(Tall {
        expr: Expr::Select(Boxed::new(alloc, from.expr)?, name),
        height: from.height + 1,
    })
}

/// A call on an expression of this height.
fn call_on(from: Boxed<Expr>, height: usize, name: Lexeme, arguments: Arguments) -> Tall
    requires from { height ≤ 255 }
    requires arguments { arguments.height ≤ 255 }
    ensures { result ≡ spec.call_on_tree (spec.tall from height) name arguments }
{
    Tall {
        expr: Expr::CallOn(from, name, arguments.items, arguments.closing),
        height: above(height, arguments.height),
    }
}

fn call_on_tree(
    alloc: Global,
    from: Tall,
    name: Lexeme,
    arguments: Arguments,
) -> Result<Tall, SyntaxError>
    requires from { from.height ≤ 255 }
    requires arguments { arguments.height ≤ 255 }
    ensures made { IfOk result (λ made. made ≡ spec.call_on_tree from name arguments) }
    ensures memory { IfErr result (λ e. e ≡ SyntaxError.OutOfMemory) }
{
    let height = from.height;
    let from = Boxed::new(alloc, from.expr)?;
    Ok(call_on(from, height, name, arguments))
}

fn not_tree(alloc: Global, at: Span, operand: Tall) -> Result<Tall, SyntaxError>
    requires { operand.height ≤ 255 }
    ensures made { IfOk result (λ made. made ≡ spec.not_tree at operand) }
    ensures memory { IfErr result (λ e. e ≡ SyntaxError.OutOfMemory) }
{
    Ok(Tall {
        expr: Expr::Not(at, Boxed::new(alloc, operand.expr)?),
        height: operand.height + 1,
    })
}

fn neg_tree(alloc: Global, at: Span, operand: Tall) -> Result<Tall, SyntaxError>
    requires { operand.height ≤ 255 }
    ensures made { IfOk result (λ made. made ≡ spec.neg_tree at operand) }
    ensures memory { IfErr result (λ e. e ≡ SyntaxError.OutOfMemory) }
{
    Ok(Tall {
        expr: Expr::Neg(at, Boxed::new(alloc, operand.expr)?),
        height: operand.height + 1,
    })
}

fn binary_tree(
    alloc: Global,
    left: Tall,
    operator: BinaryOp,
    at: Span,
    right: Tall,
) -> Result<Tall, SyntaxError>
    requires left { left.height ≤ 255 }
    requires right { right.height ≤ 255 }
    ensures made { IfOk result (λ made. made ≡ spec.binary_tree left operator at right) }
    ensures memory { IfErr result (λ e. e ≡ SyntaxError.OutOfMemory) }
{
    let height = above(left.height, right.height);
    let left = Boxed::new(alloc, left.expr)?;
    let right = Boxed::new(alloc, right.expr)?;
    Ok(Tall {
        expr: Expr::Binary(left, operator, at, right),
        height,
    })
}

/// The productions, where so many nodes are left for a path through an operand.
#[derive(Clone, Copy)]
pub(crate) struct Grammar<F> {
    pub(crate) alloc: Global,
    pub(crate) room: u8,
    pub(crate) expr: F,
}

impl<F: Fn(Global, &mut Tokens, u8, u8) -> Result<Tall, SyntaxError>> Grammar<F> {
    /// An operand of the level or a tighter one.
    fn inner(&self, tokens: &mut Tokens, least: u8) -> Result<Tall, SyntaxError>
        requires nests { Nests self.now.room (F.pre self.now.expr) (F.post self.now.expr) }
        requires level { least ≤ 7 }
        ensures reads { Steps (spec.expr self.now.room least) tokens.old result tokens.new }
        ensures low { IfOk result (λ y. y.height ≤ 255) }
    {
        let room = self.room;
        (self.expr)(self.alloc, tokens, room, least)
    }

    #[tactic(auto, unfolding(crate::specs::Reading::one_more))]
    fn one_more(&self, tokens: &mut Tokens, found: Listed) -> Result<Listed, SyntaxError>
        requires { Nests self.now.room (F.pre self.now.expr) (F.post self.now.expr) }
        ensures { Steps (spec.one_more (spec.expr self.now.room) found) tokens.old result tokens.new }
    {
        tokens.sign(Kind::Comma)?;
        let next = self.inner(tokens, 1)?;
        with_item(found, next)
    }

    #[tactic(auto, unfolding(crate::specs::Reading::some_items))]
    fn some_items(&self, tokens: &mut Tokens) -> Result<Listed, SyntaxError>
        requires { Nests self.now.room (F.pre self.now.expr) (F.post self.now.expr) }
        ensures { Steps (spec.some_items (spec.expr self.now.room)) tokens.old result tokens.new }
    {
        let none = Listed {
            items: Items::new(self.alloc),
            height: 0,
        };
        let first = self.inner(tokens, 1)?;
        let one = with_item(none, first)?;
        self.more_items(tokens, one)
    }

    fn more_items(&self, tokens: &mut Tokens, found: Listed) -> Result<Listed, SyntaxError>
        requires { Nests self.now.room (F.pre self.now.expr) (F.post self.now.expr) }
        ensures { Steps (turns (sees k.Comma) (spec.one_more (spec.expr self.now.room)) found) tokens.old result tokens.new }
    {
        let mut found = found;
        'more: while tokens.sees(Kind::Comma) {
            found = self.one_more(tokens, found)?;
        }
        Ok(found)
    }

    #[tactic(auto, unfolding(crate::specs::Reading::arguments))]
    fn arguments(&self, tokens: &mut Tokens) -> Result<Arguments, SyntaxError>
        requires { Nests self.now.room (F.pre self.now.expr) (F.post self.now.expr) }
        ensures { Steps (spec.arguments (spec.expr self.now.room)) tokens.old result tokens.new }
    {
        tokens.sign(Kind::LParen)?;
        let found = if tokens.sees(Kind::RParen) {
            Listed {
                items: Items::new(self.alloc),
                height: 0,
            }
        } else {
            self.some_items(tokens)?
        };
        let closing = tokens.sign(Kind::RParen)?;
        Ok(Arguments {
            items: found.items,
            height: found.height,
            closing,
        })
    }

    /// Arguments, whose heights leave room for a node above them.
    fn low_arguments(&self, tokens: &mut Tokens) -> Result<Arguments, SyntaxError>
        requires { Nests self.now.room (F.pre self.now.expr) (F.post self.now.expr) }
        ensures reads { Steps (spec.arguments (spec.expr self.now.room)) tokens.old result tokens.new }
        ensures low { IfOk result (λ a. a.height ≤ 255) }
    {
        let _room = self.room;
        self.arguments(tokens)
    }

    /// A name, or a call of one.
    #[tactic(auto, unfolding(crate::specs::Reading::named))]
    fn named(&self, tokens: &mut Tokens) -> Result<Tall, SyntaxError>
        requires { Nests self.now.room (F.pre self.now.expr) (F.post self.now.expr) }
        ensures { Steps (spec.named (spec.expr self.now.room)) tokens.old result tokens.new }
    {
        let name = tokens.word(self.alloc, Kind::Name)?;
        if tokens.sees(Kind::LParen) {
            let arguments = self.low_arguments(tokens)?;
            Ok(Tall {
                expr: Expr::Call(name, arguments.items, arguments.closing),
                height: arguments.height + 1,
            })
        } else {
            Ok(Tall {
                expr: Expr::Name(name),
                height: 1,
            })
        }
    }

    #[tactic(auto, unfolding(crate::specs::Reading::created))]
    fn created(&self, tokens: &mut Tokens) -> Result<Tall, SyntaxError>
        requires { Nests self.now.room (F.pre self.now.expr) (F.post self.now.expr) }
        ensures { Steps (spec.created (spec.expr self.now.room)) tokens.old result tokens.new }
    {
        let at = tokens.sign(Kind::New)?;
        let name = class_name(self.alloc, tokens)?;
        let arguments = self.low_arguments(tokens)?;
        Ok(Tall {
            expr: Expr::New(at, name, arguments.items, arguments.closing),
            height: arguments.height + 1,
        })
    }

    #[tactic(auto, unfolding(crate::specs::Reading::parenthesized))]
    fn parenthesized(&self, tokens: &mut Tokens) -> Result<Tall, SyntaxError>
        requires { Nests self.now.room (F.pre self.now.expr) (F.post self.now.expr) }
        ensures { Steps (spec.parenthesized (spec.expr self.now.room)) tokens.old result tokens.new }
    {
        let opening = tokens.sign(Kind::LParen)?;
        let inside = self.inner(tokens, 1)?;
        let closing = tokens.sign(Kind::RParen)?;
        paren_tree(self.alloc, opening, inside, closing)
    }

    #[tactic(auto, unfolding(crate::specs::Reading::primary))]
    fn primary(&self, tokens: &mut Tokens) -> Result<Tall, SyntaxError>
        requires { Nests self.now.room (F.pre self.now.expr) (F.post self.now.expr) }
        ensures { Steps (spec.primary (spec.expr self.now.room)) tokens.old result tokens.new }
    {
        match tokens.peek() {
            Some(Kind::IntLiteral) => small(self.alloc, tokens),
            Some(Kind::Name) => self.named(tokens),
            Some(Kind::New) => self.created(tokens),
            Some(Kind::LParen) => self.parenthesized(tokens),
            Some(Kind::StrLiteral) => Ok(leaf(Expr::Str(tokens.word(
                self.alloc,
                Kind::StrLiteral,
            )?))),
            Some(Kind::True) => Ok(leaf(Expr::True(tokens.sign(Kind::True)?))),
            Some(Kind::False) => Ok(leaf(Expr::False(tokens.sign(Kind::False)?))),
            Some(Kind::Null) => Ok(leaf(Expr::Null(tokens.sign(Kind::Null)?))),
            Some(Kind::This) => Ok(leaf(Expr::This(tokens.sign(Kind::This)?))),
            _ => Err(SyntaxError::NotSpelled),
        }
    }

    /// A selection of the expression, or a call on it.
    #[tactic(auto, unfolding(crate::specs::Reading::selection))]
    fn selection(&self, tokens: &mut Tokens, from: Tall) -> Result<Tall, SyntaxError>
        requires { Nests self.now.room (F.pre self.now.expr) (F.post self.now.expr) }
        ensures { Steps (spec.selection (spec.expr self.now.room) self.now.room from) tokens.old result tokens.new }
    {
        if from.height > self.room as usize {
            return Err(SyntaxError::NotSpelled);
        }
        tokens.sign(Kind::Dot)?;
        let name = tokens.word(self.alloc, Kind::Name)?;
        if tokens.sees(Kind::LParen) {
            let arguments = self.low_arguments(tokens)?;
            call_on_tree(self.alloc, from, name, arguments)
        } else {
            select_tree(self.alloc, from, name)
        }
    }

    fn selections(&self, tokens: &mut Tokens, from: Tall) -> Result<Tall, SyntaxError>
        requires { Nests self.now.room (F.pre self.now.expr) (F.post self.now.expr) }
        ensures { Steps (turns (sees k.Dot) (spec.selection (spec.expr self.now.room) self.now.room) from) tokens.old result tokens.new }
    {
        let mut from = from;
        'more: while tokens.sees(Kind::Dot) {
            from = self.selection(tokens, from)?;
        }
        Ok(from)
    }

    #[tactic(auto, unfolding(crate::specs::Reading::post))]
    fn post(&self, tokens: &mut Tokens) -> Result<Tall, SyntaxError>
        requires { Nests self.now.room (F.pre self.now.expr) (F.post self.now.expr) }
        ensures { Steps (spec.post (spec.expr self.now.room) self.now.room) tokens.old result tokens.new }
    {
        let first = self.primary(tokens)?;
        self.selections(tokens, first)
    }

    #[tactic(auto, unfolding(crate::specs::Reading::inverted))]
    fn inverted(&self, tokens: &mut Tokens) -> Result<Tall, SyntaxError>
        requires { Nests self.now.room (F.pre self.now.expr) (F.post self.now.expr) }
        ensures { Steps (spec.inverted (spec.expr self.now.room) self.now.room) tokens.old result tokens.new }
    {
        let at = tokens.sign(Kind::Not)?;
        let operand = self.inner(tokens, 7)?;
        not_tree(self.alloc, at, operand)
    }

    /// 2147483648, behind a minus.
    #[tactic(auto, unfolding(crate::specs::Reading::smallest))]
    fn smallest(&self, tokens: &mut Tokens, at: Span) -> Result<Tall, SyntaxError>
        ensures { Steps (spec.smallest (spec.expr self.now.room) self.now.room at) tokens.old result tokens.new }
    {
        if self.room == 0 {
            return Err(SyntaxError::NotSpelled);
        }
        let number = Tall {
            expr: Expr::Int(tokens.word(self.alloc, Kind::IntLiteral)?),
            height: 1,
        };
        neg_tree(self.alloc, at, number)
    }

    #[tactic(auto, unfolding(crate::specs::Reading::negated))]
    fn negated(&self, tokens: &mut Tokens) -> Result<Tall, SyntaxError>
        requires { Nests self.now.room (F.pre self.now.expr) (F.post self.now.expr) }
        ensures { Steps (spec.negated (spec.expr self.now.room) self.now.room) tokens.old result tokens.new }
    {
        let at = tokens.sign(Kind::Minus)?;
        if tokens.sees_text(Kind::IntLiteral, b"2147483648".as_slice()) {
            return self.smallest(tokens, at);
        }
        let positive = self.inner(tokens, 7)?;
        neg_tree(self.alloc, at, positive)
    }

    #[tactic(auto, unfolding(crate::specs::Reading::unary))]
    fn unary(&self, tokens: &mut Tokens) -> Result<Tall, SyntaxError>
        requires { Nests self.now.room (F.pre self.now.expr) (F.post self.now.expr) }
        ensures { Steps (spec.unary (spec.expr self.now.room) self.now.room) tokens.old result tokens.new }
    {
        match tokens.peek() {
            Some(Kind::Not) => self.inverted(tokens),
            Some(Kind::Minus) => self.negated(tokens),
            _ => self.post(tokens),
        }
    }

    #[tactic(auto, unfolding(crate::specs::Reading::operation))]
    fn operation(
        &self,
        tokens: &mut Tokens,
        left: Tall,
        operator: BinaryOp,
    ) -> Result<Tall, SyntaxError>
        requires { Nests self.now.room (F.pre self.now.expr) (F.post self.now.expr) }
        ensures { Steps (spec.operation (spec.expr self.now.room) self.now.room left operator) tokens.old result tokens.new }
    {
        if left.height > self.room as usize {
            return Err(SyntaxError::NotSpelled);
        }
        let at = tokens.sign(sign_of(operator))?;
        let right = self.inner(tokens, level_of(operator) + 1)?;
        binary_tree(self.alloc, left, operator, at, right)
    }

    /// The operators of the level and tighter ones that follow the expression.
    fn operations(&self, tokens: &mut Tokens, least: u8, left: Tall) -> Result<Tall, SyntaxError>
        requires { Nests self.now.room (F.pre self.now.expr) (F.post self.now.expr) }
        ensures { Steps (turns (spec.climbs least) (spec.climb (spec.expr self.now.room) self.now.room least) left) tokens.old result tokens.new }
    {
        let mut left = left;
        'more: while let Some(operator) = next_operator(tokens, least) {
            left = self.operation(tokens, left, operator)?;
        }
        Ok(left)
    }

    #[tactic(auto, unfolding(crate::specs::Reading::level))]
    fn level(&self, tokens: &mut Tokens, least: u8) -> Result<Tall, SyntaxError>
        requires { Nests self.now.room (F.pre self.now.expr) (F.post self.now.expr) }
        ensures { Steps (spec.level (spec.expr self.now.room) self.now.room least) tokens.old result tokens.new }
    {
        let first = self.unary(tokens)?;
        self.operations(tokens, least, first)
    }
}

/// An expression of the level or a tighter one, with at most `limit` nodes on a path, and its height.
/// For readers that are proved against parsers.
pub fn expr(alloc: Global, tokens: &mut Tokens, limit: u8, least: u8) -> Result<Tall, SyntaxError>
    ensures { Steps (spec.expr limit least) tokens.old result tokens.new }
{
    if limit == 0 {
        return Err(SyntaxError::NotSpelled);
    }
    Grammar {
        alloc,
        room: limit - 1,
        expr,
    }
    .level(tokens, least)
}

/// An expression without an operator, with at most `limit` nodes on a path, and its height. For readers
/// that are proved against parsers.
pub fn post_read(alloc: Global, tokens: &mut Tokens, limit: u8) -> Result<Tall, SyntaxError>
    ensures { Steps (spec.post_read limit) tokens.old result tokens.new }
{
    if limit == 0 {
        return Err(SyntaxError::NotSpelled);
    }
    Grammar {
        alloc,
        room: limit - 1,
        expr,
    }
    .post(tokens)
}

/// A whole expression, behind which no sign stands by which it would go on.
pub(crate) fn ended_expr(alloc: Global, tokens: &mut Tokens, limit: u8) -> Result<Expr, SyntaxError>
    ensures { Steps (spec.ended (spec.expr limit 1)) tokens.old result tokens.new }
{
    let read = expr(alloc, tokens, limit, 1)?;
    if goes_on(tokens) {
        return Err(SyntaxError::NotSpelled);
    }
    Ok(read.expr)
}

/// The same of an expression without an operator.
pub(crate) fn ended_post(alloc: Global, tokens: &mut Tokens, limit: u8) -> Result<Expr, SyntaxError>
    ensures { Steps (spec.ended (spec.post_read limit)) tokens.old result tokens.new }
{
    let read = post_read(alloc, tokens, limit)?;
    if goes_on(tokens) {
        return Err(SyntaxError::NotSpelled);
    }
    Ok(read.expr)
}
