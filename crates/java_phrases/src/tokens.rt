//! A cursor over the tokens of a file. It moves each token that is read to the part at hand.

ghost use Rattle.std.specs.Prelude.{◌≡◌, [], ◌∷◌, ◌++◌, reverse, IfOk, OnOk, MatchOption};
ghost use Rattle.std.specs.List.{slice_get};
ghost use Rattle.std.specs.Option.{option_copied};
ghost use Rattle.java_phrases.specs.Parser as spec;

use crate::error::SyntaxError;
use desk_base::{Items, Name, OutOfMemory, Span};
use java_tree::{Kind, Lexeme, Token};
use std::alloc::Global;

/// The tokens that are still to be read, and those of the part at hand that were.
#[derive(Drop)]
pub struct Tokens {
    /// The tokens ahead, the next one last.
    stack: Items<Token>,
    taken: Items<Token>,
}

fn reversed(alloc: Global, tokens: Items<Token>) -> Result<Items<Token>, OutOfMemory>
    ensures { IfOk result (λ turned. turned ≡ reverse tokens) }
{
    let mut tokens = tokens;
    let mut turned = Items::new(alloc);
    while let Some(token) = tokens.pop() {
        turned.push(token)?;
    }
    Ok(turned)
}

impl Tokens {
    ghost use Rattle.java_phrases.specs.Cursor.{ahead, from_start, Steps};

    /// A cursor at the first of the tokens.
    pub fn new(alloc: Global, tokens: Items<Token>) -> Result<Tokens, OutOfMemory>
        ensures ahead { IfOk result (λ made. ahead made ≡ tokens) }
        ensures taken { IfOk result (λ made. made.taken ≡ []) }
    {
        Ok(Tokens {
            stack: reversed(alloc, tokens)?,
            taken: Items::new(alloc),
        })
    }

    #[tactic(auto, using(crate::proofs::Turned::first_reverse))]
    fn first(&self) -> Option<&Token>
        ensures { option_copied result ≡ spec.first (ahead self.now) }
    {
        self.stack.as_slice().last()
    }

    /// Takes the next token, which then belongs to no part.
    #[tactic(auto, using(crate::proofs::Turned::reverse_push))]
    fn take(&mut self) -> Option<Token>
        ensures token { MatchOption result (ahead self.old ≡ []) (λ token. ahead self.old ≡ token ∷ ahead self.new) }
        ensures taken { self.new.taken ≡ self.old.taken }
    {
        self.stack.pop()
    }

    /// The kind of the next token, if there is one.
    #[tactic(auto, unfolding(crate::specs::Parser::next_kind))]
    pub fn peek(&self) -> Option<Kind>
        ensures { result ≡ spec.next_kind (ahead self.now) }
    {
        match self.first() {
            Some(token) => Some(token.kind),
            None => None,
        }
    }

    /// The place where the next token begins, a byte's offset from 0, if there is one.
    #[tactic(auto, unfolding(crate::specs::Parser::next_start))]
    pub fn next_start(&self) -> Option<u32>
        ensures { result ≡ spec.next_start (ahead self.now) }
    {
        match self.first() {
            Some(token) => Some(token.span.start),
            None => None,
        }
    }

    /// Whether the next token is of this kind.
    #[tactic(auto, unfolding(crate::specs::Parser::sees))]
    pub fn sees(&self, kind: Kind) -> bool
        ensures { result ≡ spec.sees kind (ahead self.now) }
    {
        match self.first() {
            Some(token) => token.kind == kind,
            None => false,
        }
    }

    /// Reads a token of this kind, and answers where it stands. A token of another kind stays ahead.
    #[tactic(auto, unfolding(crate::specs::Parser::sign))]
    pub fn sign(&mut self, kind: Kind) -> Result<Span, SyntaxError>
        ensures { Steps (spec.sign kind) self.old result self.new }
    {
        if !self.sees(kind) {
            return Err(SyntaxError::NotSpelled);
        }
        let Some(token) = self.take() else {
            return Err(SyntaxError::NotSpelled);
        };
        let span = token.span;
        self.taken.push(token)?;
        Ok(span)
    }

    /// Reads a name or a literal. A token of another kind stays ahead.
    #[tactic(auto, unfolding(crate::specs::Parser::word))]
    pub fn word(&mut self, alloc: Global, kind: Kind) -> Result<Lexeme, SyntaxError>
        ensures { Steps (spec.word kind) self.old result self.new }
    {
        if !self.sees(kind) {
            return Err(SyntaxError::NotSpelled);
        }
        let Some(token) = self.take() else {
            return Err(SyntaxError::NotSpelled);
        };
        let name = Name::from_slice(alloc, token.bytes.as_slice())?;
        let word = Lexeme {
            text: name,
            span: token.span,
        };
        self.taken.push(token)?;
        Ok(word)
    }

    /// Whether the next token is of this kind and written so.
    #[tactic(auto, unfolding(crate::specs::Parser::sees_text))]
    pub fn sees_text(&self, kind: Kind, text: &[u8]) -> bool
        ensures { result ≡ spec.sees_text kind text.now (ahead self.now) }
    {
        match self.first() {
            Some(token) => token.kind == kind && token.bytes.as_slice() == text,
            None => false,
        }
    }

    /// The token behind so many others that are still to be read.
    fn behind(&self, others: usize) -> Option<&Token>
        ensures { option_copied result ≡ slice_get (ahead self.now) others }
    {
        let tokens = self.stack.as_slice();
        if others >= tokens.len() {
            return None;
        }
        tokens.get(tokens.len() - 1 - others)
    }

    /// The kind of the token behind so many others, if there are so many.
    #[tactic(auto, unfolding(crate::specs::Parser::kind_at))]
    pub fn kind_at(&self, others: usize) -> Option<Kind>
        ensures { result ≡ spec.kind_at others (ahead self.now) }
    {
        match self.behind(others) {
            Some(token) => Some(token.kind),
            None => None,
        }
    }

    /// Whether the token behind so many others is of this kind and written so.
    #[tactic(auto, unfolding(crate::specs::Parser::text_at))]
    pub fn text_at(&self, others: usize, kind: Kind, text: &[u8]) -> bool
        ensures { result ≡ spec.text_at others kind text.now (ahead self.now) }
    {
        let Some(token) = self.behind(others) else {
            return false;
        };
        let same = token.kind == kind;
        same && token.bytes.as_slice() == text
    }

    /// The tokens of the part at hand; the next part begins with the next token.
    pub fn keep(&mut self, alloc: Global) -> Items<Token>
        ensures kept { result ≡ self.old.taken }
        ensures stack { self.new.stack ≡ self.old.stack }
        ensures taken { self.new.taken ≡ [] }
    {
        std::mem::replace(&mut self.taken, Items::new(alloc))
    }
}
