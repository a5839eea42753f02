ghost use Rattle.std.specs.Prelude.{◌≡◌, ◌≤◌, length, false, Ok, Err, MatchResult};
ghost use Rattle.std.specs.List.{prefix_len};
ghost use Rattle.promise_grammar.specs.Word as spec;
ghost use Rattle.promise_grammar.specs.Piece.{cut, begins_blank};
ghost use Rattle.promise_grammar.specs.Cursor.{in_front};
ghost use Rattle.promise_grammar.specs.Outcome as read;
ghost use Rattle.promise_grammar.specs.Outcome.{Found, Lost, Reads, after, eaten};
ghost use Rattle.promise_grammar.specs.declared.error.PromiseError.TheVariants.{Grammar};

use crate::error::PromiseError;
use crate::word::{is_blank, is_word_byte};
use std::marker::Model;

/// The piece at which a cursor stands.
#[derive(Clone, Copy)]
pub enum Front<'a> {
    Word(&'a [u8]),
    Sign(u8),
    End,
}

/// A cursor over the pieces of a content. Contracts see the pieces from where it stands.
#[derive(Drop)]
pub struct Pieces<'a> {
    front: Front<'a>,
    rest: &'a [u8],
}

impl<'a> Model for Pieces<'a> {
    ghost use Rattle.std.specs.Prelude.{List};
    ghost use Rattle.promise_grammar.specs.Piece.{Piece};

    ghost Value = { List Piece };

    ghost use Rattle.promise_grammar.specs.Cursor.{pieces_of};

    ghost view = { pieces_of };
}

/// How many blanks the front has.
fn blanks_len(bytes: &[u8]) -> usize
    ensures value { result ≡ prefix_len spec.is_blank bytes.now }
    ensures within { result ≤ length bytes.now }
{
    let mut len = 0;
    while len < bytes.len() && is_blank(bytes[len]) {
        len += 1;
    }
    len
}

/// How many bytes of a word the front has.
fn word_len(bytes: &[u8]) -> usize
    ensures value { result ≡ prefix_len spec.is_word_byte bytes.now }
    ensures within { result ≤ length bytes.now }
{
    let mut len = 0;
    while len < bytes.len() && is_word_byte(bytes[len]) {
        len += 1;
    }
    len
}

/// The bytes from the first one that is no blank.
fn without_blanks(bytes: &[u8]) -> &[u8]
    ensures same { cut result.now ≡ cut bytes.now }
    ensures first { begins_blank result.now ≡ false }
{
    &bytes[blanks_len(bytes)..]
}

/// The first piece, and the bytes after it.
fn first_piece(bytes: &[u8]) -> (Front<'_>, &[u8])
    ensures { cut bytes.now ≡ in_front result.0 (cut result.1.now) }
{
    let bytes = without_blanks(bytes);
    let len = word_len(bytes);
    if len > 0 {
        (Front::Word(&bytes[..len]), &bytes[len..])
    } else if bytes.is_empty() {
        (Front::End, bytes)
    } else {
        (Front::Sign(bytes[0]), &bytes[1..])
    }
}

impl<'a> Pieces<'a> {
    /// A cursor at the first piece.
    pub fn new(bytes: &'a [u8]) -> Pieces<'a>
        ensures { result ≡ cut bytes.now }
    {
        let (front, rest) = first_piece(bytes);
        Pieces { front, rest }
    }

    fn advance(&mut self)
        ensures { self.new ≡ after self.old }
    {
        if let Front::End = self.front {
            return;
        }
        let (front, rest) = first_piece(self.rest);
        self.front = front;
        self.rest = rest;
    }

    pub fn is_over(&self) -> bool
        ensures { result ≡ read.is_over self.now }
    {
        matches!(self.front, Front::End)
    }

    fn sees_word(&self, word: &[u8]) -> bool
        ensures { result ≡ read.sees_word word.now self.now }
    {
        match self.front {
            Front::Word(front) => front == word,
            _ => false,
        }
    }

    fn sees_sign(&self, sign: u8) -> bool
        ensures { result ≡ read.sees_sign sign self.now }
    {
        match self.front {
            Front::Sign(front) => front == sign,
            _ => false,
        }
    }

    /// Takes any word.
    pub fn word(&mut self) -> Result<&'a [u8], PromiseError>
        ensures { MatchResult result (λ w. read.word self.old ≡ Found w.now self.new)
            (λ e. (e ≡ Grammar) × (read.word self.old ≡ Lost)) }
    {
        match self.front {
            Front::Word(word) => {
                self.advance();
                Ok(word)
            }
            _ => Err(PromiseError::Grammar),
        }
    }

    /// Takes this word, if it comes next.
    pub fn eat_word(&mut self, word: &[u8]) -> bool
        ensures found { result ≡ read.sees_word word.now self.old }
        ensures rest { self.new ≡ eaten (read.sees_word word.now self.old) self.old }
    {
        let found = self.sees_word(word);
        if found {
            self.advance();
        }
        found
    }

    /// Takes this sign, if it comes next.
    pub fn eat_sign(&mut self, sign: u8) -> bool
        ensures found { result ≡ read.sees_sign sign self.old }
        ensures rest { self.new ≡ eaten (read.sees_sign sign self.old) self.old }
    {
        let found = self.sees_sign(sign);
        if found {
            self.advance();
        }
        found
    }

    /// Takes this word, which has to come next.
    pub fn expect_word(&mut self, word: &[u8]) -> Result<(), PromiseError>
        ensures { Reads (read.expect_word word.now self.old) result self.new }
    {
        if self.eat_word(word) {
            Ok(())
        } else {
            Err(PromiseError::Grammar)
        }
    }

    /// Takes this sign, which has to come next.
    pub fn expect_sign(&mut self, sign: u8) -> Result<(), PromiseError>
        ensures { Reads (read.expect_sign sign self.old) result self.new }
    {
        if self.eat_sign(sign) {
            Ok(())
        } else {
            Err(PromiseError::Grammar)
        }
    }

    /// Nothing may come next.
    pub fn expect_end(&self) -> Result<(), PromiseError>
        ensures { Reads (read.expect_end self.now) result self.now }
    {
        if self.is_over() {
            Ok(())
        } else {
            Err(PromiseError::Grammar)
        }
    }
}
