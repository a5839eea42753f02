ghost use Rattle.std.specs.Prelude.{◌≡◌, ◌+◌, ◌<◌, ◌≤◌, ◌^◌, ℕ, List, length, take, drop, IfOk, IfErr};
ghost use Rattle.java_tree.specs.declared.token.Token.{Token};
ghost use Rattle.java_lexer.specs.Lexing.{Lexes, LexAt, CutTo, token_at};
ghost use Rattle.java_lexer.specs.Answers.{IsPlaceOf, IsStuck, GivesTokens, GivesPlace};

use crate::error::LexError;
use crate::front::{Front, front_of};
use desk_base::{Bytes, Items, OutOfMemory, Span};
use java_tree::{Kind, Token};
use std::alloc::Global;
use std::str;

/// The tokens of a text, in order. `Lex` names the first byte of the first ill-formed UTF-8 sequence
/// if there is one, else the first byte where no blank, comment or token begins (JLS 8, 3.2 to 3.12).
pub fn lex(alloc: Global, text: &[u8]) -> Result<Items<Token>, LexError>
    requires { length text.now < 2 ^ 32 }
    ensures found { IfOk result (Lexes text.now) }
    ensures place { IfErr result (IsPlaceOf text.now) }
    ensures only { (tokens : List Token) → Lexes text.now tokens → GivesTokens result tokens }
    ensures only_place { (at : ℕ) → LexAt text.now at → GivesPlace result at }
{
    match str::from_utf8(text) {
        Ok(_) => cut(alloc, text),
        Err(fault) => Err(LexError::Lex {
            at: fault.valid_up_to() as u32,
        }),
    }
}

/// The longest pieces of a text, one after another, without blanks and comments.
fn cut(alloc: Global, text: &[u8]) -> Result<Items<Token>, LexError>
    requires { length text.now < 2 ^ 32 }
    ensures found { IfOk result (CutTo text.now (length text.now)) }
    ensures place { IfErr result (IsStuck text.now) }
{
    let mut tokens = Items::new(alloc);
    let mut at = 0;
    while at < text.len() {
        match front_of(&text[at..]) {
            Front::Gap(len) => at += len,
            Front::Token(kind, len) => {
                tokens.push(token(alloc, text, at, len, kind)?)?;
                at += len;
            }
            Front::Fault(offset) => {
                return Err(LexError::Lex {
                    at: (at + offset) as u32,
                });
            }
        }
    }
    Ok(tokens)
}

/// The token of so many bytes from a place on.
fn token(
    alloc: Global,
    text: &[u8],
    at: usize,
    len: usize,
    kind: Kind,
) -> Result<Token, OutOfMemory>
    requires within { at + len ≤ length text.now }
    requires short { length text.now < 2 ^ 32 }
    ensures { IfOk result (λ token. token ≡ token_at text.now at len kind) }
{
    let end = at + len;
    Ok(Token {
        kind,
        bytes: Bytes::from_slice(alloc, &text[at..end])?,
        span: Span {
            start: at as u32,
            end: end as u32,
        },
    })
}
