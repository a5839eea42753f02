//! How far reading came in a file whose grammar is at fault, for the people who mend it.

ghost use Rattle.std.specs.Prelude.{◌≡◌, ◌<◌, ◌≤◌, ◌^◌, length, IfOk};
ghost use Rattle.std.specs.Option.{option_copied};
ghost use Rattle.java_reader.specs.Reads.{IsGrammarAt};
ghost use Rattle.java_reader.specs.Reach.{IsReached, StandsIn, first_behind};
ghost use Rattle.java_lexer.specs.Lexing.{Lexes};

use crate::error::ReadError;
use crate::file::read_ahead;
use desk_base::{Items, OutOfMemory};
use java_lexer::{lex, tokens_follow};
use java_phrases::Tokens;
use java_tree::Token;
use std::alloc::Global;

/// The tokens of a text that has some.
fn tokens_of(alloc: Global, text: &[u8]) -> Result<Items<Token>, OutOfMemory>
    requires { length text.now < 2 ^ 32 }
    ensures { IfOk result (Lexes text.now) }
{
    lex(alloc, text).map_err(|_| OutOfMemory)
}

/// Where the next token begins when the tokens were read as far as they can be, or the end. No clause
/// says which one that is.
fn stop_of(alloc: Global, tokens: Items<Token>, end: u32) -> Result<u32, OutOfMemory> {
    let mut cursor = Tokens::new(alloc, tokens)?;
    match read_ahead(alloc, &mut cursor, end) {
        Err(ReadError::OutOfMemory) => Err(OutOfMemory),
        _ => Ok(cursor.next_start().unwrap_or(end)),
    }
}

/// The first token that begins at the place or behind it.
fn token_behind(tokens: &[Token], place: u32) -> Option<&Token>
    ensures { option_copied result ≡ first_behind place tokens.now }
{
    tokens.iter().find(|token| token.span.start >= place)
}

/// Where that token begins, or the end.
fn token_from(tokens: &[Token], place: u32, end: u32) -> u32
    requires { place ≤ end }
    ensures stands { StandsIn tokens.now end result }
    ensures behind { place ≤ result }
{
    match token_behind(tokens, place) {
        Some(token) => token.span.start,
        None => end,
    }
}

/// How far reading came in a text whose grammar is at fault at the place, a byte's offset from 0. It is
/// where a token of the text begins, or the text's end, and it is the place of the fault or behind it.
/// That it is the token at which the part that begins at the fault can't go on is tested, and no clause
/// says it.
pub fn furthest(alloc: Global, text: &[u8], at: u32) -> Result<u32, OutOfMemory>
    requires { IsGrammarAt text.now at }
    ensures { IfOk result (IsReached text.now at) }
{
    tokens_follow();
    let end = text.len() as u32;
    let stop = stop_of(alloc, tokens_of(alloc, text)?, end)?;
    let tokens = tokens_of(alloc, text)?;
    Ok(token_from(tokens.as_slice(), stop.max(at).min(end), end))
}
