//! Reading a whole file.

ghost use Rattle.std.specs.Prelude.{◌≡◌, ◌≢◌, ◌<◌, ◌≤◌, ◌^◌, List, length, IfOk, IfErr, None};
ghost use Rattle.std.specs.Option.{option_copied};
ghost use Rattle.desk_base.specs.Limit.{limit_max};
ghost use Rattle.java_tree.specs.declared.token.Token.{Token};
ghost use Rattle.java_tree.specs.declared.file.FileTree.{FileTree};
ghost use Rattle.java_reader.specs.declared.error.ReadError.{ReadError};
ghost use Rattle.java_reader.specs.declared.error.ReadError.TheVariants.{OutOfMemory as NoMemory};
ghost use Rattle.java_reader.specs.Reads.{Reads, GivesFile, Refuses, IsCauseOf, is_long_name, first_long_name};
ghost use Rattle.java_reader.specs.Answers.{SpellsFit, IsTokenCause};

use crate::error::ReadError;
use crate::file::read_parts;
use desk_base::{Items, LimitName};
use java_lexer::{LexError, lex, one_reading};
use java_tree::{FileTree, Kind, Token};
use std::alloc::Global;

/// Whether a token is a name that is too long.
fn is_long(token: &Token) -> bool
    ensures { result ≡ is_long_name token.now }
{
    token.kind == Kind::Name && token.bytes.len() as u64 > LimitName::NameBytes.max()
}

/// The first name that is too long.
fn first_long(tokens: &[Token]) -> Option<&Token>
    ensures { option_copied result ≡ first_long_name tokens.now }
{
    tokens.iter().find(|token| is_long(token))
}

/// Reads the tokens of a text of so many bytes.
fn read_tokens(alloc: Global, tokens: Items<Token>, end: u32) -> Result<FileTree, ReadError>
    ensures found { IfOk result (SpellsFit tokens) }
    ensures cause { IfErr result (IsTokenCause end tokens) }
{
    match first_long(tokens.as_slice()) {
        Some(name) => Err(ReadError::Limit {
            which: LimitName::NameBytes,
            at: name.span.start,
        }),
        None => read_parts(alloc, tokens, end),
    }
}

/// The tree, or the first cause in the order of refusal.
fn read_text(alloc: Global, text: &[u8]) -> Result<FileTree, ReadError>
    ensures found { IfOk result (Reads text.now) }
    ensures cause { IfErr result (IsCauseOf text.now) }
{
    let most = LimitName::FileBytes.max();
    if text.len() as u64 > most {
        return Err(ReadError::Limit {
            which: LimitName::FileBytes,
            at: most as u32,
        });
    }
    match lex(alloc, text) {
        Ok(tokens) => read_tokens(alloc, tokens, text.len() as u32),
        Err(LexError::Lex { at }) => Err(ReadError::Lex { at }),
        Err(LexError::OutOfMemory) => Err(ReadError::OutOfMemory),
    }
}

/// Reads a Java file of the subset (JLS 8, 7.3). Each refusal has its place, a byte's offset from 0, and
/// comes in this order: `Limit` of file bytes where the text has more of them, at the limit; `Lex` at the
/// first lexical fault; `Limit` of name bytes at the first name of more than 64 bytes; `Grammar` where the
/// tokens spell no file, at the first byte of the token behind the longest list of parts that begins it, or
/// at the text's end.
pub fn read_file(alloc: Global, text: &[u8]) -> Result<FileTree, ReadError>
    ensures found { IfOk result (Reads text.now) }
    ensures only { (tree : FileTree) → Reads text.now tree → GivesFile result tree }
    ensures cause { IfErr result (IsCauseOf text.now) }
    ensures only_cause { (e : ReadError) → IsCauseOf text.now e → e ≢ NoMemory → Refuses result e }
{
    one_reading();
    read_text(alloc, text)
}
