//! The loop over the parts of a file.

ghost use Rattle.std.specs.Prelude.{◌≡◌, IfOk, IfErr};
ghost use Rattle.java_phrases.specs.Cursor.{ahead};
ghost use Rattle.java_reader.specs.Spelling.{Spells};
ghost use Rattle.java_reader.specs.Answers.{IsPartCause, AdvancesFrom, IsWhole};

use crate::draft::{Draft, blank_draft, with_part};
use crate::error::ReadError;
use desk_base::Items;
use java_phrases::{SyntaxError, Tokens};
use java_tree::{FileTree, Token};
use std::alloc::Global;

/// One part more, which begins at the place.
fn next_part(alloc: Global, tokens: &mut Tokens, draft: Draft, at: u32) -> Result<Draft, ReadError>
    ensures { AdvancesFrom at draft (ahead tokens.old) result (ahead tokens.new) }
{
    match with_part(alloc, tokens, draft) {
        Ok(draft) => Ok(draft),
        Err(SyntaxError::NotSpelled) => Err(ReadError::Grammar { at }),
        Err(SyntaxError::OutOfMemory) => Err(ReadError::OutOfMemory),
    }
}

/// The file of a draft behind which no token is left.
fn whole(draft: Draft, end: u32) -> Result<FileTree, ReadError>
    ensures { IsWhole draft end result }
{
    let Draft { file, current } = draft;
    match current {
        None => Ok(file),
        Some(_) => Err(ReadError::Grammar { at: end }),
    }
}

/// Reads the tokens ahead, which end a text of so many bytes, one part after another. The cursor is left
/// where reading ended.
pub(crate) fn read_ahead(
    alloc: Global,
    tokens: &mut Tokens,
    end: u32,
) -> Result<FileTree, ReadError>
    ensures found { IfOk result (Spells (ahead tokens.old)) }
    ensures cause { IfErr result (IsPartCause end (ahead tokens.old)) }
{
    let mut draft = blank_draft(alloc);
    'parts: while let Some(at) = tokens.next_start() {
        draft = next_part(alloc, tokens, draft, at)?;
    }
    whole(draft, end)
}

/// Reads the tokens of a text of so many bytes.
pub(crate) fn read_parts(
    alloc: Global,
    tokens: Items<Token>,
    end: u32,
) -> Result<FileTree, ReadError>
    ensures found { IfOk result (Spells tokens) }
    ensures cause { IfErr result (IsPartCause end tokens) }
{
    let mut cursor = Tokens::new(alloc, tokens)?;
    read_ahead(alloc, &mut cursor, end)
}
