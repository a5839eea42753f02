//! What follows from the definitions alone: each of these calls does nothing, and its contract is a
//! law.

ghost use Rattle.std.specs.Prelude.{◌≡◌, ℕ, List, length};
ghost use Rattle.java_tree.specs.declared.file.FileTree.{FileTree};
ghost use Rattle.java_reader.specs.Alike.{Alike};
ghost use Rattle.java_reader.specs.Places.{TypesFollow};
ghost use Rattle.java_reader.specs.Reads.{Reads};

use java_lexer::{one_reading, tokens_follow, tokens_spelled};

/// A text has one tree at most.
pub fn one_tree()
    ensures { (text : List ℕ) (first second : FileTree) → Reads text first → Reads text second → first ≡ second }
{
    one_reading();
}

/// The tokens that a tree keeps stand in its text in order, each with the text's bytes at its span: of
/// each type in turn those of its header, and behind them those of each member.
pub fn parts_follow()
    ensures { (text : List ℕ) (tree : FileTree) → Reads text tree → TypesFollow text 0 tree.types (length text) }
{
    tokens_follow();
}

/// A tree has one spelling, up to blanks and comments: the tokens of two texts with one tree are of the
/// same kinds and have the same bytes, in order.
pub fn one_spelling()
    ensures { (first second : List ℕ) (tree : FileTree) (one : Reads first tree) (other : Reads second tree) → Alike one.tokens other.tokens }
{
    tokens_spelled();
}
