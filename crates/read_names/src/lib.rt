//! The names of what is read: each class and interface of a text has names as the laws of keys ask for
//! them. It knows the grammar and what a key is made of, and nothing of promises.
#![tactic(auto)]

ghost use Rattle.std.specs.Prelude.{ℕ, List};
ghost use Rattle.std.specs.List.{Contains};
ghost use Rattle.java_tree.specs.declared.file.ClassTree.{ClassTree};
ghost use Rattle.java_tree.specs.declared.file.FileTree.{FileTree};
ghost use Rattle.java_reader.specs.Reads.{Reads};
ghost use Rattle.class_faces.specs.Keys.{HasNames};

use java_lexer::{tokens_follow, tokens_spelled};

/// The names of a class or interface that is read have no sign of a key in them, none of its methods is
/// called `new`, and its members and their parameters are few enough to be counted. So its keys differ
/// and tell it from other classes. The call does nothing: its contract is a law.
pub fn read_types_have_names()
    ensures { (text : List ℕ) (file : FileTree) (class : ClassTree) → Reads text file → Contains file.types class → HasNames class }
{
    tokens_follow();
    tokens_spelled();
}
