ghost use Rattle.std.specs.Prelude.{◌≡◌, ◌↔◌, ◌∷◌, [], IsTrue, map, codes, string_bytes};
ghost use Rattle.promise_desk.specs.Words.{IsCheck};

use std::alloc::Global;

/// What the program is asked to do.
#[derive(Clone, Copy, Debug, PartialEq, Eq)]
pub enum Command {
    /// Read a bundle, judge it and print the report.
    Check,
}

/// Why the words were no command.
#[derive(Clone, Copy, Debug, PartialEq, Eq)]
pub enum WordsError {
    /// They have none of the program's forms.
    Usage,
    OutOfMemory,
}

fn is_check(words: &[String]) -> bool
    ensures { IsTrue result ↔ (map string_bytes words.now ≡ codes "check" ∷ []) }
{
    if words.len() != 1 {
        return false;
    }
    words[0].as_str() == "check"
}

/// The command that the words after the program's name give. So far that is `check` alone; it takes
/// no memory.
pub fn read_words(_alloc: Global, words: &Vec<String>) -> Result<Command, WordsError>
    ensures check { (result ≡ Ok Command.Check) ↔ IsCheck words.now }
    ensures usage { (result ≡ Err WordsError.Usage) ↔ ¬ (IsCheck words.now) }
{
    if is_check(words.as_slice()) {
        Ok(Command::Check)
    } else {
        Err(WordsError::Usage)
    }
}
