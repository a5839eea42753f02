//! What follows from the definitions alone: each of these calls does nothing, and its contract is a
//! law.
ghost use Rattle.std.specs.Prelude.{◌≡◌, ℕ, List, length};
ghost use Rattle.java_tree.specs.declared.token.Token.{Token};
ghost use Rattle.java_lexer.specs.Lexing.{Lexes, LexAt, Follow, AreSpelled};

/// A text has one list of tokens or one place of a fault, and never both.
pub fn one_reading()
    ensures list { (text : List ℕ) (first second : List Token) → Lexes text first → Lexes text second → first ≡ second }
    ensures place { (text : List ℕ) (first second : ℕ) → LexAt text first → LexAt text second → first ≡ second }
    ensures apart { (text : List ℕ) (tokens : List Token) (at : ℕ) → Lexes text tokens → LexAt text at → ⊥ }
{}

/// The tokens of a text stand in order within it, none is empty, and each has the text's bytes at
/// its span.
pub fn tokens_follow()
    ensures { (text : List ℕ) (tokens : List Token) → Lexes text tokens → Follow text 0 tokens (length text) }
{}

/// The bytes of each token of a text are a token of its kind.
pub fn tokens_spelled()
    ensures { (text : List ℕ) (tokens : List Token) → Lexes text tokens → AreSpelled tokens }
{}
