use desk_base::{OutOfMemory, Span};
use java_tree::Token;
use std::marker::Model;
use tree_places::TokenNumbers;

/// The tokens of a unit, which give each place in it the number of its token, from 1. Contracts see it
/// as the list of these tokens.
#[derive(Drop)]
pub struct Places<'a> {
    numbers: TokenNumbers<'a>,
}

impl<'a> Model for Places<'a> {
    ghost use Rattle.std.specs.Prelude.{List, length, ◌<◌};
    ghost use Rattle.java_tree.specs.declared.token.Token.{Token};

    ghost Value = { List Token };

    ghost view = { λ p. p.numbers };

    ghost invariant = { λ p. length p.numbers < 4294967295 };
}

impl<'a> Places<'a> {
    ghost use Rattle.std.specs.Prelude.{◌≡◌, suc, IfOk};
    ghost use Rattle.tree_places.specs.Numbers.{number_of};

    /// Looks at each token once. A list of more tokens than can be numbered, which is longer than what
    /// is read may be, is told as want of memory.
    pub fn new(tokens: &'a [Token]) -> Result<Places<'a>, OutOfMemory>
        ensures { IfOk result (λ places. places ≡ tokens.now) }
    {
        if tokens.len() >= 4294967295 {
            return Err(OutOfMemory);
        }
        let numbers = TokenNumbers::new(tokens);
        Ok(Places { numbers })
    }

    /// The number, from 1, of the token at a place.
    pub fn place(&self, at: Span) -> u32
        ensures { result ≡ suc (number_of self.now at) }
    {
        self.numbers.number_of(at) as u32 + 1
    }
}
