//! The numbers of places among the tokens of a unit.

ghost use Rattle.std.specs.Prelude.{◌≡◌, List, IsTrue};
ghost use Rattle.std.specs.List.Sorted.{IsNonDecreasingBy};
ghost use Rattle.java_tree.specs.declared.token.Token.{Token};

use desk_base::Span;
use java_tree::{Expr, Token};
use std::marker::Model;

/// The tokens of a unit, which tell the number of each place among them. Contracts see it as the list
/// of these tokens.
#[derive(Drop)]
pub struct TokenNumbers<'a> {
    tokens: &'a [Token],
    in_order: bool,
}

impl<'a> Model for TokenNumbers<'a> {
    ghost Value = { List Token };

    ghost view = { λ n. n.tokens.now };

    ghost invariant = { λ n. IsTrue n.in_order → IsNonDecreasingBy (λ (t : Token). t.span.start) n.tokens.now };
}

impl<'a> TokenNumbers<'a> {
    ghost use Rattle.tree_places.specs.Numbers as spec;
    ghost use Rattle.tree_places.specs.Plain.{plain_expr};
    ghost use Rattle.tree_places.specs.PlainExpr.{first_number};

    /// Looks at each token once.
    pub fn new(tokens: &'a [Token]) -> TokenNumbers<'a>
        ensures { result ≡ tokens.now }
    {
        let in_order = tokens.is_sorted_by(|one, next| one.span.start <= next.span.start);
        TokenNumbers { tokens, in_order }
    }

    /// How many of the tokens begin before the place: from 0, the number of the token that stands
    /// there. Tokens of a text are in order, and then it takes a logarithm of their number.
    pub fn number_of(&self, at: Span) -> usize
        ensures { result ≡ spec.number_of self.now at }
    {
        if self.in_order {
            self.tokens
                .partition_point(|token| token.span.start < at.start)
        } else {
            self.tokens
                .iter()
                .filter(|token| token.span.start < at.start)
                .count()
        }
    }

    /// The number of the first token of an expression.
    #[tactic(auto, using(crate::proofs::PlainShapes::plain_shapes))]
    pub fn first_number(&self, expr: &Expr) -> usize
        ensures { result ≡ first_number (plain_expr (spec.number_of self.now) expr.now) }
    {
        match expr {
            Expr::Int(word) | Expr::Str(word) | Expr::Name(word) => self.number_of(word.span),
            Expr::True(at) | Expr::False(at) => self.number_of(*at),
            Expr::Null(at) | Expr::This(at) => self.number_of(*at),
            Expr::Call(name, _, _) => self.number_of(name.span),
            Expr::New(at, _, _, _) => self.number_of(*at),
            Expr::Paren(opening, _, _) => self.number_of(*opening),
            Expr::Select(from, _) => self.first_number(from.get()),
            Expr::CallOn(from, _, _, _) => self.first_number(from.get()),
            Expr::Not(at, _) => self.number_of(*at),
            Expr::Neg(at, _) => self.number_of(*at),
            Expr::Binary(left, _, _, _) => self.first_number(left.get()),
        }
    }
}
