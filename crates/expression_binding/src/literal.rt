ghost use Rattle.std.specs.Prelude.{◌≡◌, IfOk, Some};
ghost use Rattle.java_lexer.specs.Value as lexer;
ghost use Rattle.bound_tree.specs.Tree as t;
ghost use Rattle.bound_tree.specs.Reading.{term_of};
ghost use Rattle.bound_tree.specs.declared.tree.Literal.TheVariants as literals;
ghost use Rattle.expression_binding.specs.Literals as spec;
ghost use Rattle.expression_binding.specs.Stamps as stamps;

use crate::stamp::sound;
use bound_tree::{Expr, Literal, ValueType};
use desk_base::{Name, OutOfMemory};
use java_lexer::string_value;
use std::alloc::Global;

/// The greatest number that an int literal may write, and that only behind a minus.
const GREATEST: u64 = 2147483648;

/// The number that an int literal writes (JLS 8, 3.10.1). One that is read is at most 2147483648; a
/// greater one counts as that.
pub fn int_value(digits: &[u8]) -> u32
    ensures { result ≡ spec.int_value digits.now }
{
    let mut value: u64 = 0;
    for digit in digits {
        value = (value * 10 + u64::from(digit.saturating_sub(b'0'))).min(GREATEST);
    }
    value as u32
}

/// A literal of a type.
#[tactic(auto, using(bound_tree::proofs::Readings::readings))]
pub(crate) fn constant(at: u32, ty: ValueType, literal: Literal) -> Expr
    ensures { term_of result ≡ t.Const (stamps.sound at at (Some ty)) literal }
{
    Expr::Const(sound(at, at, Some(ty)), literal)
}

/// A string literal.
pub(crate) fn string(alloc: Global, at: u32, text: &Name) -> Result<Expr, OutOfMemory>
    ensures { IfOk result (λ made. term_of made ≡ t.Const (stamps.sound at at (Some stamps.string_type)) (literals.Str (lexer.string_value text.now))) }
{
    let ty = ValueType::Named(Name::from_slice(alloc, b"String")?);
    let value = string_value(alloc, text.as_slice())?;
    Ok(constant(at, ty, Literal::Str(value)))
}
