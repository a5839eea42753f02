ghost use Rattle.std.specs.Prelude.{◌≡◌};
ghost use Rattle.core_model.specs.Operators as spec;

use crate::instr::Op;
use crate::value::Value;

impl Value {
    fn is_int(self, number: i32) -> bool
        ensures { result ≡ spec.same_value (Value.Int number) self }
    {
        match self {
            Value::Int(other) => number == other,
            _ => false,
        }
    }

    fn is_bool(self, truth: bool) -> bool
        ensures { result ≡ spec.same_value (Value.Bool truth) self }
    {
        match self {
            Value::Bool(other) => truth == other,
            _ => false,
        }
    }

    fn is_text(self, text: u32) -> bool
        ensures { result ≡ spec.same_value (Value.Str text) self }
    {
        match self {
            Value::Str(other) => text == other,
            _ => false,
        }
    }

    fn is_null(self) -> bool
        ensures { result ≡ spec.same_value Value.Null self }
    {
        match self {
            Value::Null => true,
            _ => false,
        }
    }

    fn is_object(self, object: u32) -> bool
        ensures { result ≡ spec.same_value (Value.Ref object) self }
    {
        match self {
            Value::Ref(other) => object == other,
            _ => false,
        }
    }

    /// The object that the value refers to.
    pub fn object(self) -> Option<u32>
        ensures { result ≡ spec.object_of self }
    {
        match self {
            Value::Ref(object) => Some(object),
            _ => None,
        }
    }

    /// Whether two values are one, as `==` has it (JLS 8, 15.21).
    pub fn same(self, other: Value) -> bool
        ensures { result ≡ spec.same_value self other }
    {
        match self {
            Value::Int(number) => other.is_int(number),
            Value::Bool(truth) => other.is_bool(truth),
            Value::Str(text) => other.is_text(text),
            Value::Null => other.is_null(),
            Value::Ref(object) => other.is_object(object),
        }
    }
}

/// The least int divided by -1 is the least int (JLS 8, 15.17.2).
fn quotient(left: i32, right: i32) -> Option<Value>
    ensures { result ≡ spec.of_ints Op.Divide left right }
{
    if right == 0 {
        None
    } else {
        Some(Value::Int(left.wrapping_div(right)))
    }
}

/// It has the dividend's sign (JLS 8, 15.17.3).
fn remainder(left: i32, right: i32) -> Option<Value>
    ensures { result ≡ spec.of_ints Op.Remainder left right }
{
    if right == 0 {
        None
    } else {
        Some(Value::Int(left.wrapping_rem(right)))
    }
}

fn of_ints(op: Op, left: i32, right: i32) -> Option<Value>
    ensures { result ≡ spec.of_ints op left right }
{
    match op {
        Op::Add => Some(Value::Int(left.wrapping_add(right))),
        Op::Subtract => Some(Value::Int(left.wrapping_sub(right))),
        Op::Multiply => Some(Value::Int(left.wrapping_mul(right))),
        Op::Divide => quotient(left, right),
        Op::Remainder => remainder(left, right),
        Op::Less => Some(Value::Bool(left < right)),
        Op::Greater => Some(Value::Bool(right < left)),
        Op::AtMost => Some(Value::Bool(!(right < left))),
        Op::AtLeast => Some(Value::Bool(!(left < right))),
        Op::Equal => Some(Value::Bool(left == right)),
        Op::NotEqual => Some(Value::Bool(!(left == right))),
    }
}

fn of_others(op: Op, left: Value, right: Value) -> Option<Value>
    ensures { result ≡ spec.of_others op left right }
{
    match op {
        Op::Equal => Some(Value::Bool(left.same(right))),
        Op::NotEqual => Some(Value::Bool(!left.same(right))),
        _ => None,
    }
}

impl Op {
    /// What the operator gives of two values; `None` for a divisor of zero, and for operands that it
    /// isn't for.
    pub fn apply(self, left: Value, right: Value) -> Option<Value>
        ensures { result ≡ spec.operated self left right }
    {
        match left {
            Value::Int(x) => match right {
                Value::Int(y) => of_ints(self, x, y),
                _ => of_others(self, left, right),
            },
            _ => of_others(self, left, right),
        }
    }
}
