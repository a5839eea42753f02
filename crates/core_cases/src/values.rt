//! Values and operators: `5`, `-9`, `true`, `null`, `text:1` and `object:3`; `Add`, `Subtract` and so on.

use crate::words::{argument, first_word};
use anyhow::{Result, bail};
use core_model::{Op, Value};
use std::alloc::Global;

const OPERATORS: [Op; 11] = [
    Op::Add,
    Op::Subtract,
    Op::Multiply,
    Op::Divide,
    Op::Remainder,
    Op::Less,
    Op::Greater,
    Op::AtMost,
    Op::AtLeast,
    Op::Equal,
    Op::NotEqual,
];

/// The value that is written so.
pub(crate) fn value_of(written: &str) -> Result<Value> {
    let (sort, number) = argument(written);
    Ok(match sort {
        "true" => Value::Bool(true),
        "false" => Value::Bool(false),
        "null" => Value::Null,
        "text" => Value::Str(number.parse::<u32>()?),
        "object" => Value::Ref(number.parse::<u32>()?),
        _ => Value::Int(written.parse::<i32>()?),
    })
}

/// The operator of that name.
pub(crate) fn operator_of(alloc: Global, name: &str) -> Result<Op> {
    for op in OPERATORS {
        if format!(in alloc; "{op:?}")?.as_str() == name {
            return Ok(op);
        }
    }
    bail!("no operator {name}")
}

/// What an operator gives of two values.
pub(crate) fn put_operator(alloc: Global, out: &mut String, line: &str) -> Result<()> {
    let (op, operands) = first_word(line);
    let (left, right) = first_word(operands);
    let op = operator_of(alloc, op)?;
    match op.apply(value_of(left)?, value_of(right)?) {
        Some(value) => write!(out, "{value:?}")?,
        None => out.push_str("nothing")?,
    }
    Ok(())
}
