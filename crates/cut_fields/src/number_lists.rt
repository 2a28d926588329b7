//! Lists of numbers, as JSON.
ghost use Rattle.std.specs.Prelude.{◌≡◌, IfOk};
ghost use Rattle.serde_json.specs.View.{view};
ghost use Rattle.cut_fields.specs.Fields.{numbers_data};

use serde_json::Value;
use std::alloc::{AllocError, Global};

/// A list of small numbers, as JSON.
pub fn bytes_value(alloc: Global, numbers: &[u8]) -> Result<Value, AllocError>
    ensures { IfOk result (λ value. view value ≡ numbers_data numbers.now) }
{
    let mut items = Vec::with_capacity(alloc, numbers.len())?;
    for number in numbers {
        items.push(Value::from(*number))?;
    }
    Ok(Value::Array(items))
}

/// A list of numbers, as JSON.
pub fn shorts_value(alloc: Global, numbers: &[u16]) -> Result<Value, AllocError>
    ensures { IfOk result (λ value. view value ≡ numbers_data numbers.now) }
{
    let mut items = Vec::with_capacity(alloc, numbers.len())?;
    for number in numbers {
        items.push(Value::from(*number))?;
    }
    Ok(Value::Array(items))
}
