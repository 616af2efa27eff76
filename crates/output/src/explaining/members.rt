//! Values that objects on uploads are made of.

ghost use Rattle.std.specs.Prelude.{◌≡◌, IfOk};
ghost use Rattle.hex.specs.Hex.{encode_lower};
ghost use Rattle.serde_json.specs.Data.{array, no_items, string};
ghost use Rattle.serde_json.specs.View.{view};

use serde_json::{Value, json};
use std::alloc::{AllocError, Global};
use sums::Print;

/// A text.
pub fn text_value(alloc: Global, text: &str) -> Result<Value, AllocError>
    ensures { IfOk result (λ value. view value ≡ string text.now) }
{
    json!(in alloc; text)
}

/// The SHA-256 of what has this print, in hexadecimal digits.
pub fn digest_value(alloc: Global, print: &Print) -> Result<Value, AllocError>
    ensures { IfOk result (λ value. view value ≡ string (encode_lower print.now.sha256)) }
{
    let digest = hex::encode(alloc, print.sha256.as_slice())?;
    Ok(Value::String(digest))
}

/// A list of nothing.
pub fn no_values(alloc: Global) -> Value
    ensures { view result ≡ array no_items }
{
    Value::Array(Vec::new(alloc))
}
