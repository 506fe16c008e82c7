//! From bytes to a JSON value.
ghost use Rattle.std.specs.Prelude.{◌≡◌, ◌≢◌, IfOk, IfErr, Some, None};
ghost use Rattle.serde_json.specs.View.{view};
ghost use Rattle.json_values.specs.Json.{json_of};

use serde_json::Value;
use std::alloc::Global;
use thiserror::Error;

/// Why no JSON value is given.
#[derive(Clone, Copy, Debug, PartialEq, Eq, Error)]
pub enum JsonFault {
    /// The bytes are no JSON value in UTF-8, or open more than 127 arrays and objects at once.
    #[error("no JSON")]
    NotJson,
    /// Memory was refused.
    #[error("out of memory")]
    NoMemory,
}

/// The JSON value that the bytes spell (RFC 8259).
pub fn json_value(alloc: Global, bytes: &[u8]) -> Result<Value, JsonFault>
    ensures value { IfOk result (λ v. json_of bytes.now ≡ Some (view v)) }
    ensures none { IfErr result (λ e. e ≢ JsonFault.NoMemory → json_of bytes.now ≡ None) }
{
    match Value::from_slice(alloc, bytes) {
        Ok(value) => Ok(value),
        Err(e) => {
            if e.is_memory() {
                Err(JsonFault::NoMemory)
            } else {
                Err(JsonFault::NotJson)
            }
        }
    }
}
