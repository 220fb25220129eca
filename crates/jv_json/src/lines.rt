//! Values as lines.
ghost use Rattle.std.specs.Prelude.{◌≡◌, ◌++◌, All, IfOk, OnOk, false, map, string_bytes};
ghost use Rattle.serde_json.specs.View.{view};
ghost use Rattle.serde_json.specs.Written.{has_float};
ghost use Rattle.jv_json.specs.Lines.{json_line, json_lines};

use serde_json::Value;
use std::alloc::{AllocError, Global};

/// Writes a value's line behind a text.
fn push_line(text: &mut String, alloc: Global, value: &Value) -> Result<(), AllocError>
    requires { has_float (view value.now) ≡ false }
    ensures { OnOk result (string_bytes text.new ≡ string_bytes text.old ++ json_line (view value.now)) }
{
    let line = value.to_string(alloc)?;
    text.push_str(line.as_str())?;
    text.push_str("\n")
}

/// Values without floating point, each of them a line.
pub fn json_lines(alloc: Global, values: &[Value]) -> Result<String, AllocError>
    requires { All (λ value. has_float value ≡ false) (map view values.now) }
    ensures { IfOk result (λ text. string_bytes text ≡ json_lines (map view values.now)) }
{
    let mut text = String::new(alloc);
    for value in values {
        push_line(&mut text, alloc, value)?;
    }
    Ok(text)
}
