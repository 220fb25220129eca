//! Members of objects.
ghost use Rattle.std.specs.Prelude.{◌≡◌, ◌++◌, codes, IfOk, OnOk, string_bytes};
ghost use Rattle.serde_json.specs.View.{members_view};
ghost use Rattle.jv_json.specs.Members.{with_bytes, with_escaped, with_fault, with_line, with_number, with_text, with_verdict};

use base64::engine::general_purpose::STANDARD;
use jv_meaning_typing::{Verdict, VerifyFault};
use jv_program_base::{Escaped, reason_name, rule_number};
use serde_json::{Map, Value};
use std::alloc::{AllocError, Global};

/// Puts a number under a name.
pub fn put_number(
    members: &mut Map<String, Value>,
    alloc: Global,
    name: &str,
    number: u64,
) -> Result<(), AllocError>
    ensures { OnOk result (members_view members.new.entries ≡ with_number name.now number (members_view members.old.entries)) }
{
    serde_json::put(members, alloc, name, Value::from(number))
}

/// Puts a text under a name.
pub fn put_text(
    members: &mut Map<String, Value>,
    alloc: Global,
    name: &str,
    text: &str,
) -> Result<(), AllocError>
    ensures { OnOk result (members_view members.new.entries ≡ with_text name.now text.now (members_view members.old.entries)) }
{
    let value = Value::try_from_str(alloc, text)?;
    serde_json::put(members, alloc, name, value)
}

/// The name under which bytes are whole.
fn whole_name(alloc: Global, name: &str) -> Result<String, AllocError>
    ensures { IfOk result (λ whole. string_bytes whole ≡ name.now ++ codes "_base64") }
{
    let mut whole = String::from_str(alloc, name)?;
    whole.push_str("_base64")?;
    Ok(whole)
}

/// Puts bytes that are no UTF-8 under a name as they are escaped, and whole in base64.
fn put_escaped(
    members: &mut Map<String, Value>,
    alloc: Global,
    name: &str,
    bytes: &[u8],
) -> Result<(), AllocError>
    ensures { OnOk result (members_view members.new.entries ≡ with_escaped name.now bytes.now (members_view members.old.entries)) }
{
    let shown = Escaped(bytes).to_string(alloc)?;
    put_text(members, alloc, name, shown.as_str())?;
    let whole = STANDARD.encode(alloc, bytes)?;
    let name = whole_name(alloc, name)?;
    put_text(members, alloc, name.as_str(), whole.as_str())
}

/// Puts bytes under a name: as a text where they are UTF-8; else as they are escaped, and whole in base64 under the name with `_base64`
/// behind it.
pub fn put_bytes(
    members: &mut Map<String, Value>,
    alloc: Global,
    name: &str,
    bytes: &[u8],
) -> Result<(), AllocError>
    ensures { OnOk result (members_view members.new.entries ≡ with_bytes name.now bytes.now (members_view members.old.entries)) }
{
    match std::str::from_utf8(bytes) {
        Ok(text) => put_text(members, alloc, name, text),
        Err(_) => put_escaped(members, alloc, name, bytes),
    }
}

/// Puts a line of source, where there is one.
pub(crate) fn put_line(
    members: &mut Map<String, Value>,
    alloc: Global,
    line: Option<u16>,
) -> Result<(), AllocError>
    ensures { OnOk result (members_view members.new.entries ≡ with_line line (members_view members.old.entries)) }
{
    match line {
        Some(line) => put_number(members, alloc, "line", u64::from(line)),
        None => Ok(()),
    }
}

/// Puts which rule a method breaks, and where.
fn put_fault(
    members: &mut Map<String, Value>,
    alloc: Global,
    fault: VerifyFault,
) -> Result<(), AllocError>
    ensures { OnOk result (members_view members.new.entries ≡ with_fault fault (members_view members.old.entries)) }
{
    put_number(members, alloc, "method", u64::from(fault.method))?;
    put_number(members, alloc, "offset", u64::from(fault.offset))?;
    put_number(members, alloc, "rule", u64::from(rule_number(fault.rule)))
}

/// Puts a verdict, by its name and its numbers.
pub(crate) fn put_verdict(
    members: &mut Map<String, Value>,
    alloc: Global,
    verdict: Verdict,
) -> Result<(), AllocError>
    ensures { OnOk result (members_view members.new.entries ≡ with_verdict verdict (members_view members.old.entries)) }
{
    match verdict {
        Verdict::Refused(reason) => put_text(members, alloc, "verdict", reason_name(reason)),
        Verdict::Verify(fault) => {
            put_text(members, alloc, "verdict", "Verify")?;
            put_fault(members, alloc, fault)
        }
        Verdict::Accepted => put_text(members, alloc, "verdict", "Accepted"),
    }
}
