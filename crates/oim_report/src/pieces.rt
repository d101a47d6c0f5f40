//! Pieces of compact JSON, each appended to a text that grows. When out of memory, what was appended is a prefix of the piece.

ghost use Rattle.std.specs.Prelude.{◌≡◌, ◌++◌, OnOk, OnErr, IfOk, Some, string_bytes};
ghost use Rattle.json.specs.Print.{escape, quoted};
ghost use Rattle.serde_json.specs.Written.{comma_if};
ghost use Rattle.filing_model.specs.Reading.Writing.{decimals_text, nullable_text};
ghost use Rattle.oim_fact.specs.Texts.{text_view};
ghost use Rattle.oim_report.specs.Appended.{IsFrontPushed};

use crate::plain_text::is_plain;
use serde_json::Value;
use std::alloc::{AllocError, Global};

/// A text as a JSON text.
fn quoted_text(alloc: Global, text: &str) -> Result<String, AllocError>
    ensures { IfOk result (λ t. string_bytes t ≡ quoted text.now) }
{
    Value::String(String::from_str(alloc, text)?).to_string(alloc)
}

/// Appends a text without escapes as a JSON text.
fn push_plain(out: &mut String, text: &str) -> Result<(), AllocError>
    requires { escape text.now ≡ text.now }
    ensures text { OnOk result (string_bytes out.new ≡ string_bytes out.old ++ quoted text.now) }
    ensures front { OnErr result (IsFrontPushed out.old out.new (quoted text.now)) }
{
    out.push('"')?;
    out.push_str(text)?;
    out.push('"')
}

/// Appends any text as a JSON text, through a copy with its escapes.
fn push_escaped(out: &mut String, text: &str) -> Result<(), AllocError>
    ensures text { OnOk result (string_bytes out.new ≡ string_bytes out.old ++ quoted text.now) }
    ensures front { OnErr result (IsFrontPushed out.old out.new (quoted text.now)) }
{
    let quoted = quoted_text(*out.allocator(), text)?;
    out.push_str(&quoted)
}

/// Appends a text as a JSON text.
pub fn push_quoted(out: &mut String, text: &str) -> Result<(), AllocError>
    ensures text { OnOk result (string_bytes out.new ≡ string_bytes out.old ++ quoted text.now) }
    ensures front { OnErr result (IsFrontPushed out.old out.new (quoted text.now)) }
{
    if is_plain(text) {
        push_plain(out, text)
    } else {
        push_escaped(out, text)
    }
}

/// Appends a comma, where something stands before.
pub fn push_comma(out: &mut String, later: bool) -> Result<(), AllocError>
    ensures text { OnOk result (string_bytes out.new ≡ string_bytes out.old ++ comma_if later) }
    ensures front { OnErr result (IsFrontPushed out.old out.new (comma_if later)) }
{
    if later { out.push(',') } else { Ok(()) }
}

/// Appends a JSON text, or null.
pub fn push_nullable(out: &mut String, text: &Option<String>) -> Result<(), AllocError>
    ensures text { OnOk result (string_bytes out.new
        ≡ string_bytes out.old ++ nullable_text (text_view text.now)) }
    ensures front { OnErr result (IsFrontPushed out.old out.new (nullable_text (text_view text.now))) }
{
    match text {
        None => out.push_str("null"),
        Some(text) => push_quoted(out, text),
    }
}

/// The member `decimals` with the comma after it.
fn decimals_member(alloc: Global, decimals: &i64) -> Result<String, AllocError>
    ensures { IfOk result (λ t. string_bytes t ≡ decimals_text (Some decimals.now)) }
{
    format!(in alloc; "\"decimals\":{decimals},")
}

/// Appends the member `decimals` with the comma after it.
fn push_decimals_member(out: &mut String, decimals: &i64) -> Result<(), AllocError>
    ensures text { OnOk result (string_bytes out.new ≡ string_bytes out.old ++ decimals_text (Some decimals.now)) }
    ensures front { OnErr result (IsFrontPushed out.old out.new (decimals_text (Some decimals.now))) }
{
    let member = decimals_member(*out.allocator(), decimals)?;
    out.push_str(&member)
}

/// Appends the member `decimals`, if any, with the comma after it.
pub(crate) fn push_decimals(out: &mut String, decimals: &Option<i64>) -> Result<(), AllocError>
    ensures text { OnOk result (string_bytes out.new ≡ string_bytes out.old ++ decimals_text decimals.now) }
    ensures front { OnErr result (IsFrontPushed out.old out.new (decimals_text decimals.now)) }
{
    match decimals {
        None => Ok(()),
        Some(decimals) => push_decimals_member(out, decimals),
    }
}
