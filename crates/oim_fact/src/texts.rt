//! Texts that may be missing: copied, owned and compared.

ghost use Rattle.std.specs.Prelude.{◌≡◌, option_map, IfOk};
ghost use Rattle.std.specs.Option.{option_eq};
ghost use Rattle.filing_model.specs.Common.Text.{text_eq};
ghost use Rattle.oim_fact.specs.Texts.{text_view};

use filing_model::is_same_text;
use std::alloc::{AllocError, Global};

/// A copy of a text, if any.
pub fn clone_text(text: &Option<String>) -> Result<Option<String>, AllocError>
    ensures { IfOk result (λ t. text_view t ≡ text_view text.now) }
{
    match text {
        None => Ok(None),
        Some(text) => Ok(Some(text.clone()?)),
    }
}

/// A text of its own, if any.
pub fn own_text(alloc: Global, text: Option<&str>) -> Result<Option<String>, AllocError>
    ensures { IfOk result (λ own. text_view own ≡ option_map (λ t. t.now) text.entry) }
{
    match text {
        None => Ok(None),
        Some(text) => Ok(Some(String::from_str(alloc, text)?)),
    }
}

/// Whether two texts are the same, or both missing.
pub fn are_same_texts(one: Option<&str>, other: Option<&str>) -> bool
    ensures { result ≡ option_eq text_eq (option_map (λ t. t.now) one.entry) (option_map (λ t. t.now) other.entry) }
{
    match (one, other) {
        (None, None) => true,
        (Some(one), Some(other)) => is_same_text(one, other),
        (None, Some(_)) | (Some(_), None) => false,
    }
}
