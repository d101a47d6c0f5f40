//! The laws of the words of replies. Each function carries one, has an empty body and is never called.

ghost use Rattle.filing_model.specs.Common.Text.{Text};
ghost use Rattle.script_reasons.specs.RefusalLaws.{WordsTellRefusals, WordsTellReplies};

/// The word of each reply tells whether it refuses its line, and how.
pub fn words_tell_replies()
    ensures { WordsTellReplies }
{}

/// The replies to lines that take no step are refusals, each by its word.
pub fn words_tell_refusals()
    ensures { (line : Text) → WordsTellRefusals line }
{}
