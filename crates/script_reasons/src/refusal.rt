//! `Refusal`: the words of replies by which lines are refused.

ghost use Rattle.std.specs.Prelude.{◌≡◌, IfOk, IfSome};
ghost use Rattle.filing_step.specs.Steps.{reply_of};
ghost use Rattle.script_format.specs.ReplyText.{reply_text};
ghost use Rattle.script_reasons.specs.Refusals.{is_mistake, is_mistaken, is_removal, refusal_in, refusal_of_word, refusal_word, tells_mistake, word_of};

use filing_model::is_same_text;
use filing_step::Reply;
use oim_report::json_value;
use script_format::JsonArray;
use std::alloc::{AllocError, Global};

/// The reply that a refused line gets, by its word.
#[derive(Clone, Copy, Debug, PartialEq, Eq)]
pub enum Refusal {
    BadLine,
    BadReport,
    BadFact,
    NameTaken,
    Disallowed,
    NameInUse,
    NoSession,
    NoReport,
    ReadOnly,
    Taken,
    Conflict,
    /// `none`, to a line that removes a fact.
    NotThere,
}

impl Refusal {
    /// The word of the reply.
    pub fn word(self) -> &'static str
        ensures { result.now ≡ refusal_word self }
    {
        match self {
            Refusal::BadLine => "bad-line",
            Refusal::BadReport => "bad-report",
            Refusal::BadFact => "bad-fact",
            Refusal::NameTaken => "name-taken",
            Refusal::Disallowed => "disallowed",
            Refusal::NameInUse => "name-in-use",
            Refusal::NoSession => "no-session",
            Refusal::NoReport => "no-report",
            Refusal::ReadOnly => "read-only",
            Refusal::Taken => "taken",
            Refusal::Conflict => "conflict",
            Refusal::NotThere => "none",
        }
    }

    /// Whether it tells that the line itself is malformed or out of place, and not what the repository had.
    fn is_mistake(self) -> bool
        ensures { result ≡ is_mistake self }
    {
        match self {
            Refusal::BadLine
            | Refusal::BadReport
            | Refusal::BadFact
            | Refusal::NameInUse
            | Refusal::NoSession
            | Refusal::NoReport
            | Refusal::ReadOnly => true,
            Refusal::NameTaken
            | Refusal::Disallowed
            | Refusal::Taken
            | Refusal::Conflict
            | Refusal::NotThere => false,
        }
    }
}

/// What stands between the first two quotes of a reply.
fn word_of(reply: &str) -> &str
    ensures { result.now ≡ word_of reply.now }
{
    let Some((_, rest)) = reply.split_once('"') else {
        return "";
    };
    match rest.split_once('"') {
        Some((word, _)) => word,
        None => rest,
    }
}

/// The refusal that a word tells whatever the line is; none where it answers.
fn refusal_of_word(word: &str) -> Option<Refusal>
    ensures { result ≡ refusal_of_word word.now }
{
    if is_same_text(word, "bad-line") {
        Some(Refusal::BadLine)
    } else if is_same_text(word, "bad-report") {
        Some(Refusal::BadReport)
    } else if is_same_text(word, "bad-fact") {
        Some(Refusal::BadFact)
    } else if is_same_text(word, "name-taken") {
        Some(Refusal::NameTaken)
    } else if is_same_text(word, "disallowed") {
        Some(Refusal::Disallowed)
    } else if is_same_text(word, "name-in-use") {
        Some(Refusal::NameInUse)
    } else if is_same_text(word, "no-session") {
        Some(Refusal::NoSession)
    } else if is_same_text(word, "no-report") {
        Some(Refusal::NoReport)
    } else if is_same_text(word, "read-only") {
        Some(Refusal::ReadOnly)
    } else if is_same_text(word, "taken") {
        Some(Refusal::Taken)
    } else if is_same_text(word, "conflict") {
        Some(Refusal::Conflict)
    } else {
        None
    }
}

/// Whether a line stages that a fact goes, by its first text.
fn is_removal(alloc: Global, line: &[u8]) -> Result<bool, AllocError>
    ensures { IfOk result (λ b. b ≡ is_removal line.now) }
{
    let Some(value) = json_value(alloc, line)? else {
        return Ok(false);
    };
    match value.text_at(0) {
        Some(word) => Ok(is_same_text(word, "remove")),
        None => Ok(false),
    }
}

/// The refusal of a line by its reply; none where the reply answers it. That there is no fact refuses a removal, and answers any other line.
pub(crate) fn refusal_in(
    alloc: Global,
    line: &[u8],
    reply: &str,
) -> Result<Option<Refusal>, AllocError>
    ensures refusal { IfOk result (λ o. o ≡ refusal_in line.now reply.now) }
    ensures word { IfOk result (λ o. IfSome o (λ r. refusal_word r ≡ word_of reply.now)) }
{
    let word = word_of(reply);
    if !is_same_text(word, "none") {
        return Ok(refusal_of_word(word));
    }
    if is_removal(alloc, line)? {
        Ok(Some(Refusal::NotThere))
    } else {
        Ok(None)
    }
}

/// Whether a reply tells, by its word, that its line is malformed or out of place. It takes no memory.
/// `bad-line`, `bad-report`, `bad-fact`, `name-in-use`, `no-session`, `no-report` and `read-only` do.
pub fn tells_mistake(reply: &str) -> bool
    ensures { result ≡ tells_mistake reply.now }
{
    match refusal_of_word(word_of(reply)) {
        Some(refusal) => refusal.is_mistake(),
        None => false,
    }
}

/// Whether a reply reports that its line is out of place.
fn is_mistaken(reply: &Reply) -> bool
    ensures { result ≡ is_mistaken (reply_of reply.now) }
{
    matches!(reply, Reply::NoReport | Reply::ReadOnly | Reply::BadFact(_))
}

/// Whether the text of a reply to a step tells a mistake. The text is not looked at.
#[tactic(auto, using(crate::proofs::RefusalTexts::mistake_told))]
pub fn reports_mistake(reply: &Reply) -> bool
    ensures { result ≡ tells_mistake (reply_text (reply_of reply.now)) }
{
    is_mistaken(reply)
}
