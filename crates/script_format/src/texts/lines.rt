//! The replies of one word, to lines that come to no step.

ghost use Rattle.std.specs.Prelude.{◌≡◌};
ghost use Rattle.script_format.specs.ReplyText.{bad_line_text, name_in_use_text, no_session_text};

/// The reply to what is no line of a script.
pub fn bad_line_reply() -> &'static str
    ensures { result.now ≡ bad_line_text }
{
    "[\"bad-line\"]"
}

/// The reply to an opening under a name that is in use.
pub fn name_in_use_reply() -> &'static str
    ensures { result.now ≡ name_in_use_text }
{
    "[\"name-in-use\"]"
}

/// The reply to a line of a session under a name that is not in use.
pub fn no_session_reply() -> &'static str
    ensures { result.now ≡ no_session_text }
{
    "[\"no-session\"]"
}
