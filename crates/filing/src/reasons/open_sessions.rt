//! `OpenSessions`: the sessions of a script that were opened and not ended yet.

use oim_report::json_value;
use script_format::JsonArray;
use std::alloc::{AllocError, Global};
use std::collections::BTreeMap;

// Sessions that are reported by name at most.
const TOLD: usize = 10;

/// Tells that a session was never ended, and how many changes it had staged.
fn tell_session(rt: &impl Eprint, name: &str, staged: u64) {
    let _ = match staged {
        0 => eprintln!(rt; "filing: the session {name:?} was never ended"),
        1 => eprintln!(rt;
            "filing: the session {name:?} was never ended: a change that it had staged is lost"
        ),
        staged => eprintln!(rt;
            "filing: the session {name:?} was never ended: {staged} changes that it had staged are lost"
        ),
    };
}

/// The names of the sessions that are open, as lines and replies tell, each with the number of changes that it staged.
#[derive(Drop)]
pub(crate) struct OpenSessions {
    staged: BTreeMap<String, u64>,
}

/// The name of the session in a line that was not answered as a bad line; none in a load, which is of no session.
fn session_named(alloc: Global, line: &[u8]) -> Result<Option<String>, AllocError> {
    let Some(value) = json_value(alloc, line)? else {
        return Ok(None);
    };
    match (value.text_at(0), value.text_at(1)) {
        (Some("load"), _) | (_, None) => Ok(None),
        (_, Some(name)) => Ok(Some(String::from_str(alloc, name)?)),
    }
}

/// Whether a reply begins with this word.
fn begins_with_word(reply: &str, word: &str) -> bool {
    match reply.strip_prefix("[\"") {
        Some(rest) => match rest.strip_prefix(word) {
            Some(end) => end.starts_with('"'),
            None => false,
        },
        None => false,
    }
}

impl OpenSessions {
    pub(crate) fn new(alloc: Global) -> OpenSessions {
        OpenSessions {
            staged: BTreeMap::new(alloc),
        }
    }

    pub(crate) fn is_empty(&self) -> bool {
        self.staged.is_empty()
    }

    /// Counts a change of a session.
    fn count_change(&mut self, name: &str) {
        if let Some(staged) = self.staged.get_mut(name) {
            *staged = staged.saturating_add(1);
        }
    }

    /// Takes a line with its reply.
    pub(crate) fn take(
        &mut self,
        alloc: Global,
        line: &[u8],
        reply: &str,
    ) -> Result<(), AllocError> {
        let opens = begins_with_word(reply, "opened");
        let stages = begins_with_word(reply, "staged");
        let ends = begins_with_word(reply, "committed")
            || begins_with_word(reply, "closed")
            || begins_with_word(reply, "conflict")
            || begins_with_word(reply, "disallowed");
        if !(opens || stages || ends) {
            return Ok(());
        }
        let Some(name) = session_named(alloc, line)? else {
            return Ok(());
        };
        if opens {
            self.staged.insert(name, 0)?;
        } else if stages {
            self.count_change(&name);
        } else {
            self.staged.remove(name.as_str());
        }
        Ok(())
    }

    /// Tells which sessions were never ended, with what they had staged: the first in byte order of their names, and how many more.
    pub(crate) fn tell(&self, rt: &impl Eprint) {
        for (name, staged) in self.staged.iter().take(TOLD) {
            tell_session(rt, name, *staged);
        }
        let more = self.staged.len().saturating_sub(TOLD);
        if more > 0 {
            let _ = eprintln!(rt; "filing: and {more} sessions more");
        }
    }
}
