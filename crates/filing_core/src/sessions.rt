//! `Sessions`: the open sessions.

ghost use Rattle.std.specs.Prelude.{◌≡◌, ℕ, ◌==◌, cond, true, [], Some, None, IsSome, option_map, OnOk, OnErr};
ghost use Rattle.filing_step.specs.Steps.{call_of, reply_of};
ghost use Rattle.filing_core.specs.OpenSessions.{session_of, Calls, Readies, Takes};

use filing_session::{Ready, Session};
use filing_step::{Call, Reply};
use std::alloc::{AllocError, Global};
use std::collections::BTreeMap;
use std::marker::Model;

/// The open sessions by their numbers. Contracts see each with its number.
#[derive(Drop)]
pub(crate) struct Sessions {
    by_number: BTreeMap<u64, Session>,
}

impl Model for Sessions {
    ghost use Rattle.filing_core.specs.OpenSessions.{Open};

    ghost Value = { Open };

    ghost view = { λ s. s.by_number.entries };
}

impl Sessions {
    pub(crate) fn new(alloc: Global) -> Sessions
        ensures { result ≡ [] }
    {
        Sessions {
            by_number: BTreeMap::new(alloc),
        }
    }

    pub(crate) fn get(&self, number: u64) -> Option<&Session>
        ensures { option_map (λ s. s.now) result ≡ session_of self.now number }
    {
        self.by_number.get(&number)
    }

    /// Puts a session under a number that is not open.
    pub(crate) fn insert(&mut self, number: u64, session: Session) -> Result<(), AllocError>
        ensures ok { OnOk result ((n : ℕ)
            → session_of self.new n ≡ cond (n == number) (Some session) (session_of self.old n)) }
        ensures err { OnErr result (self.new ≡ self.old) }
    {
        drop(self.by_number.insert(number, session)?);
        Ok(())
    }

    /// Takes a session out. It takes no memory.
    pub(crate) fn remove(&mut self, number: u64)
        ensures { (n : ℕ) → session_of self.new n ≡ cond (n == number) None (session_of self.old n) }
    {
        drop(self.by_number.remove(&number));
    }

    /// Makes a call of a session, where it is open.
    pub(crate) fn call(&mut self, number: u64, call: Call) -> Option<Result<Reply, AllocError>>
        ensures { Calls number (call_of call) self.old self.new result }
    {
        match self.by_number.get_mut(&number) {
            Some(session) => Some(session.call(call)),
            None => {
                drop(call);
                None
            }
        }
    }

    /// Prepares a call of a session: allocates all that it needs.
    pub(crate) fn ready(&mut self, number: u64, call: Call) -> Result<Ready, AllocError>
        requires { IsSome (session_of self.old number) }
        ensures { Readies number (call_of call) self.old self.new result }
    {
        match self.by_number.get_mut(&number) {
            Some(session) => session.ready(call),
            None => unreachable!(),
        }
    }

    /// Does what is ready. It takes no memory.
    pub(crate) fn take(&mut self, number: u64, ready: Ready) -> Reply
        requires { option_map (λ s. s.has_room) (session_of self.old number) ≡ Some true }
        ensures reply { reply_of result ≡ ready.reply }
        ensures state { Takes number ready self.old self.new }
    {
        match self.by_number.get_mut(&number) {
            Some(session) => session.take(ready),
            None => unreachable!(),
        }
    }
}
