//! `Told`: what is wrong with a line or with one fact, as it is found.

ghost use Rattle.std.specs.Prelude.{◌≡◌, ◌<◌, vec_len, OnOk};

use filing_model::Trouble;
use std::alloc::{AllocError, Global};

/// Things that are reported about one line at most.
pub(crate) const MOST: usize = 100;

/// What was found so far. What is found beyond the hundredth is counted.
#[derive(Drop)]
pub struct Told {
    /// What is wrong, first what a reply tells.
    pub said: Vec<String>,
    /// How much more is wrong.
    pub more: u64,
}

impl Told {
    /// Nothing yet.
    pub fn new(alloc: Global) -> Told
        ensures { vec_len result.said ≡ 0 }
    {
        Told {
            said: Vec::new(alloc),
            more: 0,
        }
    }

    /// Adds one thing that is wrong.
    pub fn tell(&mut self, said: String) -> Result<(), AllocError>
        ensures { OnOk result (0 < vec_len self.new.said) }
    {
        if self.said.len() < MOST {
            self.said.push(said)?;
        } else {
            self.more = self.more.saturating_add(1);
        }
        Ok(())
    }

    /// Tells a fault in general, where nothing was found.
    pub(crate) fn tell_unless_told(
        &mut self,
        alloc: Global,
        trouble: Trouble,
    ) -> Result<(), AllocError>
        ensures { OnOk result (0 < vec_len self.new.said) }
    {
        if self.said.is_empty() {
            self.tell(format!(in alloc; "{trouble}")?)?;
        }
        Ok(())
    }
}
