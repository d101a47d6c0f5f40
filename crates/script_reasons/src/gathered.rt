//! `Gathered`: the reasons of one line.

ghost use Rattle.std.specs.Prelude.{◌≡◌, ◌<◌, ◌≤◌, [], Bool, true, vec_len, IfOk, OnOk, option_map, string_bytes};
ghost use Rattle.filing_model.specs.Common.Text.{Text};
ghost use Rattle.script_reasons.specs.ToldFacts.{KeepsTo, are_told_of, is_told_of};

use crate::reasons::Reason;
use crate::told::{MOST, Told};
use std::alloc::{AllocError, Global};

/// The reasons so far. Those beyond the hundredth are counted.
#[derive(Drop)]
pub(crate) struct Gathered {
    pub(crate) reasons: Vec<Reason>,
    pub(crate) more: u64,
    ghost few: { vec_len reasons ≤ 100 },
}

/// An own copy of the identifier of a fact.
fn own_id(alloc: Global, id: Option<&str>) -> Result<Option<String>, AllocError>
    ensures { IfOk result (λ o. option_map string_bytes o ≡ option_map (λ t. t.now) id.entry) }
{
    match id {
        Some(id) => Ok(Some(String::from_str(alloc, id)?)),
        None => Ok(None),
    }
}

impl Gathered {
    pub(crate) fn new(alloc: Global) -> Gathered
        ensures { result.reasons.items ≡ [] }
    {
        Gathered {
            reasons: Vec::new(alloc),
            more: 0,
        }
    }

    /// The one reason of a line.
    pub(crate) fn of(alloc: Global, said: String) -> Result<Gathered, AllocError>
        ensures some { IfOk result (λ g. 0 < vec_len g.reasons) }
        ensures of_none { IfOk result (λ g. (of : Text → Bool) → are_told_of of g.reasons.items ≡ true) }
    {
        let mut reasons = Vec::new(alloc);
        reasons.push(Reason { fact: None, said })?;
        Ok(Gathered { reasons, more: 0 })
    }

    /// Adds one thing that is wrong with a fact, or with the line where no identifier is given.
    fn put(&mut self, alloc: Global, id: Option<&str>, said: String) -> Result<(), AllocError>
        ensures { OnOk result ((of : Text → Bool) → is_told_of of (option_map (λ t. t.now) id.entry) ≡ true
            → KeepsTo of self.old.reasons.items self.new.reasons.items) }
    {
        if self.reasons.len() < MOST {
            let fact = own_id(alloc, id)?;
            self.reasons.push(Reason { fact, said })?;
        } else {
            self.more = self.more.saturating_add(1);
        }
        Ok(())
    }

    /// Adds what was found of a fact, or of the line where no identifier is given.
    pub(crate) fn add(
        &mut self,
        alloc: Global,
        id: Option<&str>,
        told: Told,
    ) -> Result<(), AllocError>
        ensures { OnOk result ((of : Text → Bool) → is_told_of of (option_map (λ t. t.now) id.entry) ≡ true
            → KeepsTo of self.old.reasons.items self.new.reasons.items) }
    {
        let Told { said, more } = told;
        for said in said {
            self.put(alloc, id, said)?;
        }
        self.more = self.more.saturating_add(more);
        Ok(())
    }
}
