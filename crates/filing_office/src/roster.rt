//! `Roster`: how many desks an office has.

ghost use Rattle.std.specs.Prelude.{◌≡◌};

use std::marker::PhantomData;
use std::sync::ledger::Ledger;

/// How many desks an office has: as many as its ledger has parts.
#[derive(Drop)]
pub(crate) struct Roster<L: Ledger> {
    desks: usize,
    of: PhantomData<L>,
    ghost one_each: { desks ≡ L.parts },
}

impl<L: Ledger> Roster<L> {
    pub(crate) fn of(desks: usize) -> Roster<L>
        requires { desks ≡ L.parts }
    {
        Roster {
            desks,
            of: PhantomData,
        }
    }

    pub(crate) fn desks(&self) -> usize
        ensures { result ≡ L.parts }
    {
        self.desks
    }
}
