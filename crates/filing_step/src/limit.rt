//! `Limit`: how many identifiers a page has at most.

ghost use Rattle.std.specs.Prelude.{◌≡◌, T};
ghost use Rattle.filing_model.specs.Sessions.Calls.{is_limit, limit_of};

use std::marker::Model;

/// A number from 1 to 1,000.
#[derive(Drop, Clone, Copy)]
pub struct Limit {
    number: u64,
    ghost within: { T (is_limit number) },
}

impl Model for Limit {
    ghost use Rattle.filing_model.specs.Sessions.Calls.{Limit as PlainLimit};

    ghost Value = { PlainLimit };

    ghost view = { λ l. record { number = l.number; within = l.within } };

    ghost inverse = { λ n. record { number = n.number; within = n.within } };
}

impl Limit {
    /// The limit of this number, or none where it is out of range. It takes no memory.
    pub fn of(number: u64) -> Option<Limit>
        ensures { result ≡ limit_of number }
    {
        if 0 < number && number < 1001 {
            Some(Limit { number })
        } else {
            None
        }
    }

    pub fn number(&self) -> u64
        ensures { result ≡ self.now.number }
    {
        self.number
    }
}
