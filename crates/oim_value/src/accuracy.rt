//! How far a number may be off (the attribute `decimals` of XBRL 2.1). The range is the project's own.

ghost use Rattle.std.specs.Prelude.{◌≡◌, pos, neg_ℤ, ◌≤ℤ◌};
ghost use Rattle.filing_model.specs.Oim.Numerals.{most_fraction_digits, most_whole_digits};
ghost use Rattle.filing_model.specs.Oim.Intervals.{accuracy_of};
ghost use Rattle.oim_value.specs.Accuracies.{accuracy_view};

use crate::decimal::{MOST_FRACTION_DIGITS, MOST_WHOLE_DIGITS};
use filing_model::NumberFault;
use std::marker::Model;

/// The place of the last digit that counts: 2 for hundredths, 0 for ones, -3 for thousands.
/// It is a place that a numeral may have: from -20 (`MOST_WHOLE_DIGITS`) to 15 (`MOST_FRACTION_DIGITS`).
#[derive(Clone, Copy, Debug, PartialEq, Eq)]
pub struct Decimals {
    place: i8,
}

impl Model for Decimals {
    ghost use Rattle.std.specs.Prelude.{ℤ, IsTrue};
    ghost use Rattle.filing_model.specs.Oim.Intervals.{are_decimals};

    ghost Value = { ℤ };

    ghost view = { λ d. d.place };

    ghost inverse = { λ z. record { place = z } };

    ghost invariant = { λ d. IsTrue (are_decimals d.place) };
}

impl Decimals {
    /// The place of the last digit that counts.
    pub fn place(self) -> i8
        ensures value { result ≡ self }
        ensures least { neg_ℤ (pos most_whole_digits) ≤ℤ self }
        ensures most { self ≤ℤ pos most_fraction_digits }
    {
        self.place
    }
}

/// How far a number may be off: not at all, or half of one at the last place that counts.
#[derive(Clone, Copy, Debug, PartialEq, Eq)]
pub enum Accuracy {
    Exact,
    To(Decimals),
}

impl Accuracy {
    /// The accuracy of a number with these decimals, or with none. `DecimalsOutOfRange` where they are no place that a numeral may have.
    pub fn of(decimals: Option<i64>) -> Result<Accuracy, NumberFault>
        ensures { accuracy_view result ≡ accuracy_of decimals }
    {
        let Some(place) = decimals else {
            return Ok(Accuracy::Exact);
        };
        let least = -(MOST_WHOLE_DIGITS as i64);
        let most = MOST_FRACTION_DIGITS as i64;
        if place < least || most < place {
            return Err(NumberFault::DecimalsOutOfRange);
        }
        Ok(Accuracy::To(Decimals { place: place as i8 }))
    }
}
