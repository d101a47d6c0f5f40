//! The intervals that rounded numbers mean, in half units, so that their ends are whole.

ghost use Rattle.std.specs.Prelude.{◌≡◌, ◌≤◌, ℤ, pos, ◌-ℤ◌, ◌*ℤ◌, nat_abs, ◌↔◌, IsTrue, IsSome, IfSome};
ghost use Rattle.std.specs.Bool.{OnTrue, OnFalse};
ghost use Rattle.filing_model.specs.Oim.Intervals.{interval_of, IsWithin, ShareANumber, meets};
ghost use Rattle.oim_value.specs.Accuracies.{decimals_of, half_width_of};
ghost use Rattle.oim_value.specs.Numbers.{HasBoundedEnds, number_limit};

use crate::accuracy::Accuracy;
use crate::decimal::{Decimal, MOST_FRACTION_DIGITS};
use std::marker::Model;

/// All numbers from one to another, both included. Contracts see the two ends, in half units; neither is past three times `number_limit` in size.
#[derive(Clone, Copy, Debug, PartialEq, Eq)]
pub struct Interval {
    low: i128,
    high: i128,
}

impl Model for Interval {
    ghost use Rattle.filing_model.specs.Oim.Intervals.{Interval as Ends};
    ghost use Rattle.oim_value.specs.Numbers.{HasBoundedEnds};

    ghost Value = { Ends };

    ghost view = { λ i. record { low = i.low; high = i.high } };

    ghost inverse = { λ i. record { low = i.low; high = i.high } };

    ghost invariant = { λ i. HasBoundedEnds (record { low = i.low; high = i.high }) };
}

impl Decimal {
    /// All numbers that this one may mean: the number itself where it is exact, else all within half of one at the last place that counts.
    pub fn interval(self, accuracy: Accuracy) -> Interval
        ensures value { result ≡ interval_of self (decimals_of accuracy) }
        ensures near { (x : ℤ) → IsWithin result x
            ↔ (nat_abs (x -ℤ pos 2 *ℤ self) ≤ half_width_of (decimals_of accuracy)) }
        ensures ends { HasBoundedEnds result }
    {
        let middle = 2 * self.units();
        let half = half_width(accuracy);
        Interval {
            low: middle - half,
            high: middle + half,
        }
    }
}

/// Half of one at the last place that counts, in half units; nothing where the number is exact.
fn half_width(accuracy: Accuracy) -> i128
    ensures value { result ≡ pos (half_width_of (decimals_of accuracy)) }
    ensures bound { half_width_of (decimals_of accuracy) ≤ number_limit }
{
    match accuracy {
        Accuracy::Exact => 0,
        Accuracy::To(decimals) => {
            let places = MOST_FRACTION_DIGITS as i32 - i32::from(decimals.place());
            10i128.pow(places as u32)
        }
    }
}

impl Interval {
    /// Whether some number is in both.
    pub fn meets(&self, other: &Interval) -> bool
        ensures shared { IsTrue result ↔ ShareANumber self.now other.now }
        ensures test { result ≡ meets self.now other.now }
        ensures ends { HasBoundedEnds self.now }
    {
        self.low <= other.high && other.low <= self.high
    }

    /// Leaves what is in both, and answers true; where nothing is, it answers false and changes nothing.
    pub fn narrow(&mut self, other: &Interval) -> bool
        ensures shared { IsTrue result ↔ ShareANumber self.old other.now }
        ensures common { OnTrue result ((x : ℤ) → IsWithin self.new x
            ↔ (IsWithin self.old x × IsWithin other.now x)) }
        ensures unchanged { OnFalse result (self.new ≡ self.old) }
        ensures ends { HasBoundedEnds self.new }
    {
        let Some(common) = self.common_part(other) else {
            return false;
        };
        *self = common;
        true
    }

    /// What is in both, where anything is.
    fn common_part(&self, other: &Interval) -> Option<Interval>
        ensures shared { IsSome result ↔ ShareANumber self.now other.now }
        ensures common { IfSome result (λ i. (x : ℤ) → IsWithin i x
            ↔ (IsWithin self.now x × IsWithin other.now x)) }
        ensures ends { IfSome result HasBoundedEnds }
        ensures own_ends { HasBoundedEnds self.now }
    {
        if !self.meets(other) {
            return None;
        }
        Some(Interval {
            low: self.low.max(other.low),
            high: self.high.min(other.high),
        })
    }
}
