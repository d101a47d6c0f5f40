//! The class of a cell in one pass: each fact is compared with the first one and narrows one interval.
//! What some facts are is joined to what others are in the same way.

ghost use Rattle.std.specs.Prelude.{◌≡◌, ◌&&◌, IfSome, List, [], ◌∷◌, ◌++◌};
ghost use Rattle.filing_model.specs.Oim.Facts.{Fact as PlainFact};
ghost use Rattle.filing_model.specs.Oim.Duplicates.{class_of, is_complete, value_pair};
ghost use Rattle.oim_fact.specs.Facts.{value_view};
ghost use Rattle.oim_fact.specs.Tallies.{Describes, IsCommonPart, IsFilled, interval_in};

use crate::fact::{Fact, FactValue};
use crate::pairs::compare_values;
use filing_model::{Class, Pair};
use oim_value::Interval;

/// What some facts are to a first one, and which numbers all of them share.
#[derive(Clone, Copy)]
pub(crate) struct Tally {
    /// There is no fact but the first.
    alone: bool,
    /// All have the dimensions of the first.
    together: bool,
    /// The value of each is a complete duplicate of the first one's.
    complete: bool,
    /// The numbers that are in the interval of every fact.
    shared: Option<Interval>,
}

impl Tally {
    /// The tally of one fact.
    pub(crate) fn of(first: &Fact) -> Tally
        ensures { Describes result first.now [] }
    {
        Tally {
            alone: true,
            together: true,
            complete: true,
            shared: interval_in(&first.value),
        }
    }

    /// Counts one more fact in, compared with the same first one.
    pub(crate) fn add(&mut self, first: &Fact, fact: &Fact)
        ensures { (others : List PlainFact) → Describes self.old first.now others
            → Describes self.new first.now (others ++ fact.now ∷ []) }
    {
        self.alone = false;
        self.together = self.together && first.dims == fact.dims;
        self.complete = self.complete && is_complete(&first.value, &fact.value);
        self.shared = common_part(self.shared, interval_in(&fact.value));
    }

    /// Counts in the facts of another tally, which has a first one of its own.
    pub(crate) fn add_all(&mut self, first: &Fact, other: Tally, other_first: &Fact)
        ensures { (others more : List PlainFact) → Describes self.old first.now others
            → Describes other other_first.now more
            → Describes self.new first.now (others ++ other_first.now ∷ more) }
    {
        let same_dims = first.dims == other_first.dims;
        let same_value = is_complete(&first.value, &other_first.value);
        self.alone = false;
        self.together = all_three(self.together, other.together, same_dims);
        self.complete = all_three(self.complete, other.complete, same_value);
        self.shared = common_part(self.shared, other.shared);
    }

    /// Whether all have the dimensions of the first.
    pub(crate) fn is_together(self) -> bool
        ensures { result ≡ self.together }
    {
        self.together
    }

    /// The class of all facts that were counted in.
    pub(crate) fn class(self) -> Class
        ensures { (first : PlainFact) (others : List PlainFact) → Describes self first others
            → result ≡ class_of (first ∷ others) }
    {
        if self.alone {
            Class::Single
        } else if !self.together {
            Class::Mixed
        } else if self.complete {
            Class::Complete
        } else if self.shared.is_some() {
            Class::Consistent
        } else {
            Class::Inconsistent
        }
    }
}

fn all_three(one: bool, other: bool, last: bool) -> bool
    ensures { result ≡ (one && (other && last)) }
{
    one && other && last
}

fn is_complete(one: &FactValue, other: &FactValue) -> bool
    ensures { result ≡ is_complete (value_pair (value_view one.now) (value_view other.now)) }
{
    matches!(compare_values(one, other), Pair::Complete)
}

/// The interval of a number.
fn interval_in(value: &FactValue) -> Option<Interval>
    ensures interval { result ≡ interval_in (value_view value.now) }
    ensures filled { IfSome result IsFilled }
{
    match value {
        FactValue::Number {
            value,
            accuracy,
            ..
        } => Some(value.interval(*accuracy)),
        _ => None,
    }
}

/// What is in both of two intervals, where there are two and some number is in both.
fn common_part(one: Option<Interval>, other: Option<Interval>) -> Option<Interval>
    ensures { IsCommonPart one other result }
{
    let mut part = one?;
    if part.narrow(&other?) {
        Some(part)
    } else {
        None
    }
}
