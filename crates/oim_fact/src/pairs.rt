//! What two facts are to one another.

ghost use Rattle.std.specs.Prelude.{◌≡◌, if◌then◌else◌};
ghost use Rattle.filing_model.specs.Common.Text.{text_eq};
ghost use Rattle.filing_model.specs.Oim.Duplicates.{pair_of, value_pair, number_pair};
ghost use Rattle.oim_value.specs.Accuracies.{decimals_of};
ghost use Rattle.oim_fact.specs.Facts.{value_view};

use crate::fact::{Fact, FactValue};
use filing_model::{Pair, PairedFact, is_same_text};
use oim_value::{Accuracy, Decimal};
use std::cmp::Ordering;

/// How two facts stand to one another by `xbrl:allowedDuplicates` (Open Information Model 1.0). Takes no memory.
/// They are apart where their dimensions differ; else their values decide. The text of a number does not count.
pub fn compare(one: &Fact, other: &Fact) -> Pair
    ensures { result ≡ pair_of one.now other.now }
{
    if one.dims == other.dims {
        compare_values(&one.value, &other.value)
    } else {
        Pair::Apart
    }
}

/// What two values are to one another in one cell.
pub(crate) fn compare_values(one: &FactValue, other: &FactValue) -> Pair
    ensures { result ≡ value_pair (value_view one.now) (value_view other.now) }
{
    match (one, other) {
        (FactValue::Nil, FactValue::Nil) => Pair::Complete,
        (FactValue::Text(text), FactValue::Text(other)) => compare_texts(text, other),
        (
            FactValue::Number {
                value,
                accuracy,
                ..
            },
            FactValue::Number {
                value: other_value,
                accuracy: other_accuracy,
                ..
            },
        ) => compare_numbers(*value, *accuracy, *other_value, *other_accuracy),
        _ => Pair::Inconsistent,
    }
}

fn compare_texts(text: &str, other: &str) -> Pair
    ensures { result ≡ (if text_eq text.now other.now then Pair.Complete else Pair.Inconsistent) }
{
    if is_same_text(text, other) {
        Pair::Complete
    } else {
        Pair::Inconsistent
    }
}

/// Equal numbers with the same accuracy are complete, others consistent where some number is in the intervals of both.
fn compare_numbers(
    value: Decimal,
    accuracy: Accuracy,
    other: Decimal,
    other_accuracy: Accuracy,
) -> Pair
    ensures { result ≡ number_pair value (decimals_of accuracy) other (decimals_of other_accuracy) }
{
    if value == other && accuracy == other_accuracy {
        Pair::Complete
    } else if value
        .interval(accuracy)
        .meets(&other.interval(other_accuracy))
    {
        Pair::Consistent
    } else {
        Pair::Inconsistent
    }
}

impl PairedFact for Fact {
    ghost fact = { λ f. f };

    fn pair(&self, other: &Fact) -> Pair {
        compare(self, other)
    }

    fn cmp_dims(&self, other: &Fact) -> Ordering {
        self.dims.cmp(&other.dims)
    }
}
