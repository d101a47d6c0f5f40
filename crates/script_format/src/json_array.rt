//! `JsonArray`: the parts of a JSON array, in either form of value.
//! `TextArray` is one whose texts are those of its line, so that no part is copied before it is used.
ghost use Rattle.std.specs.Prelude.{◌≡◌, option_map, option_and_then};
ghost use Rattle.serde_json.specs.Data.{Data};
ghost use Rattle.serde_json.specs.View.{view};
ghost use Rattle.oim_fact.specs.PeriodFilterRef.{period_filter_of};
ghost use Rattle.filing_model.specs.Reading.ReadReport.{allowed_of_word};
ghost use Rattle.json.specs.Value.{value_view};
ghost use Rattle.oim_report.specs.Borrowed.{IsInRange, data_of};
ghost use Rattle.script_format.specs.ScriptLines as model;
ghost use Rattle.script_format.specs.ReadParts as parts;

use filing_model::Allowed;
use filing_step::Limit;
use json::Value as BorrowedValue;
use oim_fact::PeriodFilterRef;
use oim_report::{allowed_of_word, number};
use serde_json::Value;

/// A value whose parts are asked for by their places. Where it is no array, it has none.
pub trait JsonArray {
    /// A part that is an object, or the text of a report.
    type Part;

    ghost seen: { Self → Data };

    ghost part_seen: { Self.Part → Data };

    /// The text at a place.
    fn text_at(&self, place: usize) -> Option<&str>
        ensures { option_map (λ t. t.now) result ≡ model.text_at place (seen self.now) };

    /// The text or null at a place.
    fn nullable_at(&self, place: usize) -> Option<Option<&str>>
        ensures { option_map (option_map (λ t. t.now)) result ≡ model.nullable_at place (seen self.now) };

    /// The period that is asked for at a place.
    fn asked_at(&self, place: usize) -> Option<PeriodFilterRef<'_>>
        ensures { option_map period_filter_of result ≡ model.asked_at place (seen self.now) };

    /// The limit at a place.
    fn limit_at(&self, place: usize) -> Option<Limit>
        ensures { result ≡ model.limit_at place (seen self.now) };

    /// The object at a place.
    fn object_at(&self, place: usize) -> Option<&Self::Part>
        ensures { option_map (λ p. part_seen p.now) result ≡ model.object_at place (seen self.now) };

    /// The object or text at a place.
    fn report_part_at(&self, place: usize) -> Option<&Self::Part>
        ensures { option_map (λ p. part_seen p.now) result ≡ model.report_part_at place (seen self.now) };

    /// Whether the array ends: none where it has a part from a place on.
    fn ends_at(&self, place: usize) -> Option<()>
        ensures { result ≡ model.ends_at place (seen self.now) };
}

impl JsonArray for Value {
    type Part = Value;

    ghost seen = { view };

    ghost part_seen = { view };

    fn text_at(&self, place: usize) -> Option<&str> {
        self.get(place)?.as_str()
    }

    fn nullable_at(&self, place: usize) -> Option<Option<&str>> {
        match self.get(place)? {
            Value::Null => Some(None),
            Value::String(text) => Some(Some(text)),
            _ => None,
        }
    }

    fn asked_at(&self, place: usize) -> Option<PeriodFilterRef<'_>> {
        match self.get(place)? {
            Value::Bool(true) => Some(PeriodFilterRef::Any),
            Value::Null => Some(PeriodFilterRef::Without),
            Value::String(period) => Some(PeriodFilterRef::Text(period)),
            _ => None,
        }
    }

    fn limit_at(&self, place: usize) -> Option<Limit> {
        Limit::of(self.get(place)?.as_u64()?)
    }

    fn object_at(&self, place: usize) -> Option<&Value> {
        let part = self.get(place)?;
        if part.is_object() { Some(part) } else { None }
    }

    fn report_part_at(&self, place: usize) -> Option<&Value> {
        let part = self.get(place)?;
        if part.is_object() || part.is_string() {
            Some(part)
        } else {
            None
        }
    }

    fn ends_at(&self, place: usize) -> Option<()> {
        if self.get(place).is_some() {
            None
        } else {
            Some(())
        }
    }
}

/// The allowed duplicates that a word says, at a place of an array.
pub fn allowed_at<V: JsonArray>(value: &V, place: usize) -> Option<Allowed>
    ensures { result ≡ option_and_then allowed_of_word (model.text_at place (V.seen value.now)) }
{
    allowed_of_word(value.text_at(place)?)
}

/// A value in which each number is in range.
#[derive(Drop)]
pub(crate) struct TextArray<'a> {
    value: BorrowedValue<'a>,
    ghost in_range: { IsInRange value },
}

fn text_in<'a>(value: &'a BorrowedValue<'_>, place: usize) -> Option<&'a str>
    ensures { option_map (λ t. t.now) result ≡ parts.text_at place (value_view value.now) }
{
    value.at(place)?.as_str()
}

fn nullable_in<'a>(value: &'a BorrowedValue<'_>, place: usize) -> Option<Option<&'a str>>
    ensures { option_map (option_map (λ t. t.now)) result ≡ parts.nullable_at place (value_view value.now) }
{
    match value.at(place)? {
        BorrowedValue::Null => Some(None),
        BorrowedValue::String(text) => Some(Some(*text)),
        _ => None,
    }
}

fn asked_in<'a>(value: &'a BorrowedValue<'_>, place: usize) -> Option<PeriodFilterRef<'a>>
    ensures { option_map period_filter_of result ≡ parts.asked_at place (value_view value.now) }
{
    match value.at(place)? {
        BorrowedValue::Bool(true) => Some(PeriodFilterRef::Any),
        BorrowedValue::Null => Some(PeriodFilterRef::Without),
        BorrowedValue::String(text) => Some(PeriodFilterRef::Text(*text)),
        _ => None,
    }
}

fn limit_in(value: &BorrowedValue<'_>, place: usize) -> Option<Limit>
    ensures { result ≡ parts.limit_at place (value_view value.now) }
{
    let text = value.at(place)?.as_number()?;
    Limit::of(number(text)?.as_u64()?)
}

fn object_in<'a, 'b>(value: &'b BorrowedValue<'a>, place: usize) -> Option<&'b BorrowedValue<'a>>
    ensures { option_map (λ v. value_view v.now) result ≡ parts.object_at place (value_view value.now) }
{
    let part = value.at(place)?;
    match part {
        BorrowedValue::Object(_) => Some(part),
        _ => None,
    }
}

fn report_part_in<'a, 'b>(
    value: &'b BorrowedValue<'a>,
    place: usize,
) -> Option<&'b BorrowedValue<'a>>
    ensures { option_map (λ v. value_view v.now) result ≡ parts.report_part_at place (value_view value.now) }
{
    let part = value.at(place)?;
    match part {
        BorrowedValue::Object(_) | BorrowedValue::String(_) => Some(part),
        _ => None,
    }
}

fn end_in(value: &BorrowedValue<'_>, place: usize) -> Option<()>
    ensures { result ≡ parts.ends_at place (value_view value.now) }
{
    if value.at(place).is_some() {
        None
    } else {
        Some(())
    }
}

impl<'a> TextArray<'a> {
    pub(crate) fn of(value: BorrowedValue<'a>) -> TextArray<'a>
        requires { IsInRange value }
        ensures { result.value ≡ value.entry }
    {
        TextArray { value }
    }
}

impl<'a> JsonArray for TextArray<'a> {
    type Part = BorrowedValue<'a>;

    ghost seen = { λ a. data_of a.value };

    ghost part_seen = { data_of };

    fn text_at(&self, place: usize) -> Option<&str> {
        text_in(&self.value, place)
    }

    fn nullable_at(&self, place: usize) -> Option<Option<&str>> {
        nullable_in(&self.value, place)
    }

    fn asked_at(&self, place: usize) -> Option<PeriodFilterRef<'_>> {
        asked_in(&self.value, place)
    }

    fn limit_at(&self, place: usize) -> Option<Limit> {
        limit_in(&self.value, place)
    }

    fn object_at(&self, place: usize) -> Option<&BorrowedValue<'a>> {
        object_in(&self.value, place)
    }

    fn report_part_at(&self, place: usize) -> Option<&BorrowedValue<'a>> {
        report_part_in(&self.value, place)
    }

    fn ends_at(&self, place: usize) -> Option<()> {
        end_in(&self.value, place)
    }
}
