//! Things stand in the order of their plain values.

ghost use Rattle.std.specs.Prelude.{◌≡◌, option_map, refl, Some};
ghost use Rattle.std.specs.Cmp.{on_total, partial_order_from_agreeing_total};
ghost use Rattle.std.specs.Cmp.Lexicographic.{slice_cmp};
ghost use Rattle.std.specs.Option.{option_cmp};
ghost use Rattle.filing_model.specs.Common.Text.{text_cmp};
ghost use Rattle.filing_model.specs.Sessions.Things.{rank_of, asked_parts, parts_of, thing_cmp};
ghost use Rattle.filing_model.proofs.Sessions.Things.{thing_cmp-total};
ghost use Rattle.oim_fact.specs.Texts.{text_view};
ghost use Rattle.filing_step.specs.PeriodFilter.{period_filter_of};
ghost use Rattle.filing_step.specs.Ordered.{page_query_order};
ghost use Rattle.filing_step.specs.Steps.{thing_of};

use crate::page_query::{PageQuery, PeriodFilter};
use crate::thing::Thing;
use std::cmp::Ordering;

/// How texts stand to each other that may not be there.
fn order_texts(one: Option<&str>, other: Option<&str>) -> Ordering
    ensures { result ≡ option_cmp text_cmp (option_map (λ t. t.now) one.entry) (option_map (λ t. t.now) other.entry) }
{
    one.cmp(&other)
}

fn order_optional_texts(one: &Option<String>, other: &Option<String>) -> Ordering
    ensures { result ≡ option_cmp text_cmp (text_view one.now) (text_view other.now) }
{
    order_texts(one.as_deref(), other.as_deref())
}

/// Any period, then none, then each by its bytes.
fn order_periods(one: &PeriodFilter, other: &PeriodFilter) -> Ordering
    ensures { result ≡ slice_cmp (option_cmp text_cmp) (asked_parts (period_filter_of one.now))
        (asked_parts (period_filter_of other.now)) }
{
    match (one, other) {
        (PeriodFilter::Any, PeriodFilter::Any) | (PeriodFilter::Without, PeriodFilter::Without) =>
            Ordering::Equal,
        (PeriodFilter::Text(one), PeriodFilter::Text(other)) => one.cmp(other),
        (PeriodFilter::Any, _) | (PeriodFilter::Without, PeriodFilter::Text(_)) => Ordering::Less,
        (PeriodFilter::Without, PeriodFilter::Any) | (PeriodFilter::Text(_), _) =>
            Ordering::Greater,
    }
}

fn order_queries(one: &PageQuery, other: &PageQuery) -> Ordering
    ensures { result ≡ page_query_order one.now other.now }
{
    one.concept
        .cmp(&other.concept)
        .then(order_periods(&one.period, &other.period))
        .then(order_optional_texts(&one.after, &other.after))
}

/// The place of its kind among the kinds.
fn rank(thing: &Thing) -> u8
    ensures { result ≡ rank_of (thing_of thing.now) }
{
    match thing {
        Thing::Report(..) => 0,
        Thing::Id(..) => 1,
        Thing::Cell(..) => 2,
        Thing::Range(..) => 3,
        Thing::Policy(..) => 4,
    }
}

/// How two things of one kind stand.
fn order_within_kind(one: &Thing, other: &Thing) -> Ordering
    ensures { rank_of (thing_of one.now) ≡ rank_of (thing_of other.now)
        → result ≡ slice_cmp (option_cmp text_cmp) (parts_of (thing_of one.now)) (parts_of (thing_of other.now)) }
{
    match (one, other) {
        (Thing::Id(report, id), Thing::Id(other, other_id)) => {
            report.cmp(other).then(id.cmp(other_id))
        }
        (Thing::Cell(report, dims), Thing::Cell(other, other_dims)) => {
            report.cmp(other).then(dims.cmp(other_dims))
        }
        (Thing::Range(report, query, upto), Thing::Range(other, other_query, other_upto)) => {
            report
                .cmp(other)
                .then(order_queries(query, other_query))
                .then(order_optional_texts(upto, other_upto))
        }
        (Thing::Report(report), Thing::Report(other))
        | (Thing::Policy(report), Thing::Policy(other)) => report.cmp(other),
        _ => Ordering::Equal,
    }
}

impl PartialOrd for Thing {
    ghost partial_cmp = { λ a b. Some (thing_cmp (thing_of a) (thing_of b)) };

    ghost laws = { partial_order_from_agreeing_total (λ a b. thing_cmp (thing_of a) (thing_of b))
        (on_total thing_of thing_cmp-total) (λ a b. refl) (λ a b. refl) };

    fn partial_cmp(&self, other: &Thing) -> Option<Ordering> {
        Some(self.cmp(other))
    }
}

impl Ord for Thing {
    ghost cmp = { λ a b. thing_cmp (thing_of a) (thing_of b) };

    ghost total = { on_total thing_of thing_cmp-total };

    ghost matches_partial_cmp = { λ a b. refl };

    ghost matches_eq = { λ a b. refl };

    fn cmp(&self, other: &Thing) -> Ordering {
        match rank(self).cmp(&rank(other)) {
            Ordering::Equal => order_within_kind(self, other),
            order => order,
        }
    }
}
