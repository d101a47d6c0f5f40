//! Things are equal and hash as their plain values do.

ghost use Rattle.std.specs.Prelude.{◌≡◌};
ghost use Rattle.std.specs.List.{fold};
ghost use Rattle.std.specs.Bool.{Decides};
ghost use Rattle.std.specs.Cmp.{eq_by_cmp_equiv, partial_equiv_from_equiv, on_total};
ghost use Rattle.filing_model.specs.Sessions.Things as thing;
ghost use Rattle.filing_model.specs.Sessions.Things.{thing_cmp, thing_eq, asked_hash, page_query_hash, thing_hash};
ghost use Rattle.filing_model.proofs.Sessions.Things.{thing_cmp-total, things_are_keys};
ghost use Rattle.oim_fact.specs.Texts.{text_view};
ghost use Rattle.filing_step.specs.PeriodFilter.{period_filter_of};
ghost use Rattle.filing_step.specs.Steps.{thing_of};

use crate::page_query::{PageQuery, PeriodFilter};
use crate::thing::Thing;
use filing_model::is_same_text;
use oim_fact::DimSet;
use std::hash::{Hash, Hasher};

fn are_same_texts(a: &str, b: &str) -> bool
    ensures { Decides result (a.now ≡ b.now) }
{
    is_same_text(a, b)
}

fn are_same_optional_texts(a: &Option<String>, b: &Option<String>) -> bool
    ensures { Decides result (text_view a.now ≡ text_view b.now) }
{
    match a {
        None => b.is_none(),
        Some(a) => match b {
            None => false,
            Some(b) => are_same_texts(a, b),
        },
    }
}

fn are_same_periods(a: &PeriodFilter, b: &PeriodFilter) -> bool
    ensures { Decides result (period_filter_of a.now ≡ period_filter_of b.now) }
{
    match a {
        PeriodFilter::Any => matches!(b, PeriodFilter::Any),
        PeriodFilter::Without => matches!(b, PeriodFilter::Without),
        PeriodFilter::Text(a) => match b {
            PeriodFilter::Text(b) => are_same_texts(a, b),
            PeriodFilter::Any | PeriodFilter::Without => false,
        },
    }
}

fn are_same_queries(a: &PageQuery, b: &PageQuery) -> bool
    ensures { Decides result (a.now ≡ b.now) }
{
    are_same_texts(&a.concept, &b.concept)
        && are_same_periods(&a.period, &b.period)
        && are_same_optional_texts(&a.after, &b.after)
}

fn are_same_dims(a: &DimSet, b: &DimSet) -> bool
    ensures { Decides result (a.now ≡ b.now) }
{
    a == b
}

fn is_report(report: &str, other: &Thing) -> bool
    ensures { Decides result (thing.Report report.now ≡ thing_of other.now) }
{
    match other {
        Thing::Report(name) => are_same_texts(report, name),
        Thing::Id(..) | Thing::Cell(..) | Thing::Range(..) | Thing::Policy(..) => false,
    }
}

fn is_id(report: &str, id: &str, other: &Thing) -> bool
    ensures { Decides result (thing.Id report.now id.now ≡ thing_of other.now) }
{
    match other {
        Thing::Id(name, other_id) => are_same_texts(report, name) && are_same_texts(id, other_id),
        Thing::Report(..) | Thing::Cell(..) | Thing::Range(..) | Thing::Policy(..) => false,
    }
}

fn is_cell(report: &str, dims: &DimSet, other: &Thing) -> bool
    ensures { Decides result (thing.Cell report.now dims.now ≡ thing_of other.now) }
{
    match other {
        Thing::Cell(name, other_dims) => are_same_texts(report, name)
            && are_same_dims(dims, other_dims),
        Thing::Report(..) | Thing::Id(..) | Thing::Range(..) | Thing::Policy(..) => false,
    }
}

fn is_range(report: &str, query: &PageQuery, upto: &Option<String>, other: &Thing) -> bool
    ensures { Decides result (thing.Range report.now query.now (text_view upto.now) ≡ thing_of other.now) }
{
    match other {
        Thing::Range(name, other_query, other_upto) => {
            are_same_texts(report, name)
                && are_same_queries(query, other_query)
                && are_same_optional_texts(upto, other_upto)
        }
        Thing::Report(..) | Thing::Id(..) | Thing::Cell(..) | Thing::Policy(..) => false,
    }
}

fn is_policy(report: &str, other: &Thing) -> bool
    ensures { Decides result (thing.Policy report.now ≡ thing_of other.now) }
{
    match other {
        Thing::Policy(name) => are_same_texts(report, name),
        Thing::Report(..) | Thing::Id(..) | Thing::Cell(..) | Thing::Range(..) => false,
    }
}

fn are_same_things(a: &Thing, b: &Thing) -> bool
    ensures { Decides result (thing_of a.now ≡ thing_of b.now) }
{
    match a {
        Thing::Report(report) => is_report(report, b),
        Thing::Id(report, id) => is_id(report, id, b),
        Thing::Cell(report, dims) => is_cell(report, dims, b),
        Thing::Range(report, query, upto) => is_range(report, query, upto, b),
        Thing::Policy(report) => is_policy(report, b),
    }
}

impl PartialEq for Thing {
    ghost eq = { λ a b. thing_eq (thing_of a) (thing_of b) };

    ghost laws = { partial_equiv_from_equiv (eq_by_cmp_equiv (on_total thing_of thing_cmp-total)) };

    fn eq(&self, other: &Thing) -> bool {
        are_same_things(self, other)
    }
}

impl Eq for Thing {
    ghost laws = { eq_by_cmp_equiv (on_total thing_of thing_cmp-total) };
}

fn hash_period<H: Hasher>(asked: &PeriodFilter, state: &mut H)
    ensures { state.new ≡ fold H.write state.old (asked_hash (period_filter_of asked.now)) }
{
    match asked {
        PeriodFilter::Any => 0u8.hash(state),
        PeriodFilter::Without => 1u8.hash(state),
        PeriodFilter::Text(period) => {
            2u8.hash(state);
            period.hash(state);
        }
    }
}

fn hash_page_query<H: Hasher>(query: &PageQuery, state: &mut H)
    ensures { state.new ≡ fold H.write state.old (page_query_hash query.now) }
{
    query.concept.hash(state);
    hash_period(&query.period, state);
    query.after.hash(state);
}

impl Hash for Thing {
    ghost hash_input = { λ t. thing_hash (thing_of t) };

    ghost respects_eq = { λ a b. things_are_keys.fed_alike.fed (thing_of a) (thing_of b) };

    fn hash<H: Hasher>(&self, state: &mut H) {
        match self {
            Thing::Report(report) => {
                0u8.hash(state);
                report.hash(state);
            }
            Thing::Id(report, id) => {
                1u8.hash(state);
                report.hash(state);
                id.hash(state);
            }
            Thing::Cell(report, dims) => {
                2u8.hash(state);
                report.hash(state);
                dims.hash(state);
            }
            Thing::Range(report, query, upto) => {
                3u8.hash(state);
                report.hash(state);
                hash_page_query(query, state);
                upto.hash(state);
            }
            Thing::Policy(report) => {
                4u8.hash(state);
                report.hash(state);
            }
        }
    }
}
