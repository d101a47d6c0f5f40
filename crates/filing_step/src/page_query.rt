//! `PageQuery`: what a page looks for, and `PeriodFilter`: which period its facts have.

ghost use Rattle.std.specs.Prelude.{◌≡◌, IfOk};
ghost use Rattle.oim_fact.specs.Texts.{text_view};

use oim_fact::clone_text;
use std::alloc::AllocError;
use std::marker::Model;

/// Which period the facts of a page have.
#[derive(Drop)]
pub enum PeriodFilter {
    /// Any period, or none.
    Any,
    /// No period.
    Without,
    /// This period.
    Text(String),
}

impl Clone for PeriodFilter {
    ghost use Rattle.std.specs.Prelude.{◌≡◌};
    ghost use Rattle.filing_step.specs.PeriodFilter.{period_filter_of};

    ghost is_clone = { λ old new. period_filter_of new ≡ period_filter_of old };

    fn clone(&self) -> Result<PeriodFilter, AllocError> {
        match self {
            PeriodFilter::Any => Ok(PeriodFilter::Any),
            PeriodFilter::Without => Ok(PeriodFilter::Without),
            PeriodFilter::Text(period) => Ok(PeriodFilter::Text(period.clone()?)),
        }
    }
}

/// What a page looks for: a concept, a period, and identifiers greater than `after`, where it is given.
#[derive(Drop)]
pub struct PageQuery {
    pub concept: String,
    pub period: PeriodFilter,
    pub after: Option<String>,
}

impl Model for PageQuery {
    ghost use Rattle.filing_model.specs.Sessions.Calls.{PageQuery as PlainPageQuery};

    ghost Value = { PlainPageQuery };

    ghost use Rattle.std.specs.Prelude.{string_bytes};
    ghost use Rattle.oim_fact.specs.Texts.{text_view};
    ghost use Rattle.filing_step.specs.PeriodFilter.{period_filter_of};

    ghost view = { λ s. record {
      concept = string_bytes s.concept;
      period = period_filter_of s.period;
      after = text_view s.after;
    } };
}

impl Clone for PageQuery {
    ghost use Rattle.std.specs.Prelude.{◌≡◌};

    ghost is_clone = { λ old new. new ≡ old };

    fn clone(&self) -> Result<PageQuery, AllocError> {
        let concept = self.concept.clone()?;
        let period = self.period.clone()?;
        let after = clone_text(&self.after)?;
        Ok(PageQuery {
            concept,
            period,
            after,
        })
    }
}
