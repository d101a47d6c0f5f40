//! The period filter of a query, borrowed.
ghost use Rattle.std.specs.Prelude.{◌≡◌, option_map};
ghost use Rattle.filing_model.specs.Sessions.Queries.{is_asked};
ghost use Rattle.oim_fact.specs.PeriodFilterRef.{period_filter_of};

use filing_model::is_same_text;

/// Which period the facts of a query have.
#[derive(Clone, Copy, Debug, PartialEq, Eq)]
pub enum PeriodFilterRef<'a> {
    /// Any period, or none.
    Any,
    /// No period.
    Without,
    /// This period.
    Text(&'a str),
}

impl<'a> PeriodFilterRef<'a> {
    /// Whether a period, or none, passes.
    pub fn is_met(self, period: Option<&str>) -> bool
        ensures { result ≡ is_asked (period_filter_of self.entry) (option_map (λ t. t.now) period.entry) }
    {
        match (self, period) {
            (PeriodFilterRef::Any, _) | (PeriodFilterRef::Without, None) => true,
            (PeriodFilterRef::Text(text), Some(period)) => is_same_text(text, period),
            (PeriodFilterRef::Without, Some(_)) | (PeriodFilterRef::Text(_), None) => false,
        }
    }
}
