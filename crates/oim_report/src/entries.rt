//! The facts of a report, one by one.
ghost use Rattle.std.specs.Prelude.{◌≡◌};
ghost use Rattle.std.specs.Iterator.{YieldsFirstBy, item_count};
ghost use Rattle.oim_report.specs.Entries.{entry_seen};
ghost use Rattle.oim_report.specs.Parts.{facts_view};

use oim_fact::Fact;
use std::marker::Model;
use std::sync::Arc;

/// Facts under their identifiers. Contracts see the list of those still to come.
#[derive(Drop)]
pub struct Entries<'a> {
    rest: &'a [(String, Arc<Fact>)],
}

impl<'a> Model for Entries<'a> {
    ghost use Rattle.std.specs.Prelude.{List};
    ghost use Rattle.filing_model.specs.Common.Text.{Text};
    ghost use Rattle.filing_model.specs.Oim.Facts.{Fact as PlainFact};
    ghost use Rattle.oim_report.specs.Parts.{facts_view};

    ghost Value = { List (Text × PlainFact) };

    ghost view = { λ e. facts_view e.rest.now };
}

impl<'a> Entries<'a> {
    pub(crate) fn of(facts: &'a [(String, Arc<Fact>)]) -> Entries<'a>
        ensures { result ≡ facts_view facts.now }
    {
        Entries { rest: facts }
    }
}

impl<'a> Iterator for Entries<'a> {
    type Item = (&'a str, &'a Fact);

    ghost next_gives = { YieldsFirstBy entry_seen (λ entries. entries) };

    ghost remaining = { item_count (λ entries. entries) };

    fn next(&mut self) -> Option<(&'a str, &'a Fact)> {
        let ((id, fact), rest) = self.rest.split_first()?;
        self.rest = rest;
        Some((id, fact))
    }
}
