//! The names of a report: its prefixes, and the numeric table by which it is read.

ghost use Rattle.std.specs.Prelude.{◌≡◌, option_map, is_some, IsPermutation};
ghost use Rattle.filing_model.specs.Oim.Facts.{uri_of, expanded, is_numeric};
ghost use Rattle.std.specs.Arc.{arc_value};
ghost use Rattle.filing_model.specs.Common.Text.{has_repeats};
ghost use Rattle.filing_model.specs.Common.TextMap.{get};
ghost use Rattle.oim_fact.specs.Texts.{row_of, rows_view, NoneFalls, begins_with, has_equal_neighbours};
ghost use Rattle.oim_fact.specs.Names.{names_of, text_in, column};

use crate::table::NumericTable;
use filing_model::{NamesFault, is_same_text};
use std::alloc::AllocError;
use std::marker::Model;
use std::sync::Arc;

/// The prefixes of a report with their URIs, and the numeric table by which its facts are read.
#[derive(Debug, Drop)]
pub struct Names {
    prefixes: Vec<(String, String)>,
    table: Arc<NumericTable>,
}

impl Model for Names {
    ghost use Rattle.std.specs.Prelude.{T};
    ghost use Rattle.std.specs.Arc.{arc_value};
    ghost use Rattle.std.specs.FinMap.Entries.{is_sorted};
    ghost use Rattle.filing_model.specs.Common.Text.{text_cmp};
    ghost use Rattle.filing_model.specs.Common.TextMap.{from_entries};
    ghost use Rattle.filing_model.specs.Oim.Facts.{Names as PlainNames};
    ghost use Rattle.oim_fact.specs.Texts.{rows_view};

    ghost Value = { PlainNames };

    ghost view = { λ n.
        record { prefixes = from_entries (rows_view n.prefixes.items); table = arc_value n.table } };

    ghost invariant = { λ n. T (is_sorted text_cmp (rows_view n.prefixes.items)) };
}

impl Clone for Names {
    ghost is_clone = { λ old new. new ≡ old };

    fn clone(&self) -> Result<Names, AllocError> {
        let mut prefixes = Vec::with_capacity(*self.prefixes.allocator(), self.prefixes.len())?;
        for (prefix, uri) in &self.prefixes {
            prefixes.push((prefix.clone()?, uri.clone()?))?;
        }
        Ok(Names {
            prefixes,
            table: self.table.clone()?,
        })
    }
}

/// Which text of a prefix and its URI.
#[derive(Clone, Copy)]
enum Column {
    Prefix,
    Uri,
}

impl Column {
    fn text(self, row: &(String, String)) -> &str
        ensures { result.now ≡ text_in self (row_of row.now) }
    {
        match self {
            Column::Prefix => row.0.as_str(),
            Column::Uri => row.1.as_str(),
        }
    }

    /// Whether the first row has this text.
    fn begins_with(self, rows: &[(String, String)], text: &str) -> bool
        ensures { result ≡ begins_with text.now (column self (rows_view rows.now)) }
    {
        match rows {
            [first, ..] => is_same_text(text, self.text(first)),
            [] => false,
        }
    }

    /// Whether some row has the text of the one before it.
    fn has_equal_neighbours(self, rows: &[(String, String)]) -> bool
        ensures { result ≡ has_equal_neighbours (column self (rows_view rows.now)) }
    {
        let mut left = rows;
        while let [first, rest @ ..] = left {
            if self.begins_with(rest, self.text(first)) {
                return true;
            }
            left = rest;
        }
        false
    }

    /// Sorts the rows by this column, and says whether a text stands there twice.
    fn sort_and_find_repeat(self, rows: &mut Vec<(String, String)>) -> bool
        ensures moved { IsPermutation rows.old.items rows.new.items }
        ensures rises { NoneFalls (column self (rows_view rows.new.items)) }
        ensures repeats { result ≡ has_repeats (column self (rows_view rows.old.items)) }
    {
        rows.sort_unstable_by(|a, b| self.text(a).cmp(self.text(b)));
        self.has_equal_neighbours(rows)
    }
}

impl Names {
    /// The names of these prefixes with their URIs, in whatever order they stand, or the first fault. It sorts in place, so it cannot run out of memory.
    pub fn of(
        prefixes: Vec<(String, String)>,
        table: Arc<NumericTable>,
    ) -> Result<Names, NamesFault>
        ensures { result ≡ names_of (rows_view prefixes.items) (arc_value table) }
    {
        let mut prefixes = prefixes;
        let has_alias = Column::Uri.sort_and_find_repeat(&mut prefixes);
        if Column::Prefix.sort_and_find_repeat(&mut prefixes) {
            return Err(NamesFault::NameTwice);
        }
        if has_alias {
            return Err(NamesFault::AliasTwice);
        }
        Ok(Names { prefixes, table })
    }

    /// The URI that a prefix is bound to.
    pub fn uri(&self, prefix: &str) -> Option<&str>
        ensures { option_map (λ t. t.now) result ≡ get self.now.prefixes prefix.now }
    {
        match self
            .prefixes
            .binary_search_by(|row| row.0.as_str().cmp(prefix))
        {
            Ok(place) => Some(self.prefixes[place].1.as_str()),
            Err(_) => None,
        }
    }

    /// The URI to which a name's prefix is bound, and its local name: what stands before and after the first colon, where neither is empty.
    pub(crate) fn expand<'a>(&'a self, name: &'a str) -> Option<(&'a str, &'a str)>
        ensures { option_map (λ p. (p.0.now, p.1.now)) result ≡ expanded self.now.prefixes name.now }
    {
        let (prefix, local) = name.split_once(':')?;
        if prefix.is_empty() {
            return None;
        }
        if local.is_empty() {
            return None;
        }
        Some((self.uri(prefix)?, local))
    }

    /// Whether a name is a prefix that is bound, a colon and a local name.
    pub(crate) fn binds(&self, name: &str) -> bool
        ensures { result ≡ is_some (uri_of self.now.prefixes name.now) }
    {
        self.expand(name).is_some()
    }

    /// Whether the concept with this local name at this URI is numeric.
    pub(crate) fn is_numeric(&self, uri: &str, local: &str) -> bool
        ensures { result ≡ is_numeric self.now.table (uri.now, local.now) }
    {
        self.table.has(uri, local)
    }
}
