//! Numeric tables: which concepts are numeric.

ghost use Rattle.std.specs.Prelude.{◌≡◌, Ok, string_bytes};
ghost use Rattle.filing_model.specs.Oim.Tables.{row_cmp, table_of};
ghost use Rattle.filing_model.specs.Oim.Facts.{is_numeric};
ghost use Rattle.oim_fact.specs.Texts.{rows_view};

use std::alloc::AllocError;
use std::cmp::Ordering;
use std::marker::Model;

/// The numeric concepts, as pairs of a URI and a local name. Contracts see the list of them in byte order, none twice.
#[derive(Debug, Drop)]
pub struct NumericTable {
    rows: Vec<(String, String)>,
}

impl Model for NumericTable {
    ghost use Rattle.std.specs.Prelude.{T};
    ghost use Rattle.filing_model.specs.Oim.Facts.{Table};
    ghost use Rattle.oim_fact.specs.Texts.{rows_view};
    ghost use Rattle.oim_fact.specs.Tables.{is_table};

    ghost Value = { Table };

    ghost view = { λ t. rows_view t.rows.items };

    ghost invariant = { λ t. T (is_table (rows_view t.rows.items)) };
}

/// The order of a row and of a URI with a local name.
fn cmp_row(row: &(String, String), uri: &str, local: &str) -> Ordering
    ensures { result ≡ row_cmp (string_bytes row.now.0, string_bytes row.now.1) (uri.now, local.now) }
{
    row.0
        .as_str()
        .cmp(uri)
        .then_with(|| row.1.as_str().cmp(local))
}

impl NumericTable {
    /// The table of these pairs, in whatever order they stand; one that stands twice counts once. It sorts in place, so it cannot run out of memory.
    pub fn of(rows: Vec<(String, String)>) -> Result<NumericTable, AllocError>
        ensures { result ≡ Ok (table_of (rows_view rows.items)) }
    {
        let mut rows = rows;
        rows.sort_unstable();
        rows.dedup();
        Ok(NumericTable { rows })
    }

    /// Whether the concept with this local name at this URI is numeric.
    pub fn has(&self, uri: &str, local: &str) -> bool
        ensures { result ≡ is_numeric self.now (uri.now, local.now) }
    {
        self.rows
            .binary_search_by(|row| cmp_row(row, uri, local))
            .is_ok()
    }
}
