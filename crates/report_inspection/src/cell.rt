//! `Cell`: a cell of a report as it is reported.

ghost use Rattle.std.specs.Prelude.{◌≡◌, map, string_bytes};

use filing_model::Class;
use oim_fact::{DimSet, Fact};
use std::marker::Model;
use std::sync::Arc;

/// A cell of more than one fact: the facts with one dimension set.
#[derive(Debug, Drop)]
pub struct Cell {
    /// One of its facts.
    pub(crate) fact: Arc<Fact>,
    pub(crate) class: Class,
    pub(crate) ids: Vec<String>,
    pub(crate) allowed: bool,
}

impl Model for Cell {
    ghost use Rattle.std.specs.Prelude.{map, string_bytes};
    ghost use Rattle.std.specs.Arc.{arc_value};
    ghost use Rattle.report_inspection.specs.Cells.{ToldCell};

    ghost Value = { ToldCell };

    ghost view = { λ c. record {
      dims = (arc_value c.fact).dims;
      class = c.class;
      ids = map string_bytes c.ids.items;
      allowed = c.allowed;
    } };
}

impl Cell {
    /// The dimensions of each of its facts.
    pub fn dims(&self) -> &DimSet
        ensures { result.now ≡ self.now.dims }
    {
        &self.fact.dims
    }

    /// What its facts are to one another, by all pairs.
    pub fn class(&self) -> Class
        ensures { result ≡ self.now.class }
    {
        self.class
    }

    /// The identifiers of its facts in byte order.
    pub fn ids(&self) -> &[String]
        ensures { map string_bytes result.now ≡ self.now.ids }
    {
        &self.ids
    }

    /// Whether it may stand in the report.
    pub fn is_allowed(&self) -> bool
        ensures { result ≡ self.now.allowed }
    {
        self.allowed
    }
}
