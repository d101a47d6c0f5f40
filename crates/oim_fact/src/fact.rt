//! Facts as they are read, and facts that fit the names of their report.

ghost use Rattle.std.specs.Prelude.{◌≡◌, IfOk};
ghost use Rattle.filing_model.specs.Oim.Facts.{is_misplaced};

use crate::dims::DimSet;
use crate::texts::clone_text;
use oim_value::{Accuracy, Decimal};
use std::alloc::{AllocError, Global};
use std::marker::Model;

/// A fact as it is read: its value is a text or null, and nothing of it was looked up. Links are compact JSON text.
#[derive(Debug, Drop)]
pub struct RawFact {
    pub dims: DimSet,
    pub value: Option<String>,
    pub decimals: Option<i64>,
    pub links: Option<String>,
}

impl Model for RawFact {
    ghost use Rattle.filing_model.specs.Oim.Facts.{RawFact as RawFactValue};
    ghost use Rattle.oim_fact.specs.Texts.{text_view};

    ghost Value = { RawFactValue };

    ghost view = { λ r.
        record {
          dims = r.dims;
          value = text_view r.value;
          decimals = r.decimals;
          links = text_view r.links;
        } };
}

impl Clone for RawFact {
    ghost is_clone = { λ old new. new ≡ old };

    fn clone(&self) -> Result<RawFact, AllocError> {
        let dims = self.dims.clone()?;
        let value = clone_text(&self.value)?;
        let links = clone_text(&self.links)?;
        Ok(RawFact {
            dims,
            value,
            decimals: self.decimals,
            links,
        })
    }
}

impl RawFact {
    /// The fact, whose clones share its dimensions from now on.
    pub fn into_shared(self, alloc: Global) -> Result<RawFact, AllocError>
        ensures { IfOk result (λ raw. raw ≡ self) }
    {
        let RawFact {
            dims,
            value,
            decimals,
            links,
        } = self;
        Ok(RawFact {
            dims: dims.into_shared(alloc)?,
            value,
            decimals,
            links,
        })
    }

    /// Whether it has a unit, or decimals with a value, as no text may.
    pub(crate) fn is_misplaced(&self) -> bool
        ensures { result ≡ is_misplaced self.now }
    {
        self.dims.unit().is_some() || (self.decimals.is_some() && self.value.is_some())
    }
}

/// The value of a fact that fits the names of its report.
#[derive(Debug, Drop)]
pub enum FactValue {
    Nil,
    Text(String),
    /// The text is as it was read, with its white space, sign and zeros.
    Number {
        text: String,
        value: Decimal,
        accuracy: Accuracy,
    },
}

/// A fact that fits the names of its report. Links are compact JSON text.
#[derive(Debug, Drop)]
pub struct Fact {
    pub dims: DimSet,
    pub value: FactValue,
    pub links: Option<String>,
}

impl Model for Fact {
    ghost use Rattle.filing_model.specs.Oim.Facts.{Fact as PlainFact};

    ghost Value = { PlainFact };

    ghost use Rattle.oim_fact.specs.Texts.{text_view};
    ghost use Rattle.oim_fact.specs.Facts.{value_view};

    ghost view = { λ f.
        record { dims = f.dims; value = value_view f.value; links = text_view f.links } };
}
