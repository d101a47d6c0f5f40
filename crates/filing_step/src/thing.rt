//! `Thing`: what a session reads, and a load or a commit touches.

use crate::page_query::PageQuery;
use oim_fact::{DimSet, clone_text};
use std::alloc::AllocError;

/// What can be read and touched. Each thing names its report first.
#[derive(Drop)]
pub enum Thing {
    /// A report that is not there.
    Report(String),
    /// An identifier.
    Id(String, String),
    /// A cell.
    Cell(String, DimSet),
    /// A page query, up to an identifier where one is given. The query is boxed, so that other things and replies have half as many bytes.
    Range(String, Box<PageQuery>, Option<String>),
    /// The allowed duplicates that the report declares.
    Policy(String),
}

impl Clone for Thing {
    ghost use Rattle.std.specs.Prelude.{◌≡◌};
    ghost use Rattle.filing_step.specs.Steps.{thing_of};

    ghost is_clone = { λ old new. thing_of new ≡ thing_of old };

    fn clone(&self) -> Result<Thing, AllocError> {
        match self {
            Thing::Report(report) => Ok(Thing::Report(report.clone()?)),
            Thing::Id(report, id) => Ok(Thing::Id(report.clone()?, id.clone()?)),
            Thing::Cell(report, dims) => Ok(Thing::Cell(report.clone()?, dims.clone()?)),
            Thing::Range(report, query, upto) => Ok(Thing::Range(
                report.clone()?,
                query.clone()?,
                clone_text(upto)?,
            )),
            Thing::Policy(report) => Ok(Thing::Policy(report.clone()?)),
        }
    }
}
