//! `Call`: what a session may be asked.

use crate::limit::Limit;
use crate::page_query::PageQuery;
use oim_fact::{Allowed, DimSet, RawFact};

/// What a session may be asked. Each call names its report first.
#[derive(Drop)]
pub enum Call {
    /// The fact of an identifier.
    Get(String, String),
    /// The class of a cell, and the identifiers of its facts.
    Cell(String, DimSet),
    /// The first identifiers that a query finds.
    Page(String, PageQuery, Limit),
    /// A fact goes under an identifier that is not there.
    Add(String, String, RawFact),
    /// The fact of an identifier goes away.
    Remove(String, String),
    /// The allowed duplicates that the report declares.
    Declared(String),
    /// The report declares these allowed duplicates from now on.
    Declare(String, Allowed),
}
