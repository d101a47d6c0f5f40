//! Reports, and the parts that they are made of.

ghost use Rattle.std.specs.Prelude.{◌≡◌, IfOk};
ghost use Rattle.filing_model.specs.Reading.DeclaredValue.{report_declaring};
ghost use Rattle.oim_report.specs.Parts.{AreParts, facts_view, parts_of, whole};

use crate::entries::Entries;
use crate::info::with_allowed;
use filing_model::Allowed;
use oim_fact::{Fact, Names};
use std::alloc::{AllocError, Global};
use std::marker::Model;
use std::sync::Arc;

/// The parts of a report: the compact text of `documentInfo`, the prefixes with the numeric table,
/// the allowed duplicates that it declares, and facts under their identifiers.
#[derive(Debug, Drop)]
pub struct ReportParts {
    pub info: String,
    pub names: Names,
    pub allowed: Allowed,
    pub facts: Vec<(String, Arc<Fact>)>,
}

impl Model for ReportParts {
    ghost use Rattle.std.specs.Prelude.{string_bytes};
    ghost use Rattle.oim_report.specs.Parts.{Parts, facts_view};

    ghost Value = { Parts };

    ghost view = { λ p. record {
      info = string_bytes p.info;
      names = p.names;
      allowed = p.allowed;
      facts = facts_view p.facts.items;
    } };
}

/// A report of xBRL-JSON 1.0. It need not obey the allowed duplicates that it declares.
#[derive(Debug, Drop)]
pub struct Report {
    info: String,
    names: Names,
    allowed: Allowed,
    facts: Vec<(String, Arc<Fact>)>,
}

impl Model for Report {
    ghost use Rattle.std.specs.Prelude.{string_bytes};
    ghost use Rattle.filing_model.specs.Oim.Reports.{Report as PlainReport};
    ghost use Rattle.oim_report.specs.Parts.{AreParts, facts_view, whole};

    ghost Value = { PlainReport };

    ghost view = { λ r. whole (record {
      info = string_bytes r.info;
      names = r.names;
      allowed = r.allowed;
      facts = facts_view r.facts.items;
    }) };

    ghost invariant = { λ r. AreParts (record {
      info = string_bytes r.info;
      names = r.names;
      allowed = r.allowed;
      facts = facts_view r.facts.items;
    }) };
}

/// Clones of the identifiers, each with its fact, which is shared.
fn clone_facts(facts: &Vec<(String, Arc<Fact>)>) -> Result<Vec<(String, Arc<Fact>)>, AllocError>
    ensures { IfOk result (λ v. facts_view v.items ≡ facts_view facts.now.items) }
{
    let mut copies = Vec::with_capacity(*facts.allocator(), facts.len())?;
    for (id, fact) in facts {
        copies.push((id.clone()?, fact.clone()?))?;
    }
    Ok(copies)
}

impl Clone for Report {
    ghost is_clone = { λ old new. new ≡ old };

    /// A report with the same facts, which are shared.
    fn clone(&self) -> Result<Report, AllocError> {
        Ok(Report {
            info: self.info.clone()?,
            names: self.names.clone()?,
            allowed: self.allowed,
            facts: clone_facts(&self.facts)?,
        })
    }
}

impl Report {
    /// The report of these parts. Its facts stand in byte order of their identifiers, none twice.
    /// Its info is that of a report with these prefixes and this declared value.
    pub fn of(parts: ReportParts) -> Report
        requires { AreParts parts }
        ensures { result ≡ whole parts }
    {
        let ReportParts {
            info,
            names,
            allowed,
            facts,
        } = parts;
        Report {
            info,
            names,
            allowed,
            facts,
        }
    }

    /// The parts of which `of` makes the same report.
    pub fn into_parts(self) -> ReportParts
        ensures parts { result ≡ parts_of self }
        ensures again { AreParts result }
    {
        let Report {
            info,
            names,
            allowed,
            facts,
        } = self;
        ReportParts {
            info,
            names,
            allowed,
            facts,
        }
    }

    /// The report with this declared value, whatever it declared before: its info says it. The names and the facts are those of the report, which is given up.
    pub fn with_allowed(self, alloc: Global, allowed: Allowed) -> Result<Report, AllocError>
        ensures { IfOk result (λ r. r ≡ report_declaring self allowed) }
    {
        let Report {
            info,
            names,
            facts,
            ..
        } = self;
        let info = with_allowed(alloc, &info, allowed)?;
        Ok(Report {
            info,
            names,
            allowed,
            facts,
        })
    }

    /// The compact text of `documentInfo`, with its members in byte order of their names.
    pub fn info(&self) -> &str
        ensures info { result.now ≡ self.now.info }
        ensures parts { AreParts (parts_of self.now) }
    {
        &self.info
    }

    /// The prefixes with their URIs, and the numeric table by which the facts were read.
    pub fn names(&self) -> &Names
        ensures { result.now ≡ self.now.names }
    {
        &self.names
    }

    /// The allowed duplicates that it declares; all, where it declares none.
    pub fn allowed(&self) -> Allowed
        ensures { result ≡ self.now.allowed }
    {
        self.allowed
    }

    /// The facts in byte order of their identifiers, none twice.
    pub fn facts(&self) -> &[(String, Arc<Fact>)]
        ensures { facts_view result.now ≡ self.now.facts.entries }
    {
        &self.facts
    }

    /// The facts one by one, in byte order of their identifiers.
    pub fn entries(&self) -> Entries<'_>
        ensures { result ≡ self.now.facts.entries }
    {
        Entries::of(self.facts())
    }
}
