//! The concepts of a report, each a URI and a local name, and those of them that the numeric table lacks.

ghost use Rattle.std.specs.Prelude.{IsTrue, OnOk};
ghost use Rattle.report_inspection.specs.Warnings.{AreOfConcepts, Tells, is_of_concept};

use crate::warning::{Warning, WarningKind, add_warning};
use oim_fact::{Names, NumericTable};
use oim_value::Decimal;
use std::alloc::{AllocError, Global};
use std::collections::{BTreeMap, BTreeSet};

/// URIs at which a local name is looked for at most, so that the time stays near linear.
const MOST_URIS: usize = 100;

/// The first facts of a concept that have a unit, and that have a number as their value.
#[derive(Clone, Copy)]
struct FirstFacts<'a> {
    with_unit: Option<&'a str>,
    with_number: Option<&'a str>,
}

/// None yet.
const NO_FACTS: FirstFacts<'static> = FirstFacts {
    with_unit: None,
    with_number: None,
};

/// The concepts of facts, in byte order of their URIs and local names.
#[derive(Drop)]
struct Concepts<'n, 'a> {
    facts: BTreeMap<(&'n str, &'a str), FirstFacts<'a>>,
}

/// The text of a dimension of a fact.
fn dimension<'a>(fact: &json::Value<'a>, name: &str) -> Option<&'a str> {
    fact.get("dimensions")?.get(name)?.as_str()
}

/// Whether the value of a fact is the text of a number.
fn has_number(fact: &json::Value<'_>) -> bool {
    match fact.get("value") {
        Some(json::Value::String(text)) => Decimal::read(text).is_ok(),
        _ => false,
    }
}

/// The URI and the local name of a concept whose prefix is bound.
fn expanded_name<'n, 'a>(names: &'n Names, concept: &'a str) -> Option<(&'n str, &'a str)> {
    let (prefix, local) = concept.split_once(':')?;
    Some((names.uri(prefix)?, local))
}

impl<'a> FirstFacts<'a> {
    /// Takes the fact under this identifier, where it is the first of its kind.
    fn take(&mut self, id: &'a str, fact: &json::Value<'a>) {
        if self.with_unit.is_none() && dimension(fact, "unit").is_some() {
            self.with_unit = Some(id);
        }
        if self.with_number.is_none() && has_number(fact) {
            self.with_number = Some(id);
        }
    }
}

/// Warns of a concept.
#[tactic(auto, using(crate::proofs::ToldWarnings::one_concept))]
fn push_concept(
    alloc: Global,
    warnings: &mut Vec<Warning>,
    kind: WarningKind,
    id: &str,
    uri: &str,
    local: &str,
) -> Result<(), AllocError>
    requires { IsTrue (is_of_concept kind) }
    ensures { OnOk result (Tells AreOfConcepts warnings.old.items warnings.new.items) }
{
    let name = format!(in alloc; "{uri} {local}")?;
    add_warning(alloc, warnings, kind, Some(id), &name)
}

/// Warns of a concept that has a unit and that the table lacks.
#[tactic(auto, using(crate::proofs::ToldWarnings::no_concept))]
fn warn_of_unit(
    alloc: Global,
    warnings: &mut Vec<Warning>,
    table: &NumericTable,
    concept: &(&str, &str),
    facts: &FirstFacts<'_>,
) -> Result<(), AllocError>
    ensures { OnOk result (Tells AreOfConcepts warnings.old.items warnings.new.items) }
{
    let (uri, local) = *concept;
    let Some(id) = facts.with_unit else {
        return Ok(());
    };
    if table.has(uri, local) {
        return Ok(());
    }
    push_concept(alloc, warnings, WarningKind::NotInTable, id, uri, local)
}

impl<'n, 'a> Concepts<'n, 'a> {
    /// Warns of each concept that has a unit and that the table lacks.
    #[tactic(auto, using(crate::proofs::ToldWarnings::no_concept, crate::proofs::ToldWarnings::more_concepts))]
    fn warn_of_units(
        &self,
        alloc: Global,
        warnings: &mut Vec<Warning>,
        table: &NumericTable,
    ) -> Result<(), AllocError>
        ensures { OnOk result (Tells AreOfConcepts warnings.old.items warnings.new.items) }
    {
        for (concept, facts) in &self.facts {
            warn_of_unit(alloc, warnings, table, concept, facts)?;
        }
        Ok(())
    }

    /// Warns of a numeric concept that no fact has, where this fact has its local name.
    #[tactic(auto, using(crate::proofs::ToldWarnings::no_concept))]
    fn warn_of_other(
        &self,
        alloc: Global,
        warnings: &mut Vec<Warning>,
        table: &NumericTable,
        id: &str,
        uri: &'n str,
        local: &'a str,
    ) -> Result<(), AllocError>
        ensures { OnOk result (Tells AreOfConcepts warnings.old.items warnings.new.items) }
    {
        if !table.has(uri, local) {
            return Ok(());
        }
        if self.facts.contains_key(&(uri, local)) {
            return Ok(());
        }
        push_concept(alloc, warnings, WarningKind::OtherNamespace, id, uri, local)
    }

    /// Warns of each numeric concept at one of these URIs that no fact has, where this fact has its local name.
    #[tactic(auto, using(crate::proofs::ToldWarnings::no_concept, crate::proofs::ToldWarnings::more_concepts))]
    fn warn_of_others(
        &self,
        alloc: Global,
        warnings: &mut Vec<Warning>,
        table: &NumericTable,
        uris: &BTreeSet<&'n str>,
        id: &str,
        local: &'a str,
    ) -> Result<(), AllocError>
        ensures { OnOk result (Tells AreOfConcepts warnings.old.items warnings.new.items) }
    {
        for uri in uris {
            self.warn_of_other(alloc, warnings, table, id, uri, local)?;
        }
        Ok(())
    }

    /// Warns where a concept has a number and the table lacks it, and has its local name at another of these URIs.
    #[tactic(auto, using(crate::proofs::ToldWarnings::no_concept))]
    fn warn_of_number(
        &self,
        alloc: Global,
        warnings: &mut Vec<Warning>,
        table: &NumericTable,
        uris: &BTreeSet<&'n str>,
        concept: &(&'n str, &'a str),
        facts: &FirstFacts<'_>,
    ) -> Result<(), AllocError>
        ensures { OnOk result (Tells AreOfConcepts warnings.old.items warnings.new.items) }
    {
        let (uri, local) = *concept;
        let Some(id) = facts.with_number else {
            return Ok(());
        };
        if table.has(uri, local) {
            return Ok(());
        }
        self.warn_of_others(alloc, warnings, table, uris, id, local)
    }

    /// Warns of each concept that has a number and that the table lacks,
    /// where it has the local name at another of these URIs.
    #[tactic(auto, using(crate::proofs::ToldWarnings::no_concept, crate::proofs::ToldWarnings::more_concepts))]
    fn warn_of_numbers(
        &self,
        alloc: Global,
        warnings: &mut Vec<Warning>,
        table: &NumericTable,
        uris: &BTreeSet<&'n str>,
    ) -> Result<(), AllocError>
        ensures { OnOk result (Tells AreOfConcepts warnings.old.items warnings.new.items) }
    {
        for (concept, facts) in &self.facts {
            self.warn_of_number(alloc, warnings, table, uris, concept, facts)?;
        }
        Ok(())
    }
}

/// The first facts of each concept of these facts, by its name as it is written.
fn written_concepts<'a>(
    alloc: Global,
    facts: &BTreeMap<&'a str, &json::Value<'a>>,
) -> Result<BTreeMap<&'a str, FirstFacts<'a>>, AllocError> {
    let mut concepts = BTreeMap::new(alloc);
    for (id, fact) in facts {
        if let Some(concept) = dimension(fact, "concept") {
            concepts.entry(concept)?.or_insert(NO_FACTS).take(id, fact);
        }
    }
    Ok(concepts)
}

/// The concepts of these facts. A concept is written in one way, since no URI has two prefixes.
fn concepts_of<'n, 'a>(
    alloc: Global,
    names: &'n Names,
    facts: &BTreeMap<&'a str, &json::Value<'a>>,
) -> Result<Concepts<'n, 'a>, AllocError> {
    let mut concepts = Concepts {
        facts: BTreeMap::new(alloc),
    };
    for (concept, first) in written_concepts(alloc, facts)? {
        if let Some(name) = expanded_name(names, concept) {
            drop(concepts.facts.insert(name, first)?);
        }
    }
    Ok(concepts)
}

/// The first URIs that a report binds, in the order of its text.
fn bound_uris<'a>(
    alloc: Global,
    names: &'a Names,
    report: &json::Value<'_>,
) -> Result<BTreeSet<&'a str>, AllocError> {
    let mut uris = BTreeSet::new(alloc);
    let Some(json::Value::Object(namespaces)) = namespaces_of(report) else {
        return Ok(uris);
    };
    for member in namespaces {
        if uris.len() == MOST_URIS {
            return Ok(uris);
        }
        if let Some(uri) = names.uri(member.0) {
            drop(uris.insert(uri)?);
        }
    }
    Ok(uris)
}

/// The member `namespaces` of `documentInfo`.
fn namespaces_of<'a, 'b>(report: &'b json::Value<'a>) -> Option<&'b json::Value<'a>> {
    report.get("documentInfo")?.get("namespaces")
}

/// Warns of concepts of these facts that the table lacks: of those with a unit,
/// and of those with a number whose local name it has at another URI.
/// Each kind comes in byte order of the URIs and the local names.
/// None is warned of where the names of the report are not known.
#[tactic(auto, using(crate::proofs::ToldWarnings::no_concept, crate::proofs::ToldWarnings::more_concepts))]
pub(crate) fn warn_of_concepts<'a>(
    alloc: Global,
    warnings: &mut Vec<Warning>,
    report: &json::Value<'_>,
    facts: &BTreeMap<&'a str, &json::Value<'a>>,
    names: &Option<Names>,
    table: &NumericTable,
) -> Result<(), AllocError>
    ensures { OnOk result (Tells AreOfConcepts warnings.old.items warnings.new.items) }
{
    let Some(names) = names else {
        return Ok(());
    };
    let concepts = concepts_of(alloc, names, facts)?;
    concepts.warn_of_units(alloc, warnings, table)?;
    let uris = bound_uris(alloc, names, report)?;
    concepts.warn_of_numbers(alloc, warnings, table, &uris)
}
