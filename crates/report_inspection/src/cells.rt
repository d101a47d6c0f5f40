//! The cells of more than one fact.

ghost use Rattle.std.specs.Prelude.{◌≡◌, ◌+◌, IfOk, OnOk, length, map, string_bytes};
ghost use Rattle.std.specs.Arc.{arc_value};
ghost use Rattle.filing_model.specs.Oim.Dimensions.{dims_eq};
ghost use Rattle.filing_model.specs.Oim.Duplicates.{facts_of, has_dims};
ghost use Rattle.oim_report.specs.Parts.{fact_view, facts_view};
ghost use Rattle.report_inspection.specs.Cells.{AreCells, are_allowed, cell_at, with_run};
ghost use Rattle.report_inspection.specs.Runs.{AreInOrder, HaveDims, IsRun, dims_in, run_length};

use crate::cell::Cell;
use crate::crowds::crowded_facts;
use filing_model::{Allowed, allows};
use oim_fact::{Fact, class_of};
use std::alloc::{AllocError, Global};
use std::sync::Arc;

/// The facts in the order of their dimension sets; those of one set keep their order.
fn sort_by_dims(facts: Vec<(String, Arc<Fact>)>) -> Result<Vec<(String, Arc<Fact>)>, AllocError>
    ensures { IfOk result (λ v. AreInOrder (facts_view facts.items) (facts_view v.items)) }
{
    let mut facts = facts;
    facts.sort_by(|one, other| one.1.dims.cmp(&other.1.dims))?;
    Ok(facts)
}

/// Whether two facts have the same dimensions.
fn share_dims(fact: &Fact, other: &Fact) -> bool
    ensures { result ≡ has_dims fact.now.dims other.now }
{
    fact.dims == other.dims
}

/// Whether a fact has the dimensions of the first.
fn is_of_run(first: &(String, Arc<Fact>), other: &(String, Arc<Fact>)) -> bool
    ensures { result ≡ dims_eq (dims_in (fact_view first.now)) (dims_in (fact_view other.now)) }
{
    share_dims(&first.1, &other.1)
}

/// How many facts at the front have the dimensions of this one.
fn run_len(facts: &[(String, Arc<Fact>)], first: &(String, Arc<Fact>)) -> usize
    ensures { result ≡ run_length (dims_in (fact_view first.now)) (facts_view facts.now) }
{
    let mut len = 0;
    let mut left = facts;
    while let [other, rest @ ..] = left {
        if !is_of_run(first, other) {
            return len;
        }
        len += 1;
        left = rest;
    }
    len
}

/// The identifiers of these facts.
fn ids_of(alloc: Global, run: &[(String, Arc<Fact>)]) -> Result<Vec<String>, AllocError>
    ensures { IfOk result (λ v. map string_bytes v.items ≡ map (λ e. e.0) (facts_view run.now)) }
{
    let mut ids = Vec::with_capacity(alloc, run.len())?;
    for fact in run {
        ids.push(fact.0.clone()?)?;
    }
    Ok(ids)
}

/// Other owners of these facts.
fn other_owners(alloc: Global, run: &[(String, Arc<Fact>)]) -> Result<Vec<Arc<Fact>>, AllocError>
    ensures { IfOk result (λ v. map arc_value v.items ≡ facts_of (facts_view run.now)) }
{
    let mut facts = Vec::with_capacity(alloc, run.len())?;
    for fact in run {
        facts.push(fact.1.clone()?)?;
    }
    Ok(facts)
}

/// The cell of these facts, which have the dimensions of this one.
fn cell_of(
    alloc: Global,
    allowed: Allowed,
    first: &(String, Arc<Fact>),
    run: &[(String, Arc<Fact>)],
) -> Result<Cell, AllocError>
    requires { HaveDims (dims_in (fact_view first.now)) (facts_view run.now) }
    ensures { IfOk result (λ c. c ≡ cell_at allowed (facts_view run.now) (dims_in (fact_view first.now))) }
{
    let ids = ids_of(alloc, run)?;
    let class = class_of(&other_owners(alloc, run)?);
    Ok(Cell {
        fact: first.1.clone()?,
        class,
        ids,
        allowed: allows(allowed, class),
    })
}

/// Tells the cell of these facts, where they are more than one.
fn push_run(
    alloc: Global,
    cells: &mut Vec<Cell>,
    allowed: Allowed,
    first: &(String, Arc<Fact>),
    run: &[(String, Arc<Fact>)],
) -> Result<(), AllocError>
    requires { HaveDims (dims_in (fact_view first.now)) (facts_view run.now) }
    ensures { OnOk result (cells.new.items
        ≡ with_run allowed (dims_in (fact_view first.now)) (facts_view run.now) cells.old.items) }
{
    if run.len() > 1 {
        cells.push(cell_of(alloc, allowed, first, run)?)?;
    }
    Ok(())
}

/// The facts at the front with the dimensions of this one, and the rest.
fn split_run<'a>(
    facts: &'a [(String, Arc<Fact>)],
    first: &(String, Arc<Fact>),
) -> (&'a [(String, Arc<Fact>)], &'a [(String, Arc<Fact>)])
    ensures run { IsRun (dims_in (fact_view first.now)) (facts_view facts.now)
        (facts_view result.0.now) (facts_view result.1.now) }
    ensures len { length result.0.now ≡ run_length (dims_in (fact_view first.now)) (facts_view facts.now) }
    ensures rest { length result.1.now + length result.0.now ≡ length facts.now }
{
    facts.split_at(run_len(facts, first))
}

/// The cells of more than one fact among these, in the order of their dimension sets.
fn cells_in(
    alloc: Global,
    allowed: Allowed,
    facts: Vec<(String, Arc<Fact>)>,
) -> Result<Vec<Cell>, AllocError>
    ensures { IfOk result (λ v. AreCells allowed (facts_view facts.items) v.items) }
{
    let facts = sort_by_dims(facts)?;
    let mut cells = Vec::new(alloc);
    let mut left: &[(String, Arc<Fact>)] = &facts;
    while let [first, ..] = left {
        let (run, rest) = split_run(left, first);
        push_run(alloc, &mut cells, allowed, first, run)?;
        left = rest;
    }
    Ok(cells)
}

/// The cells of more than one fact, in the order of their dimension sets.
pub(crate) fn cells_of(
    alloc: Global,
    allowed: Allowed,
    facts: Vec<(String, Arc<Fact>)>,
) -> Result<Vec<Cell>, AllocError>
    ensures { IfOk result (λ v. AreCells allowed (facts_view facts.items) v.items) }
{
    let facts = crowded_facts(alloc, facts)?;
    cells_in(alloc, allowed, facts)
}

/// Whether each cell may stand in the report.
pub(crate) fn are_allowed(cells: &[Cell]) -> bool
    ensures { result ≡ are_allowed cells.now }
{
    for cell in cells {
        if !cell.is_allowed() {
            return false;
        }
    }
    true
}
