//! The class of a cell and the least disallowed cell, by comparing all pairs of facts. Nothing is allocated.
//!
//! The definitions' plain programs: they are slow, and the program `conformance` compares faster bodies with them.

ghost use Rattle.std.specs.Prelude.{◌≡◌, ◌||◌, map, not, cond, option_map, count_by, position};
ghost use Rattle.std.specs.List.{list_all};
ghost use Rattle.filing_model.specs.Oim.Facts.{Fact};
ghost use Rattle.filing_model.specs.Oim.Dimensions.{dims_cmp};
ghost use Rattle.filing_model.specs.Oim.Duplicates.{pair_of, class_of, class_of_more, allows, every_pair, has_dims, is_disallowed, disallowed_dims, least_dims, lesser_dims};
ghost use Rattle.filing_model.specs.Oim.ByPairs.{binds, is_of, cell_with, least_disallowed_place};

use crate::duplicates::{Allowed, Class, Pair};
use std::cmp::Ordering;

/// A fact in any representation.
pub trait PairedFact {
    ghost fact: { Self → Fact };

    /// What the two are to one another.
    fn pair(&self, other: &Self) -> Pair
        ensures { result ≡ pair_of (fact self.now) (fact other.now) };

    /// The order of their dimensions.
    fn cmp_dims(&self, other: &Self) -> Ordering
        ensures { result ≡ dims_cmp (fact self.now).dims (fact other.now).dims };
}

/// What is asked of each pair of some facts.
#[derive(Clone, Copy)]
enum Bond {
    Complete,
    Consistent,
    /// Both have the same dimensions.
    Together,
}

impl Bond {
    fn binds(self, pair: Pair) -> bool
        ensures { result ≡ binds self pair }
    {
        match self {
            Bond::Complete => matches!(pair, Pair::Complete),
            Bond::Consistent => matches!(pair, Pair::Complete | Pair::Consistent),
            Bond::Together => !matches!(pair, Pair::Apart),
        }
    }
}

/// Whether a cell of this class may stand in a report.
pub fn allows(allowed: Allowed, class: Class) -> bool
    ensures { result ≡ allows allowed class }
{
    match class {
        Class::Empty | Class::Single => true,
        Class::Complete => !matches!(allowed, Allowed::Never),
        Class::Consistent => matches!(allowed, Allowed::Consistent | Allowed::All),
        Class::Inconsistent => matches!(allowed, Allowed::All),
        Class::Mixed => false,
    }
}

/// The class of a list of facts.
pub fn class_by_pairs<F: PairedFact>(facts: &[F]) -> Class
    ensures { result ≡ class_of (map F.fact facts.now) }
{
    class_with(None, facts)
}

/// The place of the first fact of the least cell that is not allowed.
pub fn least_disallowed_by_pairs<F: PairedFact>(allowed: Allowed, facts: &[F]) -> Option<usize>
    ensures { result ≡ least_disallowed_place allowed (map F.fact facts.now) }
{
    let least = least_disallowed_fact(allowed, facts)?;
    first_with(least, facts)
}

/// The place of the first fact that has the dimensions of another.
fn first_with<F: PairedFact>(other: &F, facts: &[F]) -> Option<usize>
    ensures { result ≡ position (λ f. has_dims (F.fact other.now).dims (F.fact f)) facts.now }
{
    facts
        .iter()
        .position(|fact| other.cmp_dims(fact) == Ordering::Equal)
}

/// A fact of the least cell that is not allowed.
fn least_disallowed_fact<'a, F: PairedFact>(allowed: Allowed, facts: &'a [F]) -> Option<&'a F>
    ensures { option_map (λ f. (F.fact f.now).dims) result
        ≡ least_dims (disallowed_dims allowed (map F.fact facts.now)) }
{
    let mut least = None;
    for fact in facts {
        least = lesser_disallowed(allowed, facts, least, fact);
    }
    least
}

/// A fact, where it is of lesser dimensions than the least so far and its cell is not allowed, else the least so far.
fn lesser_disallowed<'a, F: PairedFact>(
    allowed: Allowed,
    facts: &'a [F],
    least: Option<&'a F>,
    fact: &'a F,
) -> Option<&'a F>
    ensures { option_map (λ f. (F.fact f.now).dims) result
        ≡ cond (is_disallowed allowed (map F.fact facts.now) (F.fact fact.now).dims)
        (lesser_dims (option_map (λ f. (F.fact f.now).dims) least.entry) (F.fact fact.now).dims)
        (option_map (λ f. (F.fact f.now).dims) least.entry) }
{
    if allows(allowed, class_with(Some(fact), facts)) {
        least
    } else {
        Some(lesser(least, fact))
    }
}

/// The one of lesser dimensions, the first where they are equal.
fn lesser<'a, F: PairedFact>(least: Option<&'a F>, fact: &'a F) -> &'a F
    ensures { Some (F.fact result.now).dims
        ≡ lesser_dims (option_map (λ f. (F.fact f.now).dims) least.entry) (F.fact fact.now).dims }
{
    match least {
        Some(other) if fact.cmp_dims(other) != Ordering::Less => other,
        _ => fact,
    }
}

/// Whether a fact is of the cell of another, or of all facts where none is given.
fn is_of<F: PairedFact>(one: Option<&F>, fact: &F) -> bool
    ensures { result ≡ is_of (option_map (λ f. F.fact f.now) one.entry) (F.fact fact.now) }
{
    match one {
        Some(other) => other.cmp_dims(fact) == Ordering::Equal,
        None => true,
    }
}

/// The class of a cell, or of all facts where no fact is given.
fn class_with<'a, F: PairedFact>(one: Option<&'a F>, facts: &'a [F]) -> Class
    ensures { result ≡ class_of (cell_with (option_map (λ f. F.fact f.now) one.entry) (map F.fact facts.now)) }
{
    match count_with(one, facts) {
        0 => Class::Empty,
        1 => Class::Single,
        _ => class_of_more_with(one, facts),
    }
}

/// The class of a cell of two facts or more.
fn class_of_more_with<'a, F: PairedFact>(one: Option<&'a F>, facts: &'a [F]) -> Class
    ensures { result ≡ class_of_more pair_of (cell_with (option_map (λ f. F.fact f.now) one.entry)
        (map F.fact facts.now)) }
{
    if every_pair_is(Bond::Complete, one, facts) {
        Class::Complete
    } else if every_pair_is(Bond::Consistent, one, facts) {
        Class::Consistent
    } else if every_pair_is(Bond::Together, one, facts) {
        Class::Inconsistent
    } else {
        Class::Mixed
    }
}

/// Whether each fact of the cell is so bound with each later one.
fn every_pair_is<'a, F: PairedFact>(bond: Bond, one: Option<&'a F>, facts: &'a [F]) -> bool
    ensures { result ≡ every_pair (λ f g. binds bond (pair_of f g))
        (cell_with (option_map (λ f. F.fact f.now) one.entry) (map F.fact facts.now)) }
{
    let mut left = facts;
    while let [first, rest @ ..] = left {
        if !is_bound(bond, one, first, rest) {
            return false;
        }
        left = rest;
    }
    true
}

/// Whether a fact is so bound with each later fact of the cell, or is not of the cell itself.
fn is_bound<F: PairedFact>(bond: Bond, one: Option<&F>, fact: &F, behind: &[F]) -> bool
    ensures { result ≡ (not (is_of (option_map (λ f. F.fact f.now) one.entry) (F.fact fact.now))
        || list_all (λ g. not (is_of (option_map (λ f. F.fact f.now) one.entry) (F.fact g))
        || binds bond (pair_of (F.fact fact.now) (F.fact g))) behind.now) }
{
    !is_of(one, fact) || is_bound_to_all(bond, one, fact, behind)
}

/// Whether a fact is so bound with each of the cell's facts.
fn is_bound_to_all<F: PairedFact>(bond: Bond, one: Option<&F>, fact: &F, facts: &[F]) -> bool
    ensures { result ≡ list_all (λ g. not (is_of (option_map (λ f. F.fact f.now) one.entry) (F.fact g))
        || binds bond (pair_of (F.fact fact.now) (F.fact g))) facts.now }
{
    facts
        .iter()
        .all(|other| !is_of(one, other) || bond.binds(fact.pair(other)))
}

/// How many facts the cell has.
fn count_with<F: PairedFact>(one: Option<&F>, facts: &[F]) -> usize
    ensures { result ≡ count_by (λ g. is_of (option_map (λ f. F.fact f.now) one.entry) (F.fact g)) facts.now }
{
    facts.iter().filter(|fact| is_of(one, *fact)).count()
}
