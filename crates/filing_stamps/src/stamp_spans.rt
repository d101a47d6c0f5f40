//! The stamps of a part of a report, as a range of all stamps. Nothing here takes memory.
ghost use Rattle.std.specs.Prelude.{◌≡◌, option_map};
ghost use Rattle.std.specs.Ordering.{nat_cmp, ordering_then};
ghost use Rattle.filing_model.specs.Common.Text.{text_cmp};
ghost use Rattle.filing_model.specs.Sessions.Queries.{is_after};
ghost use Rattle.filing_stamps.specs.StampSpans.{id_range_of};
ghost use Rattle.filing_facts.specs.FactChanges.{Id};
ghost use Rattle.filing_stamps.specs.Stamps.{among_group, group_cmp, ids_side, is_upto, part_among};

use crate::stamp::{Group, Stamp, StampKind};
use sorted_pages::{Span, order_of_keys};
use std::cmp::Ordering;
use std::marker::Model;
use text_map::SoughtName;

/// The identifiers of a range.
#[derive(Drop)]
pub(crate) enum IdRange<'a> {
    /// This one.
    Only(SoughtName<'a>),
    /// All that are greater than the first, if it is given, and not greater than the second, if that is given.
    Between(Option<&'a str>, Option<&'a str>),
}

/// Whether an identifier is greater than one, where that is given.
fn is_after(after: Option<&str>, id: &str) -> bool
    ensures { result ≡ is_after (option_map (λ t. t.now) after.entry) id.now }
{
    match after {
        Some(last) => last < id,
        None => true,
    }
}

/// Whether an identifier is not greater than one, where that is given.
fn is_upto(upto: Option<&str>, id: &str) -> bool
    ensures { result ≡ is_upto (option_map (λ t. t.now) upto.entry) id.now }
{
    match upto {
        Some(last) => !(last < id),
        None => true,
    }
}

impl<'a> IdRange<'a> {
    /// `Less` where the identifier of a stamp stands before the range, `Greater` where it stands past it.
    fn compare_id(&self, stamp: &Stamp) -> Ordering
        ensures { result ≡ ids_side (id_range_of self.now) stamp.now.id }
    {
        match self {
            IdRange::Only(only) => stamp.order_sought(only),
            IdRange::Between(after, _) if !is_after(*after, stamp.id()) => Ordering::Less,
            IdRange::Between(_, upto) if !is_upto(*upto, stamp.id()) => Ordering::Greater,
            IdRange::Between(_, _) => Ordering::Equal,
        }
    }
}

/// The stamps of one group with identifiers in a range.
#[derive(Drop)]
pub(crate) struct Among<'a> {
    kind: StampKind,
    code: u64,
    group: Group<'a>,
    ids: IdRange<'a>,
}

impl<'a> Model for Among<'a> {
    ghost use Rattle.filing_stamps.specs.Stamps.{Among as PlainAmong, rank_of};
    ghost use Rattle.filing_stamps.specs.StampSpans.{id_range_of};

    ghost Value = { PlainAmong };

    ghost view = { λ a. record { code = a.code; rank = rank_of a.kind; group = a.group; ids = id_range_of a.ids } };
}

impl<'a> Among<'a> {
    /// The stamp of an identifier.
    pub(crate) fn of_id(id: SoughtName<'a>) -> Among<'a>
        ensures { result ≡ part_among (Id id.entry) }
    {
        Among {
            kind: StampKind::Identifier,
            code: StampKind::Identifier.code_of_hash(id.key()),
            group: Group::none(),
            ids: IdRange::Only(id),
        }
    }

    /// The stamps of a kind and a group.
    pub(crate) fn of_group(kind: StampKind, group: Group<'a>, ids: IdRange<'a>) -> Among<'a>
        ensures { result ≡ among_group kind group.entry (id_range_of ids.entry) }
    {
        let code = kind.code_of_hash(group.hash());
        Among {
            kind,
            code,
            group,
            ids,
        }
    }

    /// How a stamp of this kind stands to the range.
    fn compare_in_kind(&self, stamp: &Stamp) -> Ordering
        ensures { result ≡ ordering_then (group_cmp stamp.now.group self.now.group)
            (ids_side self.now.ids stamp.now.id) }
    {
        match stamp.group().order(&self.group) {
            Ordering::Equal => self.ids.compare_id(stamp),
            order => order,
        }
    }

    /// How a stamp with this code stands to the range.
    fn compare_in_code(&self, stamp: &Stamp) -> Ordering
        ensures { result ≡ ordering_then (nat_cmp stamp.now.rank self.now.rank)
            (ordering_then (group_cmp stamp.now.group self.now.group) (ids_side self.now.ids stamp.now.id)) }
    {
        match stamp.rank().cmp(&self.kind.rank()) {
            Ordering::Equal => self.compare_in_kind(stamp),
            order => order,
        }
    }
}

impl<'a> Span<Stamp> for Among<'a> {
    ghost use Rattle.filing_stamps.specs.Stamps.{among_side};
    ghost use Rattle.filing_stamps.specs.StampOrders.{among_is_monotone};

    ghost side = { among_side };

    ghost is_monotone = { among_is_monotone };

    fn side(&self, stamp: &Stamp) -> Ordering {
        match stamp.code().cmp(&self.code) {
            Ordering::Equal => self.compare_in_code(stamp),
            order => order,
        }
    }

    fn side_of_key(&self, key: u64) -> Option<Ordering> {
        order_of_keys(key, self.code)
    }
}

/// All stamps.
#[derive(Drop)]
pub(crate) struct All;

impl Span<Stamp> for All {
    ghost use Rattle.std.specs.declared.cmp.Ordering.TheVariants.{Equal};
    ghost use Rattle.filing_stamps.specs.StampOrders.{all_is_monotone};

    ghost side = { λ a s. Equal };

    ghost is_monotone = { λ a. all_is_monotone };

    fn side(&self, _: &Stamp) -> Ordering {
        Ordering::Equal
    }

    fn side_of_key(&self, _: u64) -> Option<Ordering> {
        Some(Ordering::Equal)
    }
}
