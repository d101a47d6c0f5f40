//! The number of the last touch of each part of one report.
ghost use Rattle.std.specs.Prelude.{◌≡◌, ◌++◌, ◌≤◌, max, IfOk, option_map, ◌∷◌, [], cond, OnOk};
ghost use Rattle.std.specs.List.{AllByRecursion};
ghost use Rattle.sorted_pages.specs.Pages.{greatest};
ghost use Rattle.sorted_pages.specs.Ranges.{within};
ghost use Rattle.oim_fact.specs.PeriodFilterRef.{period_filter_of};
ghost use Rattle.filing_facts.specs.FactChanges.{Part, Id, Cell, Range, stamped_by};
ghost use Rattle.filing_stamps.specs.Layers.{AreWith};
ghost use Rattle.filing_stamps.specs.Stamps.{among_side, stamp_in, coded_stamp, had_dims, stamps_between, stamps_if_there, stamps_of, stamps_of_change, stamps_of_changes};
ghost use Rattle.std.specs.Option.{option_copied};

use crate::kept_stamps::{CommitStamps, Layer, append_all, greatest_since, last_stamps, share_all};
use crate::stamp::{Group, Stamp, StampKind};
use crate::stamp_spans::{Among, IdRange};
use filing_facts::{FactChange, IndexedFact};
use oim_fact::{DimSet, PeriodFilterRef};
use std::alloc::{AllocError, Global};
use std::marker::Model;
use text_map::{NamedValue, SoughtName};

/// The number of the last touch of each part of one report, also of identifiers that were removed and of cells and
/// ranges that are empty now.
///
/// What the last commits left stands as they left it. What came before stands in layers, and each layer is more than
/// one and a half times as long as the next. So there are few, and each stamp is sorted and copied a few times,
/// also where no other lies near it. A changed copy shares what did not change.
///
/// Contracts see the stamps that touched facts left, and `stamp_in` says which number a part has by them.
#[derive(Drop)]
pub struct Stamps {
    /// What the last commits left, oldest first.
    recent: Vec<CommitStamps>,
    /// How many stamps the last commits left. That decides cost alone.
    recent_count: usize,
    /// What the commits before those left, oldest first.
    layers: Vec<Layer>,
}

impl Model for Stamps {
    ghost use Rattle.std.specs.Prelude.{List, ◌++◌};
    ghost use Rattle.filing_stamps.specs.Stamps.{Stamp as PlainStamp};
    ghost use Rattle.filing_stamps.specs.Layers.{all_stamps};

    ghost Value = { List PlainStamp };

    ghost view = { λ s. all_stamps s.recent.items ++ all_stamps s.layers.items };
}

/// The layers that stay where this many stamps are gathered, and those that are merged with them.
/// A layer stays that is more than one and a half times as long as all gathered so far.
fn split_longer(layers: &[Layer], gathered: usize) -> (&[Layer], &[Layer])
    ensures { layers.now ≡ result.0.now ++ result.1.now }
{
    let mut longer = layers;
    let mut gathered = gathered;
    while let Some((last, before)) = longer.split_last() {
        if gathered.saturating_add(gathered / 2) < last.count() {
            break;
        }
        gathered = gathered.saturating_add(last.count());
        longer = before;
    }
    layers.split_at(longer.len())
}

/// How many stamps stand in layers.
fn count_of(layers: &[Layer]) -> usize {
    let mut count = 0usize;
    for layer in layers {
        count = count.saturating_add(layer.count());
    }
    count
}

impl Stamps {
    /// Where nothing was touched. It takes no memory.
    pub fn new(alloc: Global) -> Stamps
        ensures { stamp_in result ≡ (λ part. 0) }
    {
        Stamps {
            recent: Vec::new(alloc),
            recent_count: 0,
            layers: Vec::new(alloc),
        }
    }

    /// The greatest number of some stamps if it is greater than `since`; otherwise any number up to `since`.
    fn greatest_since(&self, among: &Among<'_>, since: u64) -> u64
        ensures { max since result ≡ max since (greatest (λ s. s.number) (within (among_side among.now) self.now)) }
    {
        let number = greatest_since(&self.recent, among, since);
        number.max(greatest_since(&self.layers, among, since))
    }

    /// The number of an identifier's last touch if it is greater than `since`; otherwise any number up to `since`.
    pub fn of_id_since(&self, id: &str, since: u64) -> u64
        ensures { max since result ≡ max since (stamp_in self.now (Id id.now)) }
    {
        self.greatest_since(&Among::of_id(SoughtName::of(id)), since)
    }

    /// The number of a cell's last touch if it is greater than `since`; otherwise any number up to `since`.
    pub fn of_cell_since(&self, dims: &DimSet, since: u64) -> u64
        ensures { max since result ≡ max since (stamp_in self.now (Cell dims.now)) }
    {
        let all = IdRange::Between(None, None);
        let among = Among::of_group(StampKind::Cell, Group::of_cell(dims), all);
        self.greatest_since(&among, since)
    }

    /// The number of the last touch among the facts of a concept and a period, of identifiers greater than `after`,
    /// where it is given, and not greater than `upto`, where that is given, if it is greater than `since`;
    /// otherwise any number up to `since`.
    pub fn of_range_since(
        &self,
        concept: &str,
        period: PeriodFilterRef<'_>,
        after: Option<&str>,
        upto: Option<&str>,
        since: u64,
    ) -> u64
        ensures { max since result ≡ max since (stamp_in self.now (Range
            (record {
              concept = concept.now;
              period = period_filter_of period.entry;
              after = option_map (λ t. t.now) after.entry;
            })
            (option_map (λ t. t.now) upto.entry))) }
    {
        let (kind, group) = match period {
            PeriodFilterRef::Any => (StampKind::AnyPeriod, Group::of_concept(concept)),
            PeriodFilterRef::Without => (StampKind::OnePeriod, Group::of_period(concept, None)),
            PeriodFilterRef::Text(period) => (
                StampKind::OnePeriod,
                Group::of_period(concept, Some(period)),
            ),
        };
        let among = Among::of_group(kind, group, IdRange::Between(after, upto));
        self.greatest_since(&among, since)
    }

    /// Whether the stamps of one commit more may stand by themselves. A look-up goes through all that do.
    fn has_room(&self, added: &[Stamp]) -> bool {
        self.recent.len() < 64 && self.recent_count.saturating_add(added.len()) <= 1024
    }

    /// The stamps with those of one commit more, which stand by themselves.
    fn with_commit_stamps(
        &self,
        alloc: Global,
        added: Vec<Stamp>,
        number: u64,
    ) -> Result<Stamps, AllocError>
        requires { AllByRecursion (λ s. s.number ≡ number) added.items }
        ensures { IfOk result (λ s. AreWith added.items self.now s) }
    {
        let recent_count = self.recent_count.saturating_add(added.len());
        let mut recent = share_all(alloc, &self.recent)?;
        recent.push(CommitStamps::of(alloc, number, added)?)?;
        let layers = share_all(alloc, &self.layers)?;
        Ok(Stamps {
            recent,
            recent_count,
            layers,
        })
    }

    /// The stamps with those of one commit more, all in layers.
    fn with_layer(&self, alloc: Global, added: Vec<Stamp>) -> Result<Stamps, AllocError>
        ensures { IfOk result (λ s. AreWith added.items self.now s) }
    {
        let mut gathered = added;
        append_all(&self.recent, &mut gathered)?;
        let (longer, others) = split_longer(&self.layers, gathered.len());
        gathered.reserve(count_of(others))?;
        append_all(others, &mut gathered)?;
        let layer = Layer::of_sorted(alloc, last_stamps(gathered)?)?;
        let mut layers = share_all(alloc, longer)?;
        layers.push(layer)?;
        Ok(Stamps {
            recent: Vec::new(alloc),
            recent_count: 0,
            layers,
        })
    }

    /// The stamps after fact changes of a number that none of them exceeds. These stay as they are.
    pub fn after(
        &self,
        alloc: Global,
        fact_changes: &[FactChange],
        number: u64,
    ) -> Result<Stamps, AllocError>
        requires { (part : Part) → stamp_in self.now part ≤ number }
        ensures { IfOk result (λ s. stamp_in s ≡ stamped_by fact_changes.now number (stamp_in self.now)) }
    {
        let added = stamps_of_changes(alloc, fact_changes, number)?;
        if self.has_room(&added) {
            self.with_commit_stamps(alloc, added, number)
        } else {
            self.with_layer(alloc, added)
        }
    }
}

/// Appends the stamp of one kind that a fact leaves.
fn leave_one(
    stamps: &mut Vec<Stamp>,
    kind: StampKind,
    held: &NamedValue<IndexedFact>,
    number: u64,
) -> Result<(), AllocError>
    ensures { OnOk result (stamps.new.items ≡ stamps.old.items ++ coded_stamp kind number held.now ∷ []) }
{
    stamps.push(Stamp::of(kind, held, number)?)?;
    Ok(())
}

/// Appends the stamps that a fact leaves.
fn leave(
    stamps: &mut Vec<Stamp>,
    held: &NamedValue<IndexedFact>,
    number: u64,
) -> Result<(), AllocError>
    ensures { OnOk result (stamps.new.items ≡ stamps.old.items ++ stamps_of number held.now) }
{
    leave_one(stamps, StampKind::Identifier, held, number)?;
    leave_one(stamps, StampKind::Cell, held, number)?;
    leave_one(stamps, StampKind::AnyPeriod, held, number)?;
    leave_one(stamps, StampKind::OnePeriod, held, number)?;
    Ok(())
}

/// Appends the stamps of a fact that may be missing.
fn leave_if_there(
    stamps: &mut Vec<Stamp>,
    held: Option<&NamedValue<IndexedFact>>,
    number: u64,
) -> Result<(), AllocError>
    ensures { OnOk result (stamps.new.items ≡ stamps.old.items ++ stamps_if_there number (option_copied held.entry)) }
{
    match held {
        Some(held) => leave(stamps, held, number),
        None => Ok(()),
    }
}

/// Whether a fact, where there was one, had these dimensions.
fn had_dims(old: Option<&NamedValue<IndexedFact>>, dims: &DimSet) -> bool
    ensures { result ≡ had_dims (option_copied old.entry) dims.now }
{
    match old {
        Some(old) => old.value().dims() == dims,
        None => false,
    }
}

/// Appends the stamps of a new fact, and those of the old one unless both have the same dimensions. So no stamp holds
/// what a fact of the same dimensions has replaced.
fn leave_new(
    stamps: &mut Vec<Stamp>,
    old: Option<&NamedValue<IndexedFact>>,
    new: &NamedValue<IndexedFact>,
    number: u64,
) -> Result<(), AllocError>
    ensures { OnOk result (stamps.new.items
        ≡ stamps.old.items ++ cond (had_dims (option_copied old.entry) new.now.1.dims) (stamps_of number new.now)
        (stamps_if_there number (option_copied old.entry) ++ stamps_of number new.now)) }
{
    if had_dims(old, new.value().dims()) {
        return leave(stamps, new, number);
    }
    leave_if_there(stamps, old, number)?;
    leave(stamps, new, number)
}

/// Appends the stamps of facts that stood at an identifier before and that stand there after.
fn leave_between(
    stamps: &mut Vec<Stamp>,
    old: Option<&NamedValue<IndexedFact>>,
    new: Option<&NamedValue<IndexedFact>>,
    number: u64,
) -> Result<(), AllocError>
    ensures { OnOk result (stamps.new.items
        ≡ stamps.old.items ++ stamps_between number (option_copied old.entry) (option_copied new.entry)) }
{
    match new {
        Some(new) => leave_new(stamps, old, new, number),
        None => leave_if_there(stamps, old, number),
    }
}

/// Appends the stamps that a fact change leaves.
fn leave_change(
    stamps: &mut Vec<Stamp>,
    fact_change: &FactChange,
    number: u64,
) -> Result<(), AllocError>
    ensures { OnOk result (stamps.new.items ≡ stamps.old.items ++ stamps_of_change number fact_change.now) }
{
    leave_between(stamps, fact_change.old(), fact_change.new(), number)
}

/// The stamps that fact changes leave, some more than once.
pub(crate) fn stamps_of_changes(
    alloc: Global,
    fact_changes: &[FactChange],
    number: u64,
) -> Result<Vec<Stamp>, AllocError>
    ensures { IfOk result (λ s. s.items ≡ stamps_of_changes number fact_changes.now) }
{
    let mut stamps = Vec::with_capacity(alloc, fact_changes.len().saturating_mul(4))?;
    for fact_change in fact_changes {
        leave_change(&mut stamps, fact_change, number)?;
    }
    Ok(stamps)
}
