//! Stamps that never change, in parts that several versions hold.
ghost use Rattle.std.specs.Prelude.{◌≡◌, ◌++◌, List, max, IfOk, OnOk};
ghost use Rattle.std.specs.List.{flat_map, AllByRecursion};
ghost use Rattle.sorted_pages.specs.Pages.{greatest};
ghost use Rattle.sorted_pages.specs.Ranges.{within};
ghost use Rattle.filing_stamps.specs.Stamps.{Stamp as PlainStamp, among_side, stamp_cmp};
ghost use Rattle.sorted_pages.specs.Sorted.{IsRising};
ghost use Rattle.filing_stamps.specs.LastStamps.{AreLast};

use crate::stamp::Stamp;
use crate::stamp_spans::{All, Among};
use sorted_pages::{PageEntry, Paged, Span};
use std::alloc::{AllocError, Global};
use std::marker::Model;
use std::sync::Arc;

/// Some stamps. To share them is to count one owner more.
pub(crate) trait KeptStamps: Drop {
    ghost stamps: { Self → List PlainStamp };

    /// The greatest number in a range if it is greater than `since`; otherwise any number up to `since`.
    fn greatest_since(&self, among: &Among<'_>, since: u64) -> u64
        ensures { max since result
            ≡ max since (greatest (λ s. s.number) (within (among_side among.now) (stamps self.now))) };

    /// Appends them to a list, each shared.
    fn append_to(&self, all: &mut Vec<Stamp>) -> Result<(), AllocError>
        ensures { OnOk result (all.new.items ≡ all.old.items ++ stamps self.now) };

    fn share(&self) -> Result<Self, AllocError>
        ensures { IfOk result (λ same. same ≡ self.now) };
}

/// The greatest number in a range of all parts if it is greater than `since`; otherwise any number up to `since`.
pub(crate) fn greatest_since<T: KeptStamps>(parts: &[T], among: &Among<'_>, since: u64) -> u64
    ensures { max since result ≡ max since (greatest (λ s. s.number)
        (within (among_side among.now) (flat_map T.stamps parts.now))) }
{
    let mut number = 0u64;
    for part in parts {
        number = number.max(part.greatest_since(among, since));
    }
    number
}

/// Appends the stamps of all parts to a list.
pub(crate) fn append_all<T: KeptStamps>(parts: &[T], all: &mut Vec<Stamp>) -> Result<(), AllocError>
    ensures { OnOk result (all.new.items ≡ all.old.items ++ flat_map T.stamps parts.now) }
{
    for part in parts {
        part.append_to(all)?;
    }
    Ok(())
}

/// A list of these parts, which are shared, with capacity for one more.
pub(crate) fn share_all<T: KeptStamps>(alloc: Global, parts: &[T]) -> Result<Vec<T>, AllocError>
    ensures { IfOk result (λ same. same.items ≡ parts.now) }
{
    let mut same = Vec::with_capacity(alloc, parts.len().saturating_add(1))?;
    for part in parts {
        same.push(part.share()?)?;
    }
    Ok(same)
}

/// Stamps in order. Of those that tie, the one with the greatest number stays.
/// What is in order already is only merged.
pub(crate) fn last_stamps(stamps: Vec<Stamp>) -> Result<Vec<Stamp>, AllocError>
    ensures last { IfOk result (λ last. AreLast stamps.items last.items) }
    ensures rising { IfOk result (λ last. IsRising stamp_cmp last.items) }
{
    let mut stamps = stamps;
    // Of those that tie, the greatest number comes first and stays.
    stamps.sort_by(|one, other| one.cmp(other).then(other.number().cmp(&one.number())))?;
    stamps.dedup();
    Ok(stamps)
}

/// The stamps that one commit left, some more than once. Contracts see their list.
#[derive(Drop)]
pub(crate) struct CommitStamps {
    /// None has a greater number.
    up_to: u64,
    stamps: Arc<Vec<Stamp>>,
}

impl Model for CommitStamps {
    ghost use Rattle.std.specs.Prelude.{List};
    ghost use Rattle.std.specs.Arc.{arc_value};
    ghost use Rattle.filing_stamps.specs.Stamps.{Stamp as PlainStamp};
    ghost use Rattle.filing_stamps.specs.Layers.{AreUpTo};

    ghost Value = { List PlainStamp };

    ghost view = { λ l. (arc_value l.stamps).items };

    ghost invariant = { λ l. AreUpTo l.up_to (arc_value l.stamps).items };
}

impl CommitStamps {
    /// Stamps that all have the number of the commit.
    pub(crate) fn of(
        alloc: Global,
        number: u64,
        stamps: Vec<Stamp>,
    ) -> Result<CommitStamps, AllocError>
        requires { AllByRecursion (λ s. s.number ≡ number) stamps.items }
        ensures { IfOk result (λ l. l ≡ stamps.items) }
    {
        let stamps = Arc::new(alloc, stamps)?;
        Ok(CommitStamps {
            up_to: number,
            stamps,
        })
    }

    /// The greatest number of those in a range, or 0.
    fn greatest_in(&self, among: &Among<'_>) -> u64
        ensures { result ≡ greatest (λ s. s.number) (within (among_side among.now) self.now) }
    {
        let mut number = 0u64;
        for stamp in self.stamps.iter() {
            if among.side(stamp).is_eq() {
                number = number.max(stamp.number());
            }
        }
        number
    }
}

impl KeptStamps for CommitStamps {
    ghost stamps = { λ l. l };

    fn greatest_since(&self, among: &Among<'_>, since: u64) -> u64 {
        if self.up_to <= since {
            return 0;
        }
        self.greatest_in(among)
    }

    fn append_to(&self, all: &mut Vec<Stamp>) -> Result<(), AllocError> {
        for stamp in self.stamps.iter() {
            all.push(stamp.share()?)?;
        }
        Ok(())
    }

    fn share(&self) -> Result<CommitStamps, AllocError> {
        let stamps = Arc::try_clone(&self.stamps)?;
        Ok(CommitStamps {
            up_to: self.up_to,
            stamps,
        })
    }
}

/// The stamps that many commits left, in order, one of those that tie. Contracts see their list.
#[derive(Drop)]
pub(crate) struct Layer {
    /// None has a greater number.
    up_to: u64,
    /// How many they are. That decides cost alone.
    count: usize,
    stamps: Arc<Paged<Stamp>>,
}

impl Model for Layer {
    ghost use Rattle.std.specs.Prelude.{List};
    ghost use Rattle.std.specs.Arc.{arc_value};
    ghost use Rattle.filing_stamps.specs.Stamps.{Stamp as PlainStamp};
    ghost use Rattle.filing_stamps.specs.Layers.{AreUpTo};

    ghost Value = { List PlainStamp };

    ghost view = { λ l. arc_value l.stamps };

    ghost invariant = { λ l. AreUpTo l.up_to (arc_value l.stamps) };
}

impl Layer {
    pub(crate) fn of_sorted(alloc: Global, stamps: Vec<Stamp>) -> Result<Layer, AllocError>
        requires { IsRising stamp_cmp stamps.items }
        ensures { IfOk result (λ l. l ≡ stamps.items) }
    {
        let count = stamps.len();
        let stamps = Paged::of_sorted(alloc, stamps)?;
        let up_to = stamps.range(&All).total();
        let stamps = Arc::new(alloc, stamps)?;
        Ok(Layer {
            up_to,
            count,
            stamps,
        })
    }

    pub(crate) fn count(&self) -> usize {
        self.count
    }
}

impl KeptStamps for Layer {
    ghost stamps = { λ l. l };

    fn greatest_since(&self, among: &Among<'_>, since: u64) -> u64 {
        if self.up_to <= since {
            return 0;
        }
        self.stamps.range(among).total()
    }

    fn append_to(&self, all: &mut Vec<Stamp>) -> Result<(), AllocError> {
        for stamp in self.stamps.range(&All) {
            all.push(stamp.share()?)?;
        }
        Ok(())
    }

    fn share(&self) -> Result<Layer, AllocError> {
        let stamps = Arc::try_clone(&self.stamps)?;
        Ok(Layer {
            up_to: self.up_to,
            count: self.count,
            stamps,
        })
    }
}
