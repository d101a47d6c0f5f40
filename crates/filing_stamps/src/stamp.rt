//! What a touched fact leaves: stamps, which compare by what they mean.
ghost use Rattle.std.specs.Prelude.{◌≡◌, refl, option_copied, option_map, IfOk, Some};
ghost use Rattle.std.specs.Cmp.{eq_by_cmp_equiv, partial_equiv_from_equiv, partial_order_from_agreeing_total};
ghost use Rattle.std.specs.Ordering.{eq_by_cmp, ordering_then};
ghost use Rattle.std.specs.Option.{option_cmp};
ghost use Rattle.filing_model.specs.Common.Text.{text_cmp};
ghost use Rattle.filing_model.specs.Oim.Dimensions.{dims_cmp};
ghost use Rattle.filing_stamps.specs.Stamps.{no_group, rank_of, kind_of, code_of, group_of, id_of, group_cmp};
ghost use Rattle.filing_stamps.specs.Stamps.{group_hash, coded_stamp, stamp_cmp, stamp_code, stamp_hash};
ghost use Rattle.filing_stamps.specs.StampKeys.{stamp_codes_rise};
ghost use Rattle.filing_stamps.specs.declared.stamp.StampKind.TheVariants as variant;
ghost use Rattle.filing_stamps.specs.StampOrders.{stamp_cmp-total};

use filing_facts::{IndexedFact, hash_of_concept, hash_of_dims, hash_of_period};
use oim_fact::DimSet;
use sorted_pages::{PageEntry, Summed};
use std::alloc::{AllocError, Global};
use std::cmp::Ordering;
use std::marker::Model;
use text_map::{NamedValue, SoughtName};

/// What a stamp means.
#[derive(Clone, Copy, Debug, PartialEq, Eq)]
pub(crate) enum StampKind {
    /// An identifier.
    Identifier,
    /// The facts of one dimension set.
    Cell,
    /// An identifier among the facts of a concept, for pages of any period.
    AnyPeriod,
    /// An identifier among the facts of a concept and a period, or none.
    OnePeriod,
}

impl StampKind {
    /// Its place among the kinds.
    pub(crate) fn rank(self) -> u8
        ensures { result ≡ rank_of self }
    {
        self as u8
    }

    /// The code of the stamps of this kind with a hash: the rank in two bits, then the hash without its last two.
    pub(crate) fn code_of_hash(self, hash: u64) -> u64
        ensures { result ≡ code_of self hash }
    {
        u64::from(self.rank()) * (1 << 62) + hash / 4
    }

    /// The kind of the stamps with a code.
    fn of_code(code: u64) -> StampKind
        ensures { result ≡ kind_of code }
    {
        if code < 1 << 62 {
            StampKind::Identifier
        } else if code < 2 << 62 {
            StampKind::Cell
        } else if code < 3 << 62 {
            StampKind::AnyPeriod
        } else {
            StampKind::OnePeriod
        }
    }

    /// What a stamp of this kind looks at in a fact.
    pub(crate) fn group(self, held: &IndexedFact) -> Group<'_>
        ensures { result ≡ group_of self held.now.dims }
    {
        match self {
            StampKind::Identifier => Group::none(),
            StampKind::Cell => Group::of_cell(&held.fact().dims),
            StampKind::AnyPeriod => Group::of_concept(held.concept()),
            StampKind::OnePeriod => Group::of_period(held.concept(), held.period()),
        }
    }

    /// The hash of the stamp of this kind that a fact leaves: of an identifier the key of its name.
    fn hash(self, held: &NamedValue<IndexedFact>) -> u64
        ensures { result ≡ stamp_hash self held.now }
    {
        match self {
            StampKind::Identifier => held.key(),
            StampKind::Cell => held.value().cell_hash(),
            StampKind::AnyPeriod => held.value().concept_hash(),
            StampKind::OnePeriod => held.value().period_hash(),
        }
    }

    /// The code of the stamp of this kind that a fact leaves.
    fn code(self, held: &NamedValue<IndexedFact>) -> u64
        ensures { result ≡ stamp_code self held.now }
    {
        self.code_of_hash(self.hash(held))
    }

    /// The identifier of the stamp of this kind that a fact leaves, or nothing where that is for all of a cell.
    fn id(self, held: &NamedValue<IndexedFact>) -> &str
        ensures { result.now ≡ id_of self held.now.0 }
    {
        match self {
            StampKind::Cell => "",
            StampKind::Identifier | StampKind::AnyPeriod | StampKind::OnePeriod => held.name(),
        }
    }

    /// How this identifier stands to one that is looked for.
    fn order_sought(self, held: &NamedValue<IndexedFact>, id: &SoughtName<'_>) -> Ordering
        ensures { result ≡ text_cmp (id_of self held.now.0) id.now }
    {
        match self {
            StampKind::Cell => "".cmp(id.name()),
            StampKind::Identifier | StampKind::AnyPeriod | StampKind::OnePeriod => {
                held.order_sought(id)
            }
        }
    }

    /// How what a stamp of this kind looks at in a fact stands to what it looks at in another.
    fn order_groups(self, held: &IndexedFact, other: &IndexedFact) -> Ordering
        ensures { result ≡ group_cmp (group_of self held.now.dims) (group_of self other.now.dims) }
    {
        match self {
            StampKind::Identifier => Ordering::Equal,
            StampKind::Cell => order_cells(held, other),
            StampKind::AnyPeriod => order_concepts(held, other),
            StampKind::OnePeriod => order_concept_periods(held, other),
        }
    }

    /// How this identifier stands to that of another stamp of this kind.
    fn order_ids(self, held: &NamedValue<IndexedFact>, other: &NamedValue<IndexedFact>) -> Ordering
        ensures { result ≡ text_cmp (id_of self held.now.0) (id_of self other.now.0) }
    {
        match self {
            StampKind::Cell => Ordering::Equal,
            StampKind::Identifier | StampKind::AnyPeriod | StampKind::OnePeriod => {
                held.order(other)
            }
        }
    }
}

/// How texts stand to each other that may be missing.
fn order_texts(one: Option<&str>, other: Option<&str>) -> Ordering
    ensures { result ≡ option_cmp text_cmp (option_map (λ t. t.now) one.entry) (option_map (λ t. t.now) other.entry) }
{
    one.cmp(&other)
}

/// How dimension sets stand to each other that may be missing.
fn order_dims(one: Option<&DimSet>, other: Option<&DimSet>) -> Ordering
    ensures { result ≡ option_cmp dims_cmp (option_copied one.entry) (option_copied other.entry) }
{
    one.cmp(&other)
}

/// How the dimensions of two facts stand to each other.
#[tactic(auto, using(crate::proofs::OrderedGroups::cells))]
fn order_cells(held: &IndexedFact, other: &IndexedFact) -> Ordering
    ensures { result ≡ group_cmp (group_of variant.Cell held.now.dims) (group_of variant.Cell other.now.dims) }
{
    held.dims().cmp(other.dims())
}

/// How the concepts of two facts stand to each other.
#[tactic(auto, using(crate::proofs::OrderedGroups::concepts))]
fn order_concepts(held: &IndexedFact, other: &IndexedFact) -> Ordering
    ensures { result
        ≡ group_cmp (group_of variant.AnyPeriod held.now.dims) (group_of variant.AnyPeriod other.now.dims) }
{
    held.concept().cmp(other.concept())
}

/// How the concepts of two facts with their periods stand to each other.
#[tactic(auto, using(crate::proofs::OrderedGroups::periods))]
fn order_concept_periods(held: &IndexedFact, other: &IndexedFact) -> Ordering
    ensures { result
        ≡ group_cmp (group_of variant.OnePeriod held.now.dims) (group_of variant.OnePeriod other.now.dims) }
{
    match held.concept().cmp(other.concept()) {
        Ordering::Equal => held.period().cmp(&other.period()),
        order => order,
    }
}

/// How periods stand to each other that are none, and that may not be looked at.
fn order_periods(one: Option<Option<&str>>, other: Option<Option<&str>>) -> Ordering
    ensures { result ≡ option_cmp (option_cmp text_cmp) (option_map (option_map (λ t. t.now)) one.entry)
        (option_map (option_map (λ t. t.now)) other.entry) }
{
    one.cmp(&other)
}

/// What a stamp looks at in the dimensions of a fact: all of them, or a concept, alone or with a period or none.
/// Contracts see the parts.
#[derive(Drop)]
pub(crate) struct Group<'a> {
    dims: Option<&'a DimSet>,
    concept: Option<&'a str>,
    period: Option<Option<&'a str>>,
}

impl<'a> Model for Group<'a> {
    ghost use Rattle.std.specs.Prelude.{option_copied, option_map};
    ghost use Rattle.filing_stamps.specs.Stamps.{Group as PlainGroup};

    ghost Value = { PlainGroup };

    ghost view = { λ g.
        record {
          dims = option_copied g.dims;
          concept = option_map (λ t. t.now) g.concept;
          period = option_map (option_map (λ t. t.now)) g.period;
        } };
}

impl<'a> Group<'a> {
    pub(crate) fn none() -> Group<'a>
        ensures { result ≡ no_group }
    {
        Group {
            dims: None,
            concept: None,
            period: None,
        }
    }

    pub(crate) fn of_cell(dims: &'a DimSet) -> Group<'a>
        ensures { result ≡ record no_group { dims = Some dims.now } }
    {
        Group {
            dims: Some(dims),
            concept: None,
            period: None,
        }
    }

    pub(crate) fn of_concept(concept: &'a str) -> Group<'a>
        ensures { result ≡ record no_group { concept = Some concept.now } }
    {
        Group {
            dims: None,
            concept: Some(concept),
            period: None,
        }
    }

    pub(crate) fn of_period(concept: &'a str, period: Option<&'a str>) -> Group<'a>
        ensures { result
            ≡ record no_group { concept = Some concept.now; period = Some (option_map (λ t. t.now) period.entry) } }
    {
        Group {
            dims: None,
            concept: Some(concept),
            period: Some(period),
        }
    }

    pub(crate) fn order(&self, other: &Group<'_>) -> Ordering
        ensures { result ≡ group_cmp self.now other.now }
    {
        order_dims(self.dims, other.dims)
            .then(order_texts(self.concept, other.concept))
            .then(order_periods(self.period, other.period))
    }

    /// The hash of what is looked at, or 0 of nothing.
    pub(crate) fn hash(&self) -> u64
        ensures { result ≡ group_hash self.now }
    {
        match (self.dims, self.concept, self.period) {
            (Some(dims), _, _) => hash_of_dims(dims),
            (None, Some(concept), None) => hash_of_concept(concept),
            (None, Some(concept), Some(period)) => hash_of_period(concept, period),
            (None, None, _) => 0,
        }
    }
}

/// The number of the last touch of what a fact stands in.
///
/// It compares by what it means, which is read from the fact. The number takes no part. The code tells the kind.
#[derive(Drop)]
pub(crate) struct Stamp {
    code: u64,
    number: u64,
    held: NamedValue<IndexedFact>,
}

impl Model for Stamp {
    ghost use Rattle.filing_stamps.specs.Stamps.{Stamp as PlainStamp, kind_of, stamp_of};

    ghost Value = { PlainStamp };

    ghost view = { λ s. stamp_of (kind_of s.code) s.code s.number s.held };
}

impl Stamp {
    /// The stamp of a kind that a fact leaves.
    pub(crate) fn of(
        kind: StampKind,
        held: &NamedValue<IndexedFact>,
        number: u64,
    ) -> Result<Stamp, AllocError>
        ensures { IfOk result (λ s. s ≡ coded_stamp kind number held.now) }
    {
        let code = kind.code(held);
        let held = held.share()?;
        Ok(Stamp { code, number, held })
    }

    fn kind(&self) -> StampKind
        ensures { result ≡ kind_of self.now.code }
    {
        StampKind::of_code(self.code)
    }

    pub(crate) fn rank(&self) -> u8
        ensures { result ≡ self.now.rank }
    {
        StampKind::of_code(self.code).rank()
    }

    pub(crate) fn code(&self) -> u64
        ensures { result ≡ self.now.code }
    {
        self.code
    }

    /// The number of the last touch.
    pub(crate) fn number(&self) -> u64
        ensures { result ≡ self.now.number }
    {
        self.number
    }

    pub(crate) fn group(&self) -> Group<'_>
        ensures { result ≡ self.now.group }
    {
        self.kind().group(self.held.value())
    }

    /// The identifier, or nothing where the stamp is for all of a cell.
    pub(crate) fn id(&self) -> &str
        ensures { result.now ≡ self.now.id }
    {
        self.kind().id(&self.held)
    }

    /// How its identifier stands to one that is looked for.
    pub(crate) fn order_sought(&self, id: &SoughtName<'_>) -> Ordering
        ensures { result ≡ text_cmp self.now.id id.now }
    {
        self.kind().order_sought(&self.held, id)
    }

    /// How it stands to another stamp of the same code, and so of the same kind.
    fn order_alike(&self, other: &Stamp) -> Ordering
        requires { self.now.code ≡ other.now.code }
        ensures { result ≡ stamp_cmp self.now other.now }
    {
        let kind = self.kind();
        match kind.order_groups(self.held.value(), other.held.value()) {
            Ordering::Equal => kind.order_ids(&self.held, &other.held),
            order => order,
        }
    }

    /// Whether it ties with another stamp of the same code.
    /// Identifiers are compared first: their keys stand in the stamp.
    #[tactic(auto, using(crate::proofs::StampTies::alike))]
    fn is_alike(&self, other: &Stamp) -> bool
        requires { self.now.code ≡ other.now.code }
        ensures { result ≡ eq_by_cmp stamp_cmp self.now other.now }
    {
        let kind = self.kind();
        kind.order_ids(&self.held, &other.held).is_eq()
            && kind
                .order_groups(self.held.value(), other.held.value())
                .is_eq()
    }
}

impl PartialEq for Stamp {
    ghost eq = { eq_by_cmp stamp_cmp };

    ghost laws = { partial_equiv_from_equiv (eq_by_cmp_equiv stamp_cmp-total) };

    fn eq(&self, other: &Stamp) -> bool {
        self.code == other.code && self.is_alike(other)
    }
}

impl Eq for Stamp {
    ghost laws = { eq_by_cmp_equiv stamp_cmp-total };
}

impl PartialOrd for Stamp {
    ghost partial_cmp = { λ x y. Some (stamp_cmp x y) };

    ghost laws = { partial_order_from_agreeing_total stamp_cmp stamp_cmp-total (λ x y. refl) (λ x y. refl) };

    fn partial_cmp(&self, other: &Stamp) -> Option<Ordering> {
        Some(self.cmp(other))
    }
}

impl Ord for Stamp {
    ghost cmp = { stamp_cmp };

    ghost total = { stamp_cmp-total };

    ghost matches_partial_cmp = { λ x y. refl };

    ghost matches_eq = { λ x y. refl };

    fn cmp(&self, other: &Stamp) -> Ordering {
        match self.code.cmp(&other.code) {
            Ordering::Equal => self.order_alike(other),
            order => order,
        }
    }
}

/// Pages keep the greatest number.
impl Summed for Stamp {
    ghost use Rattle.sorted_pages.specs.Pages.{greatest};

    type Sum = u64;

    type Kept = u64;

    ghost tells = { λ number stamps. number ≡ greatest (λ s. s.number) stamps };

    ghost keeps = { λ number stamps. number ≡ greatest (λ s. s.number) stamps };

    fn none() -> u64 {
        0
    }

    fn add_to(&self, number: u64) -> u64 {
        number.max(self.number)
    }

    fn join(number: u64, kept: &u64) -> u64 {
        number.max(*kept)
    }

    fn keep(_alloc: Global, number: u64) -> u64 {
        number
    }
}

impl PageEntry for Stamp {
    ghost order = { stamp_cmp };

    ghost is_total = { stamp_cmp-total };

    ghost key = { λ s. s.code };

    ghost key_rises = { stamp_codes_rise };

    /// Few, so that a look-up goes through few stamps at either end of its range.
    fn most_in_page() -> usize {
        16
    }

    fn key(&self) -> u64 {
        self.code
    }

    fn order(&self, other: &Stamp) -> Ordering {
        self.cmp(other)
    }

    fn owners(&self) -> usize {
        self.held.owners()
    }

    fn share(&self) -> Result<Stamp, AllocError> {
        let held = self.held.share()?;
        Ok(Stamp {
            code: self.code,
            number: self.number,
            held,
        })
    }
}
