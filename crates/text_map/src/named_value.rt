//! A value under a name.
ghost use Rattle.std.specs.Prelude.{◌≡◌, ◌≤◌, true, length, get_or, string_bytes, IfOk, MatchResult};
ghost use Rattle.filing_model.specs.Common.Text.{text_cmp};
ghost use Rattle.text_map.specs.Heads.{head_of, name_key, IsHeadOf, IsKeyOfHead};

use sorted_pages::{PageEntry, Summed};
use std::alloc::{AllocError, Global};
use std::cmp::Ordering;
use std::marker::Model;
use std::sync::Arc;

/// What maps from texts hold, which says how long their pages are.
pub trait PagedValue: Drop {
    /// The most of these that a page holds. Entries of a copied page are counted up where they lie,
    /// so small pages cost less to change, and take less memory where many versions are kept.
    fn most_in_page() -> usize
        ensures some { 2 ≤ result }
        ensures few { result ≤ 64 }
    {
        16
    }
}

impl<V: Drop> PagedValue for Option<V> {}

/// The byte at a place, or 0 after the last.
fn byte_at(bytes: &[u8], place: usize) -> u8
    ensures { result ≡ get_or bytes.now place 0 }
{
    bytes.get(place).copied().unwrap_or(0)
}

/// The number of the first 16 bytes of a name, and of 0 after the last. Two numbers are compared at once, where bytes are one by one.
fn head_of(name: &str) -> u128
    ensures { IsHeadOf name.now result }
{
    let bytes = name.as_bytes();
    u128::from_be_bytes([
        byte_at(bytes, 0),
        byte_at(bytes, 1),
        byte_at(bytes, 2),
        byte_at(bytes, 3),
        byte_at(bytes, 4),
        byte_at(bytes, 5),
        byte_at(bytes, 6),
        byte_at(bytes, 7),
        byte_at(bytes, 8),
        byte_at(bytes, 9),
        byte_at(bytes, 10),
        byte_at(bytes, 11),
        byte_at(bytes, 12),
        byte_at(bytes, 13),
        byte_at(bytes, 14),
        byte_at(bytes, 15),
    ])
}

/// Whether two names are as long and stand in their heads, to the last byte.
fn stand_in_heads(name: &str, other: &str) -> bool
    ensures { result ≡ true → (length name.now ≡ length other.now) × (length name.now ≤ 16) }
{
    name.len() == other.len() && name.len() <= 16
}

/// How two names of one head stand. Short ones are most often the same, and need not be read for that.
fn order_in_head(name: &str, other: &str) -> Ordering
    requires { head_of name.now ≡ head_of other.now }
    ensures { result ≡ text_cmp name.now other.now }
{
    if stand_in_heads(name, other) {
        Ordering::Equal
    } else {
        name.cmp(other)
    }
}

/// How two names stand whose heads are given.
fn order_names(name: &str, head: u128, other: &str, other_head: u128) -> Ordering
    requires heads { (head ≡ head_of name.now) × (other_head ≡ head_of other.now) }
    ensures { result ≡ text_cmp name.now other.now }
{
    match head.cmp(&other_head) {
        Ordering::Equal => order_in_head(name, other),
        order => order,
    }
}

/// The key of the names of a head: its first 8 bytes.
fn key_of_head(head: u128) -> u64
    ensures { IsKeyOfHead head result }
{
    (head >> 64) as u64
}

/// A name that is looked for, with its head. Contracts see the name.
#[derive(Drop)]
pub struct SoughtName<'a> {
    head: u128,
    name: &'a str,
}

impl<'a> Model for SoughtName<'a> {
    ghost use Rattle.filing_model.specs.Common.Text.{Text};
    ghost use Rattle.text_map.specs.Heads.{IsHeadOf};

    ghost Value = { Text };

    ghost view = { λ s. s.name.now };

    ghost invariant = { λ s. IsHeadOf s.name.now s.head };
}

impl<'a> SoughtName<'a> {
    pub fn of(name: &'a str) -> SoughtName<'a>
        ensures { result ≡ name.now }
    {
        let head = head_of(name);
        SoughtName { head, name }
    }

    pub fn name(&self) -> &str
        ensures { result.now ≡ self.now }
    {
        self.name
    }

    /// The key of the entries of this name.
    pub fn key(&self) -> u64
        ensures { result ≡ name_key self.now }
    {
        key_of_head(self.head)
    }
}

/// A name and a value. The head of the name stands in place, so that most comparisons follow no pointer from here.
#[derive(Drop)]
struct Pair<V: Drop> {
    head: u128,
    name: String,
    value: V,
}

impl<V: Drop> Model for Pair<V> {
    ghost use Rattle.std.specs.Prelude.{string_bytes};
    ghost use Rattle.filing_model.specs.Common.Text.{Text};
    ghost use Rattle.text_map.specs.Heads.{IsHeadOf};

    ghost Value = { Text × V };

    ghost view = { λ p. (string_bytes p.name, p.value) };

    ghost invariant = { λ p. IsHeadOf (string_bytes p.name) p.head };
}

impl<V: Drop> Pair<V> {
    fn of(name: String, value: V) -> Pair<V>
        ensures { result ≡ (string_bytes name, value) }
    {
        let head = head_of(&name);
        Pair { head, name, value }
    }

    fn name(&self) -> &str
        ensures { result.now ≡ self.now.0 }
    {
        &self.name
    }

    fn value(&self) -> &V
        ensures { result.now ≡ self.now.1 }
    {
        &self.value
    }

    fn key(&self) -> u64
        ensures { result ≡ name_key self.now.0 }
    {
        key_of_head(self.head)
    }

    /// How the name stands to another one.
    fn order(&self, other: &Pair<V>) -> Ordering
        ensures { result ≡ text_cmp self.now.0 other.now.0 }
    {
        order_names(self.name(), self.head, other.name(), other.head)
    }

    /// How the name stands to one that is looked for.
    fn order_sought(&self, sought: &SoughtName<'_>) -> Ordering
        ensures { result ≡ text_cmp self.now.0 sought.now }
    {
        order_names(self.name(), self.head, sought.name, sought.head)
    }
}

/// A value under a name, shared by all lists that hold it. The key of the name stands next to the pointer, so that most comparisons follow none.
///
/// Contracts see the pair of the name's bytes and the value.
#[derive(Drop)]
pub struct NamedValue<V: Drop> {
    key: u64,
    pair: Arc<Pair<V>>,
}

impl<V: Drop> Model for NamedValue<V> {
    ghost use Rattle.std.specs.Arc.{arc_value};
    ghost use Rattle.filing_model.specs.Common.Text.{Text};
    ghost use Rattle.std.specs.Prelude.{◌≡◌};
    ghost use Rattle.text_map.specs.Heads.{name_key};

    ghost Value = { Text × V };

    ghost view = { λ n. arc_value n.pair };

    ghost invariant = { λ n. n.key ≡ name_key (arc_value n.pair).0 };
}

impl<V: Drop> Pair<V> {
    fn into_parts(self) -> (String, V)
        ensures { (string_bytes result.0, result.1) ≡ self }
    {
        let Pair { name, value, .. } = self;
        (name, value)
    }
}

impl<V: Drop> NamedValue<V> {
    /// The name and the value, where no other list holds them.
    pub fn into_parts(self) -> Result<(String, V), NamedValue<V>>
        ensures { MatchResult result (λ p. (string_bytes p.0, p.1) ≡ self) (λ n. n ≡ self) }
    {
        let NamedValue { key, pair } = self;
        match Arc::try_unwrap(pair) {
            Ok(pair) => Ok(pair.into_parts()),
            Err(pair) => Err(NamedValue { key, pair }),
        }
    }

    pub fn new(alloc: Global, name: String, value: V) -> Result<NamedValue<V>, AllocError>
        ensures { IfOk result (λ n. n ≡ (string_bytes name, value)) }
    {
        let pair = Pair::of(name, value);
        let key = pair.key();
        let pair = Arc::new(alloc, pair)?;
        Ok(NamedValue { key, pair })
    }

    pub fn name(&self) -> &str
        ensures { result.now ≡ self.now.0 }
    {
        self.pair.name()
    }

    pub fn value(&self) -> &V
        ensures { result.now ≡ self.now.1 }
    {
        self.pair.value()
    }

    /// How the name stands to one that is looked for.
    pub fn order_sought(&self, sought: &SoughtName<'_>) -> Ordering
        ensures { result ≡ text_cmp self.now.0 sought.now }
    {
        match self.key.cmp(&sought.key()) {
            Ordering::Equal => self.pair.order_sought(sought),
            order => order,
        }
    }
}

/// Pages keep nothing of them.
impl<V: Drop> Summed for NamedValue<V> {
    ghost use Rattle.std.specs.Prelude.{⊤};

    type Sum = ();

    type Kept = ();

    ghost tells = { λ sum entries. ⊤ };

    ghost keeps = { λ kept entries. ⊤ };

    fn none() {}

    fn add_to(&self, _sum: ()) {}

    fn join(_sum: (), _kept: &()) {}

    fn keep(_alloc: Global, _sum: ()) {}

    fn is_settled(_sum: &()) -> bool {
        true
    }

    fn keep_by_ends(_first: &Self, _last: &Self) -> Option<()> {
        Some(())
    }
}

impl<V: PagedValue> PageEntry for NamedValue<V> {
    ghost use Rattle.std.specs.Ordering.{on};
    ghost use Rattle.std.specs.Cmp.{on_total};
    ghost use Rattle.std.specs.Cmp.Lexicographic.{nat_list_cmp_total};
    ghost use Rattle.filing_model.specs.Common.Text.{text_cmp};
    ghost use Rattle.text_map.specs.Heads.{name_key};
    ghost use Rattle.text_map.specs.NameKeys.{name_keys_rise};

    ghost order = { on (λ n. n.0) text_cmp };

    ghost is_total = { on_total (λ n. n.0) nat_list_cmp_total };

    ghost key = { λ n. name_key n.0 };

    ghost key_rises = { λ x y. name_keys_rise x.0 y.0 };

    fn most_in_page() -> usize {
        V::most_in_page()
    }

    fn key(&self) -> u64 {
        self.key
    }

    fn order(&self, other: &Self) -> Ordering {
        match self.key.cmp(&other.key) {
            Ordering::Equal => self.pair.order(&other.pair),
            order => order,
        }
    }

    fn owners(&self) -> usize {
        Arc::strong_count(&self.pair)
    }

    fn share(&self) -> Result<NamedValue<V>, AllocError> {
        let pair = Arc::try_clone(&self.pair)?;
        Ok(NamedValue {
            key: self.key,
            pair,
        })
    }
}
