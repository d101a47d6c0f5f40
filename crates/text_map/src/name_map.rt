//! `NameMap`: values under the names in use.
ghost use Rattle.std.specs.Prelude.{◌≡◌, None, option_copied, OnOk, OnErr, refl, Some, string_bytes, string_cmp};
ghost use Rattle.filing_model.specs.Common.TextMap.{empty, get, insert, remove};
ghost use Rattle.std.specs.Ordering.{eq_by_cmp};
ghost use Rattle.std.specs.Cmp.{eq_by_cmp_equiv, partial_equiv_from_equiv, on_total, partial_order_from_agreeing_total};
ghost use Rattle.std.specs.Cmp.Lexicographic.{nat_list_cmp_total};
ghost use Rattle.filing_model.specs.Common.Text.{text_cmp};
ghost use Rattle.text_map.specs.Heads.{name_key};

use crate::named_value::SoughtName;
use std::alloc::{AllocError, Global};
use std::cmp::Ordering;
use std::collections::BTreeMap;
use std::collections::btree_map::Comparable;
use std::marker::Model;

/// A map from names that changes in place. Contracts see a finite map from texts.
#[derive(Drop)]
pub struct NameMap<V: Drop> {
    by_name: BTreeMap<KeyedName, V>,
}

impl<V: Drop> Model for NameMap<V> {
    ghost use Rattle.filing_model.specs.Common.TextMap.{TextMap};
    ghost use Rattle.filing_model.specs.Common.Keyed.{keyed_map};

    ghost Value = { TextMap V };

    ghost view = { λ s. keyed_map (λ v. v) s.by_name.entries };
}

#[tactic(auto, using(filing_model::proofs::Common::KeyedMaps::get_keyed_map, filing_model::proofs::Common::KeyedMaps::keyed_map_insert_entry))]
impl<V: Drop> NameMap<V> {
    ghost use Rattle.std.specs.Prelude.{string_bytes};

    /// No names. It takes no memory.
    pub fn new(alloc: Global) -> NameMap<V>
        ensures { result ≡ empty }
    {
        NameMap {
            by_name: BTreeMap::new(alloc),
        }
    }

    /// The value of a name. It takes no memory.
    pub fn get(&self, name: &str) -> Option<&V>
        ensures { option_copied result ≡ get self.now name.now }
    {
        self.by_name.get(&SoughtName::of(name))
    }

    /// Puts a name in use; one that is in use gets another value, and that takes no memory.
    pub fn insert(&mut self, name: String, value: V) -> Result<(), AllocError>
        ensures ok { OnOk result (self.new ≡ insert self.old (string_bytes name) value) }
        ensures err { OnErr result (self.new ≡ self.old) }
        ensures new { OnErr result (get self.old (string_bytes name) ≡ None) }
    {
        self.by_name.insert(KeyedName::of(name), value)?;
        Ok(())
    }

    /// Frees a name. It takes no memory.
    pub fn remove(&mut self, name: &str)
        ensures { self.new ≡ remove self.old name.now }
    {
        let _ = self.by_name.len();
        self.by_name.remove(&SoughtName::of(name));
    }
}

/// How two names stand whose keys are given.
fn order_names(name: &str, key: u64, other: &str, other_key: u64) -> Ordering
    requires keys { (key ≡ name_key name.now) × (other_key ≡ name_key other.now) }
    ensures { result ≡ text_cmp name.now other.now }
{
    match key.cmp(&other_key) {
        Ordering::Equal => name.cmp(other),
        order => order,
    }
}

/// A name, with the number of its first 8 bytes next to the pointer, so that most comparisons do not follow it. Contracts see the text.
#[derive(Drop)]
pub(crate) struct KeyedName {
    key: u64,
    name: String,
}

impl Model for KeyedName {
    ghost use Rattle.std.specs.Prelude.{◌≡◌, String, string_bytes};
    ghost use Rattle.std.specs.declared.alloc.Global.{Global};
    ghost use Rattle.text_map.specs.Heads.{name_key};

    ghost Value = { String Global };

    ghost view = { λ n. n.name };

    ghost invariant = { λ n. n.key ≡ name_key (string_bytes n.name) };
}

impl KeyedName {
    pub(crate) fn of(name: String) -> KeyedName
        ensures { result ≡ name }
    {
        let key = SoughtName::of(&name).key();
        KeyedName { key, name }
    }
}

impl PartialEq for KeyedName {
    ghost eq = { λ a b. eq_by_cmp string_cmp a b };

    ghost laws = { partial_equiv_from_equiv (eq_by_cmp_equiv (on_total (λ n. string_bytes n) nat_list_cmp_total)) };

    fn eq(&self, other: &KeyedName) -> bool {
        self.cmp(other).is_eq()
    }
}

impl Eq for KeyedName {
    ghost laws = { eq_by_cmp_equiv (on_total (λ n. string_bytes n) nat_list_cmp_total) };
}

impl PartialOrd for KeyedName {
    ghost partial_cmp = { λ a b. Some (string_cmp a b) };

    ghost laws = { partial_order_from_agreeing_total (λ a b. string_cmp a b)
        (on_total (λ n. string_bytes n) nat_list_cmp_total) (λ a b. refl) (λ a b. refl) };

    fn partial_cmp(&self, other: &KeyedName) -> Option<Ordering> {
        Some(self.cmp(other))
    }
}

impl Ord for KeyedName {
    ghost cmp = { string_cmp };

    ghost total = { on_total (λ n. string_bytes n) nat_list_cmp_total };

    ghost matches_partial_cmp = { λ a b. refl };

    ghost matches_eq = { λ a b. refl };

    fn cmp(&self, other: &KeyedName) -> Ordering {
        order_names(&self.name, self.key, &other.name, other.key)
    }
}

impl<'a> Comparable<KeyedName> for &SoughtName<'a> {
    ghost use Rattle.std.specs.Prelude.{string_bytes};
    ghost use Rattle.std.specs.BTreeMap.Comparable.{le_lt_trans};
    ghost use Rattle.std.specs.Cmp.Lexicographic.{nat_list_cmp_total};
    ghost use Rattle.filing_model.specs.Common.Text.{text_cmp};

    ghost compare = { λ q k. text_cmp q.now (string_bytes k) };

    ghost respects_cmp = { λ q x y. nat_list_cmp_total.congr q.now (string_bytes x) (string_bytes y) };

    ghost below_greater = { λ q x y. le_lt_trans nat_list_cmp_total q.now (string_bytes x) (string_bytes y) };

    fn compare(&self, key: &KeyedName) -> Ordering {
        order_names(self.name(), self.key(), &key.name, key.key)
    }
}
