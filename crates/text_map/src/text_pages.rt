//! A map from texts in shared pages.
ghost use Rattle.std.specs.Prelude.{◌≡◌, T as Holds, length, map, option_copied, option_map, string_bytes, IfOk, IfSome, Some, None};
ghost use Rattle.std.specs.FinMap.Entries.{is_sorted};
ghost use Rattle.sorted_pages.specs.Changes.{entry_of};
ghost use Rattle.sorted_pages.specs.Pages.{AreSizes};
ghost use Rattle.filing_model.specs.Common.Text.{text_cmp};
ghost use Rattle.filing_model.specs.Common.TextMap.{empty, get, insert, remove};
ghost use Rattle.text_map.specs.MapChanges.{map_with_changes};

use crate::named_value::{NamedValue, PagedValue, SoughtName};
use sorted_pages::{Edit, Paged, Range, Span, order_of_keys};
use std::alloc::{AllocError, Global};
use std::cmp::Ordering;
use std::marker::Model;

/// An unchanging map from texts, of which a changed copy shares the pages where nothing changed.
///
/// Contracts see the finite map.
#[derive(Drop)]
pub struct TextPages<V: PagedValue> {
    pages: Paged<NamedValue<V>>,
}

impl<V: PagedValue> Model for TextPages<V> {
    ghost use Rattle.std.specs.Prelude.{T as Holds};
    ghost use Rattle.std.specs.FinMap.Entries.{is_sorted};
    ghost use Rattle.filing_model.specs.Common.Text.{text_cmp};
    ghost use Rattle.filing_model.specs.Common.TextMap.{TextMap, from_entries};

    ghost Value = { TextMap V };

    ghost view = { λ m. from_entries m.pages };

    ghost invariant = { λ m. Holds (is_sorted text_cmp m.pages) };
}

/// The range of one name.
#[derive(Drop)]
struct At<'a>(SoughtName<'a>);

impl<'a, V: PagedValue> Span<NamedValue<V>> for At<'a> {
    ghost use Rattle.filing_model.specs.Common.Text.{text_cmp};
    ghost use Rattle.text_map.specs.Spans.{name_is_monotone};

    ghost side = { λ a n. text_cmp n.0 a.0 };

    ghost is_monotone = { λ a. name_is_monotone a.0 };

    fn side(&self, entry: &NamedValue<V>) -> Ordering {
        entry.order_sought(&self.0)
    }

    fn side_of_key(&self, key: u64) -> Option<Ordering> {
        order_of_keys(key, self.0.key())
    }
}

/// The range of all names.
#[derive(Drop)]
struct All;

impl<V: PagedValue> Span<NamedValue<V>> for All {
    ghost use Rattle.std.specs.declared.cmp.Ordering.TheVariants.{Equal};
    ghost use Rattle.text_map.specs.Spans.{all_is_monotone};

    ghost side = { λ a n. Equal };

    ghost is_monotone = { λ a. all_is_monotone };

    fn side(&self, _: &NamedValue<V>) -> Ordering {
        Ordering::Equal
    }

    fn side_of_key(&self, _: u64) -> Option<Ordering> {
        Some(Ordering::Equal)
    }
}

impl<V: PagedValue> TextPages<V> {
    /// The map of nothing. It takes no memory.
    pub fn new(alloc: Global) -> TextPages<V>
        ensures { result ≡ empty }
    {
        TextPages {
            pages: Paged::new(alloc),
        }
    }

    /// The map of entries whose names rise.
    pub fn of_sorted(alloc: Global, entries: Vec<NamedValue<V>>) -> Result<TextPages<V>, AllocError>
        requires { Holds (is_sorted text_cmp entries.items) }
        ensures { IfOk result (λ m. m.entries ≡ entries.items) }
    {
        let pages = Paged::of_sorted(alloc, entries)?;
        Ok(TextPages { pages })
    }

    /// The entry of a name. It takes no memory.
    pub fn get_named(&self, name: &str) -> Option<&NamedValue<V>>
        ensures { option_copied result ≡ option_map (λ v. (name.now, v)) (get self.now name.now) }
    {
        self.pages.first_in(&At(SoughtName::of(name)))
    }

    /// The value of a name. It takes no memory.
    pub fn get(&self, name: &str) -> Option<&V>
        ensures { option_copied result ≡ get self.now name.now }
    {
        let named = self.get_named(name)?;
        Some(named.value())
    }

    /// A copy with changes whose names rise. This map stays as it is.
    pub fn after(
        &self,
        alloc: Global,
        changes: &[Edit<NamedValue<V>>],
    ) -> Result<TextPages<V>, AllocError>
        requires { Holds (is_sorted text_cmp (map entry_of changes.now)) }
        ensures { IfOk result (λ m. m ≡ map_with_changes changes.now self.now) }
    {
        let pages = self.pages.after(alloc, changes)?;
        Ok(TextPages { pages })
    }

    /// The map after changes whose names rise, in place where no other map holds what they change and they fit.
    pub fn into_after(
        self,
        alloc: Global,
        changes: &[Edit<NamedValue<V>>],
    ) -> Result<TextPages<V>, AllocError>
        requires { Holds (is_sorted text_cmp (map entry_of changes.now)) }
        ensures { IfOk result (λ m. m ≡ map_with_changes changes.now self) }
    {
        let TextPages { pages } = self;
        let pages = pages.into_after(alloc, changes)?;
        Ok(TextPages { pages })
    }

    /// Takes the entry of a name out of a small map. Out of a large one none is taken.
    pub fn take(self, alloc: Global, name: &str) -> (TextPages<V>, Option<NamedValue<V>>)
        ensures none { result.1 ≡ None → result.0 ≡ self }
        ensures some { IfSome result.1 (λ n. (Some n ≡ option_map (λ v. (name.now, v)) (get self name.now))
            × (result.0 ≡ remove self name.now)) }
    {
        let TextPages { pages } = self;
        let (pages, taken) = pages.take(alloc, &At(SoughtName::of(name)));
        match taken {
            None => (TextPages { pages }, None),
            Some(named) => (TextPages { pages }, Some(named)),
        }
    }

    /// The map with an entry, in place where no other map holds what that changes and it fits.
    pub fn put_back(self, alloc: Global, entry: NamedValue<V>) -> Result<TextPages<V>, AllocError>
        ensures { IfOk result (λ m. m ≡ insert self entry.0 entry.1) }
    {
        self.into_after(alloc, &[Edit::Put(entry)])
    }

    /// Another owner of the map, which shares all pages.
    pub fn share(&self, alloc: Global) -> Result<TextPages<V>, AllocError>
        ensures { IfOk result (λ m. m ≡ self.now) }
    {
        let changes = [];
        self.after(alloc, &changes)
    }

    /// A copy with a value under a name. This map stays as it is.
    pub fn with(&self, alloc: Global, name: String, value: V) -> Result<TextPages<V>, AllocError>
        ensures { IfOk result (λ m. m ≡ insert self.now (string_bytes name) value) }
    {
        let entry = NamedValue::new(alloc, name, value)?;
        self.after(alloc, &[Edit::Put(entry)])
    }

    /// The entries in byte order of their names. It takes no memory.
    pub fn iter(&self) -> Range<'_, NamedValue<V>>
        ensures { result ≡ self.now.entries }
    {
        self.pages.range(&All)
    }
    /// The lengths of the pages, for tests. Entries that stand in place are one page.
    pub fn page_sizes(&self, alloc: Global) -> Result<Vec<usize>, AllocError>
        ensures { IfOk result (λ sizes. AreSizes sizes.items (length self.now.entries)) }
    {
        self.pages.page_sizes(alloc)
    }
}
