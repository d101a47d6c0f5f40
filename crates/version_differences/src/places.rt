//! `Places`: where two versions may differ.

ghost use Rattle.std.specs.Prelude.{◌≡◌, option_copied, unwrap_or, IfOk, OnOk};
ghost use Rattle.filing_model.specs.Common.TextMap.{empty, get, insert};
ghost use Rattle.version_differences.specs.Places.{ids_at, with_name, with_place};

use sorted_pages::Range;
use std::alloc::{AllocError, Global};
use std::marker::Model;
use text_map::{NamedValue, PagedValue, TextPages};

/// The value at an identifier that is a place.
#[derive(Drop)]
pub(crate) struct Mark;

impl Model for Mark {
    ghost use Rattle.std.specs.Prelude.{⊤};

    ghost Value = { ⊤ };

    ghost view = { λ m. tt };
}

impl PagedValue for Mark {}

/// The identifiers of one report that are places.
#[derive(Drop)]
pub(crate) struct Ids {
    ids: TextPages<Mark>,
}

impl Model for Ids {
    ghost use Rattle.version_differences.specs.Places.{Ids as PlainIds};

    ghost Value = { PlainIds };

    ghost view = { λ i. i.ids };
}

impl PagedValue for Ids {}

impl Ids {
    /// No identifiers. It takes no memory.
    fn new(alloc: Global) -> Ids
        ensures { result ≡ empty }
    {
        Ids {
            ids: TextPages::new(alloc),
        }
    }

    /// The identifiers once more, all shared.
    fn share(&self, alloc: Global) -> Result<Ids, AllocError>
        ensures { IfOk result (λ ids. ids ≡ self.now) }
    {
        Ok(Ids {
            ids: self.ids.share(alloc)?,
        })
    }

    /// The identifiers with one more.
    fn with(self, alloc: Global, id: &str) -> Result<Ids, AllocError>
        ensures { IfOk result (λ ids. ids ≡ insert self id.now tt) }
    {
        let id = String::from_str(alloc, id)?;
        let entry = NamedValue::new(alloc, id, Mark)?;
        Ok(Ids {
            ids: self.ids.put_back(alloc, entry)?,
        })
    }

    /// The identifiers in byte order.
    pub(crate) fn iter(&self) -> Range<'_, NamedValue<Mark>>
        ensures { result ≡ self.now.entries }
    {
        self.ids.iter()
    }
}

/// Names of reports, and identifiers in each. Contracts see the map of them.
#[derive(Drop)]
pub struct Places {
    reports: TextPages<Ids>,
}

impl Model for Places {
    ghost use Rattle.version_differences.specs.Places.{Places as PlainPlaces};

    ghost Value = { PlainPlaces };

    ghost view = { λ p. p.reports };
}

impl Places {
    /// No names. It takes no memory.
    pub fn new(alloc: Global) -> Places
        ensures { result ≡ empty }
    {
        Places {
            reports: TextPages::new(alloc),
        }
    }

    /// The identifiers under a name; none where the name is none of these.
    fn ids_at(&self, alloc: Global, name: &str) -> Result<Ids, AllocError>
        ensures { IfOk result (λ ids. ids ≡ ids_at self.now name.now) }
    {
        match self.reports.get(name) {
            Some(ids) => ids.share(alloc),
            None => Ok(Ids::new(alloc)),
        }
    }

    /// Adds the name of a report.
    pub fn add_name(&mut self, alloc: Global, name: &str) -> Result<(), AllocError>
        ensures { OnOk result (self.new ≡ with_name self.old name.now) }
    {
        let ids = self.ids_at(alloc, name)?;
        let name = String::from_str(alloc, name)?;
        self.reports = self.reports.with(alloc, name, ids)?;
        Ok(())
    }

    /// Adds an identifier in a report.
    pub fn add_place(&mut self, alloc: Global, name: &str, id: &str) -> Result<(), AllocError>
        ensures { OnOk result (self.new ≡ with_place self.old name.now id.now) }
    {
        let ids = self.ids_at(alloc, name)?;
        let ids = ids.with(alloc, id)?;
        let name = String::from_str(alloc, name)?;
        self.reports = self.reports.with(alloc, name, ids)?;
        Ok(())
    }

    /// The identifiers under a name, or none where the name is none of these.
    pub(crate) fn get(&self, name: &str) -> Option<&Ids>
        ensures { option_copied result ≡ get self.now name.now }
    {
        self.reports.get(name)
    }

    /// The names in byte order, each with its identifiers.
    pub(crate) fn iter(&self) -> Range<'_, NamedValue<Ids>>
        ensures { result ≡ self.now.entries }
    {
        self.reports.iter()
    }
}
