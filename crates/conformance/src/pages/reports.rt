//! The facts of a report as a list of items: each stands under an identifier that its key makes, and its value is its weight.
//! Changes are sessions of a core.

use crate::offices::line_step;
use crate::pages::item::Item;
use anyhow::Result;
use filing_core::Core;
use oim_fact::FactValue;
use oim_report::push_comma;
use sorted_pages::Edit;
use std::alloc::{AllocError, Global};

// The name of the report.
pub(crate) const NAME: &str = "r1";

// What stands before its facts in a load, and after them.
const FRONT: &str =
    r#"["load","r1",{"documentInfo":{"documentType":"https://xbrl.org/2021/xbrl-json","namespaces":{"ex":"http://e.org/t"}},"facts":{"#;

const END: &str = "}}]";

/// A core of one report, and how many sessions were opened.
#[derive(Drop)]
pub(crate) struct Reported {
    pub(crate) core: Core,
    sessions: u64,
}

/// The identifier of a key: digits after a letter that tells how many they are, so that identifiers stand in the order of keys.
fn id_of(alloc: Global, key: u64) -> Result<String, AllocError> {
    match key {
        0..=99 => format!(in alloc; "f{key:02}"),
        100..=999 => format!(in alloc; "g{key}"),
        1_000..=9_999 => format!(in alloc; "h{key}"),
        _ => format!(in alloc; "i{key:020}"),
    }
}

/// The fact of a weight.
fn fact_of(alloc: Global, weight: u64) -> Result<String, AllocError> {
    format!(in alloc; "{{\"dimensions\":{{\"concept\":\"ex:Name\"}},\"value\":\"{weight}\"}}")
}

/// The load of the report of items.
fn load_of(alloc: Global, items: &[Item]) -> Result<String, AllocError> {
    let mut text = String::from_str(alloc, FRONT)?;
    for (item, place) in items.iter().zip(0usize..) {
        push_comma(&mut text, place > 0)?;
        let (id, fact) = (id_of(alloc, item.key)?, fact_of(alloc, item.weight)?);
        write!(text, "\"{id}\":{fact}")?;
    }
    text.push_str(END)?;
    Ok(text)
}

impl Reported {
    /// Takes a step, as histories write it.
    fn take(&mut self, alloc: Global, step: &str) -> Result<()> {
        let step = line_step(alloc, step)?;
        drop(self.core.step(alloc, Some(self.sessions), step)?);
        Ok(())
    }

    /// Puts what a change puts, or removes it.
    fn edit(&mut self, alloc: Global, change: &Edit<Item>) -> Result<()> {
        let id = id_of(alloc, change.entry().key)?;
        let removal = format!(in alloc; "[\"remove\",\"r1\",\"{id}\"]")?;
        self.take(alloc, &removal)?;
        if let Edit::Put(item) = change {
            let fact = fact_of(alloc, item.weight)?;
            let addition = format!(in alloc; "[\"add\",\"r1\",\"{id}\",{fact}]")?;
            self.take(alloc, &addition)?;
        }
        Ok(())
    }

    /// The report of items.
    pub(crate) fn of_items(alloc: Global, items: &[Item]) -> Result<Reported> {
        let load = load_of(alloc, items)?;
        let core = Core::new(alloc)?;
        let mut reported = Reported { core, sessions: 0 };
        match reported.take(alloc, &load) {
            Ok(()) => Ok(reported),
            Err(error) => {
                drop(reported);
                Err(error)
            }
        }
    }

    /// Makes changes at once.
    pub(crate) fn change(&mut self, alloc: Global, changes: &[Edit<Item>]) -> Result<()> {
        self.take(alloc, r#"["open","amend"]"#)?;
        self.sessions = self.sessions.saturating_add(1);
        for change in changes {
            self.edit(alloc, change)?;
        }
        self.take(alloc, r#"["commit"]"#)
    }

    /// Whether the facts of the report are these, and no others.
    pub(crate) fn is_of(&self, alloc: Global, items: &[Item]) -> Result<bool, AllocError> {
        let Some(mut entries) = self.core.current().entries(NAME) else {
            return Ok(false);
        };
        for item in items {
            let (id, weight) = (id_of(alloc, item.key)?, item.weight.to_string(alloc)?);
            match entries.next() {
                Some((other, fact)) if other == id.as_str() => match &fact.value {
                    FactValue::Text(text) if *text == weight => (),
                    _ => return Ok(false),
                },
                _ => return Ok(false),
            }
        }
        Ok(entries.next().is_none())
    }
}
