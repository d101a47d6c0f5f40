//! Worked rows of lists in pages: the lengths of pages, which no contract says, and the entries of ranges.
//!
//! A line is JSON. `["spaced",FIRST,STEP,COUNT]` builds a list; `["change",["put",FROM,UNTIL],["remove",FROM,UNTIL]]` puts and
//! removes the keys of such ranges at once, which have to rise; `["sizes"]` asks for the lengths of its pages. Of a list that is
//! no report's `["range",FROM,UNTIL]` asks for the first key of a range, how many entries it has, how many of them do not rise
//! from the first by one, and the greatest.

use crate::lines::is_end;
use crate::pages::item::Item;
use crate::pages::lists::{Kind, List, spaced_items};
use crate::question::{number_at, parts, text_at};
use crate::sheet::{Answers, Sheet};
use anyhow::Result;
use oim_report::json_value;
use serde_json::Value;
use sorted_pages::Edit;
use std::alloc::{AllocError, Global};
use std::mem;

/// What answers rows by lists of a kind.
pub(crate) struct Lists {
    pub(crate) kind: Kind,
}

/// Pushes the changes of the keys of a range.
fn push_changes(changes: &mut Vec<Edit<Item>>, edit: &Value) -> Result<(), AllocError> {
    let is_put = text_at(edit, 0) == "put";
    for key in number_at(edit, 1)..number_at(edit, 2) {
        let entry = Item::new(key as u64);
        changes.push(if is_put {
            Edit::Put(entry)
        } else {
            Edit::Remove(entry)
        })?;
    }
    Ok(())
}

/// The answer to a line, if it asks.
fn answer_to_line(alloc: Global, kind: Kind, list: &mut List, line: &Value) -> Result<String> {
    let (one, two, three) = (number_at(line, 1), number_at(line, 2), number_at(line, 3));
    match text_at(line, 0) {
        "spaced" => {
            let items = spaced_items(alloc, one as u64, two as u64, three as u64)?;
            drop(mem::replace(list, List::of_items(alloc, kind, items)?));
        }
        "change" => {
            let mut changes = Vec::new(alloc);
            for edit in parts(line) {
                push_changes(&mut changes, edit)?;
            }
            list.change(alloc, &changes)?;
        }
        "sizes" => {
            let sizes = list.sizes(alloc)?;
            return Ok(format!(in alloc; "{sizes:?}\n")?);
        }
        _ => return list.range_answer(alloc, one as u64, two as u64),
    }
    Ok(String::new(alloc))
}

/// The answers to lines in turn.
fn answers_to_lines(alloc: Global, kind: Kind, list: &mut List, lines: &[u8]) -> Result<String> {
    let mut all_told = String::new(alloc);
    for line in lines.split(is_end) {
        if let Some(line) = json_value(alloc, line)? {
            let told = answer_to_line(alloc, kind, list, &line);
            drop(line);
            all_told.push_str(&told?)?;
        }
    }
    Ok(all_told)
}

impl Answers for Lists {
    /// The answers to the lines of a sheet, of a list that is empty at first.
    fn answer_to(&self, alloc: Global, sheet: &Sheet) -> Result<Vec<u8>> {
        let mut list = List::of_items(alloc, self.kind, Vec::new(alloc))?;
        let told = answers_to_lines(alloc, self.kind, &mut list, sheet.script());
        drop(list);
        Ok(told?.into_bytes())
    }
}
