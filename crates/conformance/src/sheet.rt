//! Sheets of a file NAME.rows: scripts under a title, with the answers to them written beside them.
//!
//! A line that begins with `# ` begins a sheet and is its title. `=> ` stands before a reply, `-> ` before a line of a history,
//! and `= ` before what else is reported; `/` begins a script, which may then have no line, `: ` stands before the
//! text of a numeric table of the sheet's own, as JSON, and `~` marks a sheet. Every other line is one of a script; after `+ ` it
//! has no end. `* [N,TEXT]` is so many times a text in a script, and `=* [N,TEXT]` in the replies.

use crate::lines::{ends_in, is_end, push_line, read_data, same_lines};
use crate::question::{number_at, text_at};
use anyhow::Result;
use oim_report::json_value;
use serde_json::Value;
use std::alloc::{AllocError, Global};
use std::rt::Files;

/// Scripts under a title, with what is written beside them.
#[derive(Drop)]
pub(crate) struct Sheet {
    pub(crate) title: String,
    /// The text of its own numeric table.
    pub(crate) table: Option<Vec<u8>>,
    /// The bytes of each script.
    pub(crate) scripts: Vec<Vec<u8>>,
    /// The replies to the scripts, one after the other.
    pub(crate) replies: Vec<u8>,
    /// The lines of a history.
    pub(crate) history: Vec<u8>,
    /// What else is reported.
    pub(crate) notes: Vec<u8>,
    pub(crate) is_marked: bool,
}

/// Appends so many times a text.
fn push_times(bytes: &mut Vec<u8>, asked: &Value) -> Result<(), AllocError> {
    if let Value::String(text) = asked {
        return bytes.extend_from_slice(text.as_bytes());
    }
    for _ in 0..number_at(asked, 0) {
        bytes.extend_from_slice(text_at(asked, 1).as_bytes())?;
    }
    Ok(())
}

/// Appends a text that is JSON, or of which JSON says how many times it comes.
fn push_json(alloc: Global, bytes: &mut Vec<u8>, line: &[u8]) -> Result<(), AllocError> {
    let asked = json_value(alloc, line)?.unwrap_or(Value::Null);
    let pushed = push_times(bytes, &asked);
    drop(asked);
    pushed
}

impl Sheet {
    /// The sheet of this title, which has no line yet.
    pub(crate) fn new(alloc: Global, title: &[u8]) -> Result<Sheet, AllocError> {
        Ok(Sheet {
            title: String::from_utf8_lossy(alloc, title)?,
            table: None,
            scripts: Vec::new(alloc),
            replies: Vec::new(alloc),
            history: Vec::new(alloc),
            notes: Vec::new(alloc),
            is_marked: false,
        })
    }

    /// Takes a line of the last script.
    fn ask(&mut self, alloc: Global, line: &[u8]) -> Result<(), AllocError> {
        if self.scripts.is_empty() {
            self.scripts.push(Vec::new(alloc))?;
        }
        let Some(script) = self.scripts.last_mut() else {
            return Ok(());
        };
        if let Some(text) = line.strip_prefix(b"+ ") {
            script.extend_from_slice(text)
        } else if let Some(again) = line.strip_prefix(b"* ") {
            push_json(alloc, script, again)
        } else {
            push_line(script, line)
        }
    }

    /// Takes a line that is no title and tells nothing.
    fn take_asked(&mut self, alloc: Global, line: &[u8]) -> Result<(), AllocError> {
        if line == b"/".as_slice() {
            Ok(self.scripts.push(Vec::new(alloc))?)
        } else if line == b"~".as_slice() {
            self.is_marked = true;
            Ok(())
        } else if let Some(text) = line.strip_prefix(b": ") {
            let mut table = Vec::new(alloc);
            push_json(alloc, &mut table, text)?;
            self.table = Some(table);
            Ok(())
        } else {
            self.ask(alloc, line)
        }
    }

    /// Takes a line of the file that is no title.
    fn take(&mut self, alloc: Global, line: &[u8]) -> Result<(), AllocError> {
        if let Some(reply) = line.strip_prefix(b"=> ") {
            push_line(&mut self.replies, reply)
        } else if let Some(entry) = line.strip_prefix(b"-> ") {
            push_line(&mut self.history, entry)
        } else if let Some(note) = line.strip_prefix(b"= ") {
            push_line(&mut self.notes, note)
        } else if let Some(again) = line.strip_prefix(b"=* ") {
            push_json(alloc, &mut self.replies, again)
        } else {
            self.take_asked(alloc, line)
        }
    }

    /// The first script, or no bytes.
    pub(crate) fn script(&self) -> &[u8] {
        match self.scripts.first() {
            Some(script) => script,
            None => b"",
        }
    }

    /// All that is written of the answer to it.
    fn written(&self, alloc: Global) -> Result<Vec<u8>, AllocError> {
        let mut written = Vec::from_slice(alloc, &self.replies)?;
        written.extend_from_slice(&self.history)?;
        written.extend_from_slice(&self.notes)?;
        Ok(written)
    }
}

/// The sheets of the bytes of a file, which end with a line.
fn sheets_in(alloc: Global, file: &[u8]) -> Result<Vec<Sheet>, AllocError> {
    let mut sheets: Vec<Sheet> = Vec::new(alloc);
    for line in file.strip_suffix(b"\n").unwrap_or(file).split(is_end) {
        if let Some(title) = line.strip_prefix(b"# ") {
            sheets.push(Sheet::new(alloc, title)?)?;
        } else if let Some(sheet) = sheets.last_mut() {
            sheet.take(alloc, line)?;
        }
    }
    Ok(sheets)
}

/// What answers sheets.
pub(crate) trait Answers {
    /// The answer to a sheet: replies, then the lines of a history, then what else is reported.
    fn answer_to(&self, alloc: Global, sheet: &Sheet) -> Result<Vec<u8>>;
}

/// The line at a place, as far as it is text.
fn line_at(alloc: Global, lines: &[u8], place: usize) -> Result<String, AllocError> {
    match lines.split(is_end).nth(place) {
        Some(line) if !line.is_empty() => String::from_utf8_lossy(alloc, line),
        _ => String::from_str(alloc, "nothing"),
    }
}

/// Reports where the answer to a sheet differs from what is written.
fn tell_difference<R: Print + AllocGlobal>(
    rt: &R,
    title: &str,
    told: &[u8],
    written: &[u8],
) -> Result<()> {
    let place = same_lines(told, written);
    let number = place.saturating_add(1);
    let line = line_at(rt.alloc(), told, place)?;
    let wanted = line_at(rt.alloc(), written, place)?;
    println!(rt; "  {title}: answer {number} is {line}, expected {wanted}")?;
    Ok(())
}

/// What was seen of the sheets of a file.
#[derive(Clone, Copy)]
pub(crate) struct Seen {
    sheets: u64,
    answers: usize,
    differing: u64,
}

impl Seen {
    const NOTHING: Seen = Seen {
        sheets: 0,
        answers: 0,
        differing: 0,
    };

    /// Compares the answer to a sheet with what is written, and reports where it differs.
    fn compare<R: Print + AllocGlobal>(
        &mut self,
        rt: &R,
        sheet: &Sheet,
        told: &[u8],
    ) -> Result<()> {
        let written = sheet.written(rt.alloc())?;
        self.sheets = self.sheets.saturating_add(1);
        self.answers = self.answers.saturating_add(ends_in(&written));
        if told != written.as_slice() {
            self.differing = self.differing.saturating_add(1);
            tell_difference(rt, &sheet.title, told, &written)?;
        }
        Ok(())
    }

    /// Tells what was seen of the file of this name.
    pub(crate) fn tell<R: Print>(self, rt: &R, name: &str) -> Result<()> {
        let (sheets, answers, differing) = (self.sheets, self.answers, self.differing);
        println!(rt; "{name}: {sheets} sheets, {answers} answers, {differing} differ")?;
        Ok(())
    }
}

/// Compares the answers to sheets with what is written.
pub(crate) fn compare_sheets<A: Answers, R: Print + AllocGlobal>(
    rt: &R,
    by: &A,
    sheets: &[Sheet],
) -> Result<Seen> {
    let mut seen = Seen::NOTHING;
    for sheet in sheets {
        let told = by.answer_to(rt.alloc(), sheet)?;
        seen.compare(rt, sheet, &told)?;
    }
    Ok(seen)
}

/// The sheets of the file NAME.rows.
fn read_sheets<R: Files + AllocGlobal>(rt: &R, name: &str) -> Result<Vec<Sheet>> {
    let file = read_data(rt, name, "rows")?;
    Ok(sheets_in(rt.alloc(), &file)?)
}

/// Compares the answers to the sheets of the file NAME.rows with what is written, and reports what differs.
pub(crate) fn compare_rows<A: Answers, R: Files + Print + AllocGlobal>(
    rt: &R,
    name: &str,
    by: &A,
) -> Result<()> {
    let sheets = read_sheets(rt, name)?;
    let seen = compare_sheets(rt, by, &sheets);
    drop(sheets);
    seen?.tell(rt, name)
}
