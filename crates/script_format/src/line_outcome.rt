//! `LineOutcome`: what a line comes to before its step is taken. `classify_line` says it of each line.
ghost use Rattle.std.specs.Prelude.{◌≡◌, IfOk, IfSome, IsSome, Ok, Some, string_bytes, IsTrue, option_map};
ghost use Rattle.std.specs.Arc.{arc_value};
ghost use Rattle.std.specs.Bool.{OnFalse};
ghost use Rattle.json.specs.Word.{is_space};
ghost use Rattle.serde_json.specs.View.{view};
ghost use Rattle.filing_step.specs.Steps.{step_of};
ghost use Rattle.filing_model.specs.Reading.JsonText.{json_of};
ghost use Rattle.oim_report.specs.Borrowed.{IsInRange, data_of};
ghost use Rattle.script_format.specs.LineView.{asking_view, line_view};
ghost use Rattle.script_format.specs.AskedStep.{asking_in};
ghost use Rattle.script_format.specs.ScriptLines.{Asking as Asked};
ghost use Rattle.script_format.specs.ReplyText.{bad_line_text};
ghost use Rattle.script_format.specs.Script.{ReplyNow, State, call_read, value_outcome, asking_outcome, export_outcome, line_outcome, load_outcome, report_in};
ghost use Rattle.script_format.specs.LineOutcomes.{ComesTo, ComesToBy, IsLineOutcome, outcome_under};
ghost use Rattle.json.specs.Find.{at};
ghost use Rattle.json.specs.Value.{value_view};
ghost use Rattle.filing_model.specs.Common.Try.{Gives};
ghost use Rattle.oim_report.specs.Faults.{report_fault};
ghost use Rattle.script_format.specs.Loads.{IsLoaded, is_report, load_parts};

use crate::asked_step::{plain_step, step_from};
use crate::json_array::{JsonArray, TextArray};
use crate::line::{Asking, Line, line_of, taken_at};
use crate::line_value::json_value_in;
use crate::texts::{bad_line_reply, bad_report_reply};
use filing_model::is_same_text;
use filing_step::Step;
use json::Scratch;
use oim_fact::NumericTable;
use oim_report::{Report, ReportFault, read_report, report_from, report_in_text, text_value};
use serde_json::Value;
use std::alloc::{AllocError, Global};
use std::sync::Arc;

/// What a line comes to before its step is taken. Whether the name of a session is in use is not looked at yet.
#[derive(Drop)]
pub enum LineOutcome {
    /// It takes no step, and this is its reply.
    ReplyNow(String),
    /// It takes no step; the report of this name is to be written as the current version has it.
    Export(String),
    /// It takes this step under the name of a session. A load has no session, and its name is not looked at.
    StepDue { name: String, step: Step },
}

impl LineOutcome {
    fn reply_now(alloc: Global, reply: &str) -> Result<LineOutcome, AllocError>
        ensures { IfOk result (ComesTo (λ state. ReplyNow reply.now)) }
    {
        Ok(LineOutcome::ReplyNow(String::from_str(alloc, reply)?))
    }

    fn export(alloc: Global, report: &str) -> Result<LineOutcome, AllocError>
        ensures { IfOk result (ComesTo (λ state. export_outcome state report.now)) }
    {
        Ok(LineOutcome::Export(String::from_str(alloc, report)?))
    }

    fn step_due(alloc: Global, session: &str, step: Step) -> Result<LineOutcome, AllocError>
        ensures { IfOk result (ComesTo (λ state. outcome_under state session.now (step_of step))) }
    {
        let name = String::from_str(alloc, session)?;
        Ok(LineOutcome::StepDue { name, step })
    }
}

/// The step of a load of a report that was read.
fn load_due(alloc: Global, name: String, report: Report) -> Result<LineOutcome, AllocError>
    ensures { IfOk result (ComesTo (λ state. load_outcome state (string_bytes name) (Ok report))) }
{
    let report = Arc::new(alloc, report)?;
    LineOutcome::step_due(alloc, "", Step::Load(name, report))
}

/// Classifies a load: its report is read.
fn load_outcome(
    alloc: Global,
    name: String,
    report: Value,
    table: &Arc<NumericTable>,
) -> Result<LineOutcome, AllocError>
    ensures { IfOk result (ComesToBy (arc_value table.now)
        (λ state. load_outcome state (string_bytes name) (report_in (arc_value table.now) (view report)))) }
{
    match report_in(alloc, report, table) {
        Ok(report) => load_due(alloc, name, report),
        Err(fault) => Ok(LineOutcome::ReplyNow(bad_report_reply(alloc, &fault)?)),
    }
}

/// Classifies what a value asks of a session: its fact or its dimensions move out of it, and are read.
fn asking_outcome(alloc: Global, session: String, value: Value) -> Result<LineOutcome, AllocError>
    requires { IsSome (asking_in 2 (view value)) }
    ensures { (asking : Asked) → asking_in 2 (view value) ≡ Some asking
        → IfOk result (ComesTo (λ state. asking_outcome state (string_bytes session) (call_read asking))) }
{
    match step_from(alloc, value, 2)? {
        Some(Ok(step)) => Ok(LineOutcome::StepDue {
            name: session,
            step,
        }),
        Some(Err(text)) => Ok(LineOutcome::ReplyNow(text)),
        None => unreachable!(),
    }
}

/// Classifies a line that is JSON. The report of a load, a fact and dimensions move out of it.
#[tactic(auto, using(crate::proofs::ReportOfLoad::loaded_part))]
fn value_outcome(
    alloc: Global,
    value: Value,
    table: &Arc<NumericTable>,
) -> Result<LineOutcome, AllocError>
    ensures { IfOk result (ComesToBy (arc_value table.now) (λ state. value_outcome state (Some (view value)))) }
{
    let mut value = value;
    let Some(line) = line_of(&value) else {
        return LineOutcome::reply_now(alloc, bad_line_reply());
    };
    match line {
        Line::Load { name, .. } => {
            let name = String::from_str(alloc, name)?;
            load_outcome(alloc, name, taken_at(&mut value, 2), table)
        }
        Line::Open { session, kind } => LineOutcome::step_due(alloc, session, Step::Open(kind)),
        Line::Ask { session, .. } => {
            let session = String::from_str(alloc, session)?;
            asking_outcome(alloc, session, value)
        }
        Line::Commit { session } => LineOutcome::step_due(alloc, session, Step::Commit),
        Line::Close { session } => LineOutcome::step_due(alloc, session, Step::Close),
        Line::Export { name } => LineOutcome::export(alloc, name),
    }
}

/// The outcome of a line that asks something of a session; none where a part of it is an object.
fn asking_due<V: JsonArray>(
    alloc: Global,
    session: &str,
    asking: &Asking<'_, V::Part>,
) -> Result<Option<LineOutcome>, AllocError>
    ensures { IfOk result (λ o. IfSome o (ComesTo (λ state.
        asking_outcome state session.now (call_read (asking_view V.part_seen asking.now))))) }
{
    let Some(step) = plain_step::<V>(alloc, asking)? else {
        return Ok(None);
    };
    let outcome = LineOutcome::step_due(alloc, session, step)?;
    Ok(Some(outcome))
}

/// The outcome of a line of which nothing is left to read. None of a load and of an export, and where a part is an object.
fn line_due<V: JsonArray>(
    alloc: Global,
    line: &Line<'_, V::Part>,
) -> Result<Option<LineOutcome>, AllocError>
    ensures { IfOk result (λ o. IfSome o
        (ComesTo (λ state. line_outcome state (line_view V.part_seen line.now)))) }
{
    match line {
        Line::Open { session, kind } => Ok(Some(LineOutcome::step_due(
            alloc,
            session,
            Step::Open(*kind),
        )?)),
        Line::Ask { session, asking } => asking_due::<V>(alloc, session, asking),
        Line::Commit { session } => Ok(Some(LineOutcome::step_due(alloc, session, Step::Commit)?)),
        Line::Close { session } => Ok(Some(LineOutcome::step_due(alloc, session, Step::Close)?)),
        Line::Load { .. } | Line::Export { .. } => Ok(None),
    }
}

/// The outcome of a value without objects, where it is a line.
fn read_due(alloc: Global, value: json::Value<'_>) -> Result<Option<LineOutcome>, AllocError>
    requires { IsInRange value }
    ensures { IfOk result (λ o. IfSome o (ComesTo (λ state. value_outcome state (Some (data_of value.entry))))) }
{
    let array = TextArray::of(value);
    match line_of(&array) {
        Some(line) => line_due::<TextArray<'_>>(alloc, &line),
        None => Ok(None),
    }
}

/// Whether a line begins as those mostly do in which no part is an object.
fn begins_read(line: &[u8]) -> bool {
    line.starts_with(b"[\"get\"")
        || line.starts_with(b"[\"page\"")
        || line.starts_with(b"[\"remove\"")
        || line.starts_with(b"[\"open\"")
        || line.starts_with(b"[\"commit\"")
        || line.starts_with(b"[\"close\"")
}

/// Classifies a line that begins as lines without objects mostly do, also where it is no JSON. None of any other.
fn plain_outcome(
    alloc: Global,
    line: &[u8],
    room: &mut Scratch,
) -> Result<Option<LineOutcome>, AllocError>
    ensures { IfOk result (λ o. IfSome o (ComesTo (λ state. value_outcome state (json_of line.now)))) }
{
    if !begins_read(line) {
        return Ok(None);
    }
    match text_value(alloc, line, room)? {
        Some(value) => read_due(alloc, value),
        None => Ok(Some(LineOutcome::reply_now(alloc, bad_line_reply())?)),
    }
}

/// Whether JSON passes over a byte between its parts.
fn is_space(byte: u8) -> bool
    ensures { result ≡ is_space byte }
{
    byte == b' ' || byte == b'\t' || byte == b'\n' || byte == b'\r'
}

/// Whether a line may be an array. One that begins with neither a bracket nor white space is none, whatever follows.
fn may_be_array(line: &[u8]) -> bool
    ensures { OnFalse result ((state : State) → value_outcome state (json_of line.now) ≡ ReplyNow bad_line_text) }
{
    match line.first() {
        Some(byte) => *byte == b'[' || is_space(*byte),
        None => true,
    }
}

/// Classifies a line by a numeric table, as `classify_line` does, in a buffer that is kept from line to line.
pub fn classify_line_in(
    alloc: Global,
    line: &[u8],
    table: &Arc<NumericTable>,
    room: &mut Scratch,
) -> Result<LineOutcome, AllocError>
    ensures { IfOk result (IsLineOutcome (arc_value table.now) line.now) }
{
    if !may_be_array(line) {
        return LineOutcome::reply_now(alloc, bad_line_reply());
    }
    if let Some(loaded) = load_of_line(alloc, line, table)? {
        let Loaded { name, report } = loaded;
        return match report {
            Ok(report) => load_due(alloc, name, report),
            Err(fault) => Ok(LineOutcome::ReplyNow(bad_report_reply(alloc, &fault)?)),
        };
    }
    if let Some(outcome) = plain_outcome(alloc, line, room)? {
        return Ok(outcome);
    }
    match json_value_in(alloc, line, room)? {
        Some(value) => value_outcome(alloc, value, table),
        None => LineOutcome::reply_now(alloc, bad_line_reply()),
    }
}

/// Classifies a line by a numeric table: what is refused in reading is replied to at once. Out of memory is an error, and no reply.
pub fn classify_line(
    alloc: Global,
    line: &[u8],
    table: &Arc<NumericTable>,
) -> Result<LineOutcome, AllocError>
    ensures { IfOk result (IsLineOutcome (arc_value table.now) line.now) }
{
    let mut room = Scratch::new(alloc);
    classify_line_in(alloc, line, table, &mut room)
}

/// A load whose line was read: the name, and the report or why it is none.
#[derive(Drop)]
pub struct Loaded {
    pub name: String,
    pub report: Result<Report, ReportFault>,
}

/// The report of a load: an object, or the text of one. Its parts move out of the value.
pub(crate) fn report_in(
    alloc: Global,
    value: Value,
    table: &Arc<NumericTable>,
) -> Result<Report, ReportFault>
    ensures { Gives report_fault (λ r. r) result (report_in (arc_value table.now) (view value)) }
{
    match value {
        Value::String(text) => read_report(alloc, text.as_bytes(), table),
        value => report_from(alloc, value, table),
    }
}

/// The report of a load: an object, or the text of one. The texts of the value are those of its line.
fn report_of_text(
    alloc: Global,
    value: json::Value<'_>,
    table: &Arc<NumericTable>,
) -> Result<Report, ReportFault>
    requires { IsInRange value }
    ensures { Gives report_fault (λ r. r) result (report_in (arc_value table.now) (data_of value.entry)) }
{
    match value {
        json::Value::String(text) => read_report(alloc, text.as_bytes(), table),
        value => report_in_text(alloc, value, table),
    }
}

/// Whether a value is an object, or a text.
fn is_report(value: &json::Value<'_>) -> bool
    ensures { result ≡ is_report (value_view value.now) }
{
    matches!(value, json::Value::Object(_) | json::Value::String(_))
}

/// The part at a place of an array, out of it.
fn part_at<'a>(value: json::Value<'a>, place: usize) -> Option<json::Value<'a>>
    ensures { option_map value_view result ≡ at place (value_view value.entry) }
{
    match value {
        json::Value::Array(parts) => {
            let mut parts = parts;
            if place < parts.len() {
                Some(parts.swap_remove(place))
            } else {
                None
            }
        }
        _ => None,
    }
}

/// The name of a load that is in order by its length, its first text and the kinds of its parts.
fn load_name<'a>(value: &json::Value<'a>) -> Option<&'a str>
    ensures { option_map (λ t. t.now) result ≡ option_map (λ p. p.0) (load_parts (value_view value.now)) }
{
    let word = value.at(0)?.as_str()?;
    let name = value.at(1)?.as_str()?;
    let report = value.at(2)?;
    if is_same_text(word, "load") && is_report(report) && value.at(3).is_none() {
        Some(name)
    } else {
        None
    }
}

/// The name and the report of a load, in the value that was read.
fn load_parts<'a>(value: json::Value<'a>) -> Option<(&'a str, json::Value<'a>)>
    ensures { option_map (λ p. (p.0.now, value_view p.1)) result ≡ load_parts (value_view value.entry) }
{
    let name = load_name(&value)?;
    let report = part_at(value, 2)?;
    Some((name, report))
}

/// The load that a line of any beginning is; none where it is no load. What is read of it is given back before the report is handed on.
fn load_of_text(
    alloc: Global,
    line: &[u8],
    table: &Arc<NumericTable>,
) -> Result<Option<Loaded>, AllocError>
    ensures { IfOk result (λ o. IfSome o (IsLoaded (arc_value table.now) line.now)) }
{
    let mut room = Scratch::new(alloc);
    let Some(value) = text_value(alloc, line, &mut room)? else {
        return Ok(None);
    };
    let Some((name, report)) = load_parts(value) else {
        return Ok(None);
    };
    let name = String::from_str(alloc, name)?;
    let report = report_of_text(alloc, report, table);
    Ok(Some(Loaded { name, report }))
}

/// The load that a line is. Of its texts only those that the report keeps are copied. None where the line does not begin as loads mostly do, or is no load.
pub(crate) fn load_of_line(
    alloc: Global,
    line: &[u8],
    table: &Arc<NumericTable>,
) -> Result<Option<Loaded>, AllocError>
    ensures { IfOk result (λ o. IfSome o (IsLoaded (arc_value table.now) line.now)) }
{
    if line.starts_with(b"[\"load\"") {
        load_of_text(alloc, line, table)
    } else {
        Ok(None)
    }
}
