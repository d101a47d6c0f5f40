//! What `documentInfo` declares.
ghost use Rattle.std.specs.Prelude.{◌≡◌, codes, Option, option_map, string_bytes, IfOk, option_and_then};
ghost use Rattle.std.specs.Arc.{arc_value};
ghost use Rattle.serde_json.specs.Find.{get, get_member};
ghost use Rattle.serde_json.specs.View.{view, members_view};
ghost use Rattle.filing_model.specs.Common.Try.{Gives, each};
ghost use Rattle.filing_model.specs.Reading.JsonText.{pairs, IsWritable};
ghost use Rattle.filing_model.specs.Reading.ReadReport.{allowed_word, allowed_of_word, allowed_of_features, prefix_of, whole_text_of};
ghost use Rattle.oim_fact.specs.Texts.{row_of, rows_view};
ghost use Rattle.oim_report.specs.Faults.{report_fault};
ghost use Rattle.oim_report.specs.Readings.{bound_of, document_info_at, has_document_type, declared_names, same};
ghost use Rattle.serde_json.specs.Read.{read};
ghost use Rattle.filing_model.specs.Reading.DeclaredValue.{whole_members, features_in, declaring, with_allowed};

use crate::fault::ReportFault;
use crate::values::{MAX_DEPTH, is_whole, members_of, nests_within, whole_text};
use filing_model::{Allowed, is_same_text};
use oim_fact::{Names, NumericTable};
use serde_json::{Map, Value, put};
use std::alloc::{AllocError, Global};
use std::sync::Arc;

/// The document type of a report (xBRL-JSON 1.0), as `document_type` has it.
const DOCUMENT_TYPE: &str = "https://xbrl.org/2021/xbrl-json";

/// Whether `documentInfo` has the document type of a report.
pub fn has_document_type(info: &Value) -> bool
    ensures { result ≡ has_document_type (view info.now) }
{
    let Some(value) = info.get("documentType") else {
        return false;
    };
    match value.as_str() {
        Some(found) => is_same_text(found, DOCUMENT_TYPE),
        None => false,
    }
}

/// The member `documentInfo`, an object of the right document type.
pub(crate) fn document_info(value: Option<Value>) -> Result<Value, ReportFault>
    ensures { Gives report_fault view result (document_info_at (option_map view value)) }
{
    let Some(info) = value else {
        return Err(ReportFault::WrongShape);
    };
    if !info.is_object() {
        return Err(ReportFault::WrongShape);
    }
    if !has_document_type(&info) {
        return Err(ReportFault::WrongDocumentType);
    }
    Ok(info)
}

/// The word that declares allowed duplicates.
pub fn allowed_word(allowed: Allowed) -> &'static str
    ensures { result.now ≡ allowed_word allowed }
{
    match allowed {
        Allowed::Never => "none",
        Allowed::Complete => "complete",
        Allowed::Consistent => "consistent",
        Allowed::All => "all",
    }
}

/// The allowed duplicates that a word declares, or none where it is another word.
pub fn allowed_of_word(word: &str) -> Option<Allowed>
    ensures { result ≡ allowed_of_word word.now }
{
    if is_same_text(word, "none") {
        Some(Allowed::Never)
    } else if is_same_text(word, "complete") {
        Some(Allowed::Complete)
    } else if is_same_text(word, "consistent") {
        Some(Allowed::Consistent)
    } else if is_same_text(word, "all") {
        Some(Allowed::All)
    } else {
        None
    }
}

/// The allowed duplicates that the member `features` of `documentInfo` declares: all, where it declares none.
pub fn allowed_of_info(info: &Value) -> Result<Allowed, ReportFault>
    ensures { Gives report_fault same result
        (allowed_of_features (get (codes "features") (view info.now))) }
{
    let Some(features) = info.get("features") else {
        return Ok(Allowed::All);
    };
    if !features.is_object() {
        return Err(ReportFault::WrongShape);
    }
    let Some(value) = features.get("xbrl:allowedDuplicates") else {
        return Ok(Allowed::All);
    };
    let Some(word) = value.as_str() else {
        return Err(ReportFault::BadPolicy);
    };
    match allowed_of_word(word) {
        Some(allowed) => Ok(allowed),
        None => Err(ReportFault::BadPolicy),
    }
}

/// A prefix with its URI.
fn prefix(name: &String, value: &Value) -> Result<(String, String), ReportFault>
    ensures { Gives report_fault row_of result (prefix_of (string_bytes name.now, view value.now)) }
{
    match value {
        Value::String(uri) => Ok((name.clone()?, uri.clone()?)),
        _ => Err(ReportFault::WrongShape),
    }
}

/// The prefixes with their URIs that these members are.
fn prefixes_in(
    alloc: Global,
    members: &Map<String, Value>,
) -> Result<Vec<(String, String)>, ReportFault>
    ensures { Gives report_fault (λ v. rows_view v.items) result
        (each prefix_of (pairs (members_view members.now.entries))) }
{
    let mut prefixes = Vec::with_capacity(alloc, members.len())?;
    for (name, value) in members {
        prefixes.push(prefix(name, value)?)?;
    }
    Ok(prefixes)
}

/// The prefixes with their URIs that the member `namespaces` binds.
fn bound_prefixes(alloc: Global, info: &Value) -> Result<Vec<(String, String)>, ReportFault>
    ensures { Gives report_fault (λ v. rows_view v.items) result
        (bound_of (get (codes "namespaces") (view info.now))) }
{
    let Some(namespaces) = info.get("namespaces") else {
        return Ok(Vec::new(alloc));
    };
    match namespaces.as_object() {
        Some(members) => prefixes_in(alloc, members),
        None => Err(ReportFault::WrongShape),
    }
}

/// The names that `documentInfo` declares, by this numeric table.
pub fn names_of_info(
    alloc: Global,
    info: &Value,
    table: &Arc<NumericTable>,
) -> Result<Names, ReportFault>
    ensures { Gives report_fault same result (declared_names (arc_value table.now) (view info.now)) }
{
    let prefixes = bound_prefixes(alloc, info)?;
    match Names::of(prefixes, table.clone()?) {
        Ok(names) => Ok(names),
        Err(_) => Err(ReportFault::AliasTwice),
    }
}

/// The compact text of `documentInfo`, where each number in it is whole. A value that was not read of a text may nest deeper than one can.
pub(crate) fn info_text(alloc: Global, info: &Value) -> Result<String, ReportFault>
    ensures text { Gives report_fault string_bytes result (whole_text_of (view info.now)) }
    ensures writable { IfOk result (λ _. IsWritable (view info.now)) }
{
    if !nests_within(info, MAX_DEPTH) {
        return Err(ReportFault::NotJson);
    }
    match whole_text(alloc, info)? {
        Some(text) => Ok(text),
        None => Err(ReportFault::NotWhole),
    }
}

/// The value of a text, where it is a JSON text.
fn value_of(alloc: Global, text: &str) -> Result<Option<Value>, AllocError>
    ensures { IfOk result (λ o. option_map view o ≡ read text.now) }
{
    match Value::from_str(alloc, text) {
        Ok(value) => Ok(Some(value)),
        Err(fault) => {
            if fault.is_memory() {
                Err(AllocError)
            } else {
                Ok(None)
            }
        }
    }
}

/// The members of a text that is an object with whole numbers alone.
fn whole_members(alloc: Global, text: &str) -> Result<Option<Map<String, Value>>, AllocError>
    ensures { IfOk result (λ o. option_map (λ m. members_view m.entries) o
        ≡ option_and_then whole_members (read text.now)) }
{
    match value_of(alloc, text)? {
        Some(value) if is_whole(&value) => Ok(members_of(value)),
        _ => Ok(None),
    }
}

/// The member of this name.
fn member<'a>(members: &'a Map<String, Value>, name: &str) -> Option<&'a Value>
    ensures { option_map (λ v. view v.now) result
        ≡ get_member name.now (members_view members.now.entries) }
{
    members.get(name)
}

/// A copy of the features among these members; none where there are none.
fn features(alloc: Global, members: &Map<String, Value>) -> Result<Map<String, Value>, AllocError>
    ensures { IfOk result (λ m. members_view m.entries
        ≡ features_in (members_view members.now.entries)) }
{
    let Some(features) = member(members, "features") else {
        return Ok(Map::new(alloc));
    };
    match members_of(features.clone()?) {
        Some(features) => Ok(features),
        None => Ok(Map::new(alloc)),
    }
}

/// The members of `documentInfo` with this declared value.
fn info_declaring(
    alloc: Global,
    members: Map<String, Value>,
    allowed: Allowed,
) -> Result<Map<String, Value>, AllocError>
    ensures { IfOk result (λ m. members_view m.entries
        ≡ declaring (members_view members.entries) allowed) }
{
    let word = String::from_str(alloc, allowed_word(allowed))?;
    let mut features = features(alloc, &members)?;
    put(
        &mut features,
        alloc,
        "xbrl:allowedDuplicates",
        Value::String(word),
    )?;
    let mut members = members;
    put(&mut members, alloc, "features", Value::Object(features))?;
    Ok(members)
}

/// The info with this declared value, whatever it declared before.
/// Its feature `xbrl:allowedDuplicates` (Open Information Model 1.0) has the value's word.
/// The other features and the other members stay, all in byte order of their names.
/// A text that is no object with whole numbers alone is no report's info, and stays as it is.
pub fn with_allowed(alloc: Global, info: &str, allowed: Allowed) -> Result<String, AllocError>
    ensures { IfOk result (λ text. string_bytes text ≡ with_allowed info.now allowed) }
{
    match whole_members(alloc, info)? {
        Some(members) => Value::Object(info_declaring(alloc, members, allowed)?).to_string(alloc),
        None => String::from_str(alloc, info),
    }
}
