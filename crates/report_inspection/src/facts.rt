//! Each fact of a report by itself.

ghost use Rattle.std.specs.Prelude.{◌≡◌, codes, length, None, Some, IfOk, IfSome, OnOk, IsTrue, is_some, option_map, unwrap_or};
ghost use Rattle.filing_model.specs.Common.Faults.{fact_trouble};
ghost use Rattle.filing_model.specs.Common.Try.{Fails, Gives};
ghost use Rattle.filing_model.specs.Reading.JsonText.{pairs};
ghost use Rattle.json.specs.Find.{get as get_read};
ghost use Rattle.json.specs.Value.{members_view as read_members, value_view};
ghost use Rattle.serde_json.specs.Data.{no_members};
ghost use Rattle.serde_json.specs.Find.{get};
ghost use Rattle.serde_json.specs.Read.{of_members};
ghost use Rattle.filing_model.specs.Reading.ReadReport.{WrongShape};
ghost use Rattle.serde_json.specs.View.{view};
ghost use Rattle.oim_report.specs.Borrowed.{IsInRange, are_in_range, data_of, members_at, read_object};
ghost use Rattle.oim_report.specs.Readings.{same};
ghost use Rattle.report_inspection.specs.EachFault.{fact_judged, fact_members, member_fact, member_faults, members_of, shape_fault};
ghost use Rattle.report_inspection.specs.Found.{Takes, TakesEach, TakesFacts, places_behind};
ghost use Rattle.report_inspection.specs.Inspections.{AddsFaults, TellsFault};
ghost use Rattle.report_inspection.specs.KeptFacts.{AreKept, kept_of, members_seen};
ghost use Rattle.report_inspection.specs.Warnings.{kept_facts, kept_in};

use crate::fault::{Fault, push_told};
use filing_model::Trouble;
use oim_fact::{Fact, Names, fit};
use oim_report::{ReportFault, copy_of, raw_fact_from};
use script_reasons::{faults_of_fact, faults_of_facts};
use serde_json::Value;
use std::alloc::{AllocError, Global};
use std::collections::BTreeMap;
use std::sync::Arc;

/// The facts that were read, and what is wrong with others.
#[derive(Drop)]
pub(crate) struct Found {
    pub(crate) facts: Vec<(String, Arc<Fact>)>,
    pub(crate) faults: Vec<Fault>,
}

/// A fact by these names; none where no names are known.
fn judge_fact(alloc: Global, names: &Option<Names>, value: Value) -> Result<Option<Fact>, Trouble>
    ensures { Gives fact_trouble same result (fact_judged names.now (view value)) }
{
    let raw = raw_fact_from(alloc, value)?;
    let Some(names) = names else {
        return Ok(None);
    };
    match fit(names, raw) {
        Ok(fact) => Ok(Some(fact)),
        Err(fault) => Err(Trouble::Fit(fault)),
    }
}

/// An owned copy of a value.
fn owned_copy(alloc: Global, value: &json::Value<'_>) -> Result<Value, AllocError>
    requires { IsInRange value.now }
    ensures { IfOk result (λ v. view v ≡ data_of value.now) }
{
    match copy_of(alloc, value)? {
        Some(value) => Ok(value),
        None => unreachable!(),
    }
}

/// Tells what is wrong with the fact under this identifier.
#[tactic(auto, using(crate::proofs::TakenFacts::no_fact))]
fn tell_fact(
    alloc: Global,
    faults: &mut Vec<Fault>,
    names: &Option<Names>,
    id: &str,
    value: &json::Value<'_>,
    trouble: Trouble,
) -> Result<(), AllocError>
    requires range { IsInRange value.now }
    requires refused { Fails (fact_trouble trouble) (fact_judged names.now (data_of value.now)) }
    ensures none { OnOk result (member_fact names.now (id.now, data_of value.now) ≡ None) }
    ensures faults { OnOk result (AddsFaults (member_faults names.now (id.now, data_of value.now))
        faults.old.items faults.new.items) }
{
    if let Trouble::NoMemory = trouble {
        return Err(AllocError);
    }
    let told = faults_of_fact(alloc, names.as_ref(), &owned_copy(alloc, value)?)?;
    let fault = ReportFault::BadFact(String::from_str(alloc, id)?, trouble);
    push_told(alloc, faults, fault, told)
}

impl Found {
    /// Takes the fact under this identifier, or tells what is wrong with it.
    fn take(
        &mut self,
        alloc: Global,
        names: &Option<Names>,
        id: &str,
        value: &json::Value<'_>,
    ) -> Result<(), AllocError>
        requires { IsInRange value.now }
        ensures { OnOk result (Takes names.now (id.now, data_of value.now) self.old self.new) }
    {
        match judge_fact(alloc, names, owned_copy(alloc, value)?) {
            Ok(Some(fact)) => {
                let id = String::from_str(alloc, id)?;
                self.facts.push((id, Arc::new(alloc, fact)?))?;
            }
            Ok(None) => {}
            Err(trouble) => tell_fact(alloc, &mut self.faults, names, id, value, trouble)?,
        }
        Ok(())
    }
}

/// The members in byte order of their names, of which the last of a name stays.
fn sort_members<'a, 'b>(
    alloc: Global,
    members: &'b Vec<(&'a str, json::Value<'a>)>,
) -> Result<BTreeMap<&'a str, &'b json::Value<'a>>, AllocError>
    requires { IsTrue (is_some (of_members (read_members members.now.items) no_members)) }
    ensures members { IfOk result (λ m. of_members (read_members members.now.items) no_members
        ≡ Some (members_at (places_behind m.entries))) }
    ensures range { IfOk result (λ m. IsTrue (are_in_range (places_behind m.entries))) }
    ensures read { IfOk result (λ m. members_seen m.entries ≡ kept_of (read_members members.now.items)) }
{
    let mut places = BTreeMap::new(alloc);
    for member in members {
        drop(places.insert(member.0, &member.1)?);
    }
    Ok(places)
}

/// What stands at this name.
fn part_of<'a, 'b>(value: &'b json::Value<'a>, name: &str) -> Option<&'b json::Value<'a>>
    requires { IsInRange value.now }
    ensures data { option_map (λ v. data_of v.now) result ≡ get name.now (data_of value.now) }
    ensures range { IfSome result (λ v. IsInRange v.now) }
    ensures read { option_map (λ v. value_view v.now) result ≡ get_read name.now (value_view value.now) }
{
    value.get(name)
}

/// The members of an object as they were read.
fn members_in<'a, 'b>(value: &'b json::Value<'a>) -> Option<&'b Vec<(&'a str, json::Value<'a>)>>
    ensures { option_map (λ v. read_members v.now.items) result ≡ read_object (value_view value.now) }
{
    match value {
        json::Value::Object(members) => Some(members),
        _ => None,
    }
}

/// Tells that `facts` is no object.
fn tell_shape(alloc: Global, found: &mut Found, facts: &json::Value<'_>) -> Result<(), AllocError>
    requires { IsInRange facts.now }
    ensures faults { OnOk result (TellsFault (Some WrongShape) found.old.faults.items found.new.faults.items) }
    ensures facts { OnOk result (found.new.facts ≡ found.old.facts) }
{
    let facts = owned_copy(alloc, facts)?;
    let told = faults_of_facts(alloc, &facts)?;
    drop(facts);
    push_told(alloc, &mut found.faults, ReportFault::WrongShape, told)
}

/// The members of an object, as a reading keeps them.
fn kept_in<'a, 'b>(
    alloc: Global,
    facts: &'b json::Value<'a>,
) -> Result<BTreeMap<&'a str, &'b json::Value<'a>>, AllocError>
    requires { IsInRange facts.now }
    ensures { IfOk result (λ m. AreKept (Some (data_of facts.now)) (kept_in (value_view facts.now)) m.entries) }
{
    match members_in(facts) {
        Some(members) => sort_members(alloc, members),
        None => Ok(BTreeMap::new(alloc)),
    }
}

/// The facts that a reading keeps, in byte order of the identifiers.
pub(crate) fn kept_facts<'a, 'b>(
    alloc: Global,
    report: &'b json::Value<'a>,
) -> Result<BTreeMap<&'a str, &'b json::Value<'a>>, AllocError>
    requires { IsInRange report.now }
    ensures { IfOk result (λ m. AreKept (get (codes "facts") (data_of report.now)) (kept_facts (value_view report.now))
        m.entries) }
{
    match part_of(report, "facts") {
        Some(facts) => kept_in(alloc, facts),
        None => Ok(BTreeMap::new(alloc)),
    }
}

/// How many facts are kept.
#[tactic(auto, using(crate::proofs::TakenFacts::count_behind))]
fn count_of(kept: &BTreeMap<&str, &json::Value<'_>>) -> u64
    ensures { result ≡ length (pairs (members_at (places_behind kept.now.entries))) }
{
    kept.len() as u64
}

/// Reports `facts` that is no object.
fn check_shape(alloc: Global, found: &mut Found, report: &json::Value<'_>) -> Result<(), AllocError>
    requires { IsInRange report.now }
    ensures faults { OnOk result (AddsFaults (shape_fault (get (codes "facts") (data_of report.now)))
        found.old.faults.items found.new.faults.items) }
    ensures facts { OnOk result (found.new.facts ≡ found.old.facts) }
{
    let Some(facts) = part_of(report, "facts") else {
        return Ok(());
    };
    if members_in(facts).is_some() {
        return Ok(());
    }
    tell_shape(alloc, found, facts)
}

/// Takes each of these facts.
fn take_members(
    alloc: Global,
    found: &mut Found,
    names: &Option<Names>,
    kept: &BTreeMap<&str, &json::Value<'_>>,
) -> Result<(), AllocError>
    requires { IsTrue (are_in_range (places_behind kept.now.entries)) }
    ensures { OnOk result (TakesEach names.now (pairs (members_at (places_behind kept.now.entries)))
        found.old found.new) }
{
    for (id, value) in kept {
        found.take(alloc, names, id, value)?;
    }
    Ok(())
}

/// Takes each fact of a report, of which these are kept, and counts them; reports `facts` that is no object.
pub(crate) fn take_facts(
    alloc: Global,
    found: &mut Found,
    names: &Option<Names>,
    report: &json::Value<'_>,
    kept: &BTreeMap<&str, &json::Value<'_>>,
) -> Result<u64, AllocError>
    requires range { IsInRange report.now }
    requires kept { AreKept (get (codes "facts") (data_of report.now)) (kept_facts (value_view report.now))
        kept.now.entries }
    ensures count { IfOk result (λ n. n ≡ length (fact_members (data_of report.now))) }
    ensures takes { OnOk result (TakesFacts names.now (get (codes "facts") (data_of report.now)) found.old found.new) }
{
    check_shape(alloc, found, report)?;
    take_members(alloc, found, names, kept)?;
    Ok(count_of(kept))
}
