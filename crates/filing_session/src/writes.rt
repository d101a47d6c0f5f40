//! The calls that stage: additions, removals and declared values.
ghost use Rattle.std.specs.Prelude.{◌≡◌, Some, None, option_map, string_bytes, IfOk};
ghost use Rattle.std.specs.Arc.{arc_value};
ghost use Rattle.filing_model.specs.Sessions.Calls as call;
ghost use Rattle.filing_model.specs.Sessions.Repository.{report_at, fact_in};
ghost use Rattle.filing_session.specs.Effects.{effect_in, put_effect};

use crate::ready::Ready;
use crate::staging::Staging;
use filing_step::{Reply, Thing};
use filing_version::{Got, KeyCache, PutRecord};
use oim_fact::{Allowed, Fact, RawFact, fit};
use std::alloc::{AllocError, Global};
use std::sync::Arc;

/// A put of a session. The first shares nothing with later ones, so that a session of one put keeps no cache.
fn record_of(
    alloc: Global,
    staging: &Staging,
    key_cache: &mut Option<Box<KeyCache>>,
    id: String,
    fact: Option<Arc<Fact>>,
) -> Result<PutRecord, AllocError>
    ensures { IfOk result (λ p. p ≡ (string_bytes id, option_map arc_value fact)) }
{
    if staging.change().is_empty() {
        return PutRecord::of(alloc, id, fact);
    }
    if let Some(key_cache) = key_cache {
        return PutRecord::of_shared_keys(alloc, key_cache, id, fact);
    }
    let mut first = Box::new(alloc, KeyCache::new(alloc))?;
    let record = PutRecord::of_shared_keys(alloc, &mut first, id, fact)?;
    *key_cache = Some(first);
    Ok(record)
}

/// A fact is put, or removed, at an identifier, which is read.
fn put(
    alloc: Global,
    staging: &Staging,
    key_cache: &mut Option<Box<KeyCache>>,
    report: String,
    id: String,
    fact: Option<Arc<Fact>>,
) -> Result<Ready, AllocError>
    ensures { IfOk result (λ r. r ≡ put_effect (string_bytes report) (string_bytes id) (option_map arc_value fact)
        staging.now.0 staging.now.1) }
{
    let record = record_of(alloc, staging, key_cache, id.clone()?, fact)?;
    let staged = staging.with_fact(&report, record)?;
    Ok(Ready {
        reply: Reply::Staged,
        thing: Some(Thing::Id(report, id)),
        staged: Some(staged),
    })
}

/// Adds at an identifier that is not there.
fn add_new(
    alloc: Global,
    staging: &Staging,
    key_cache: &mut Option<Box<KeyCache>>,
    report: String,
    id: String,
    raw: RawFact,
) -> Result<Ready, AllocError>
    requires { Some None ≡ option_map (λ r. fact_in r (string_bytes id))
        (report_at staging.now.0 (string_bytes report)) }
    ensures { IfOk result (λ r. r ≡ effect_in (call.Add (string_bytes report) (string_bytes id) raw)
        staging.now.0 staging.now.1 (report_at staging.now.0 (string_bytes report))) }
{
    let Some(names) = staging.names(&report) else {
        return Ok(Ready::no_report(report));
    };
    match fit(names, raw) {
        Err(fault) => Ok(Ready::read(Reply::BadFact(fault), Thing::Id(report, id))),
        Ok(fact) => {
            let fact = Arc::new(alloc, fact)?;
            put(alloc, staging, key_cache, report, id, Some(fact))
        }
    }
}

pub(crate) fn add(
    alloc: Global,
    staging: &Staging,
    key_cache: &mut Option<Box<KeyCache>>,
    report: String,
    id: String,
    raw: RawFact,
) -> Result<Ready, AllocError>
    ensures { IfOk result (λ r. r ≡ effect_in (call.Add (string_bytes report) (string_bytes id) raw)
        staging.now.0 staging.now.1 (report_at staging.now.0 (string_bytes report))) }
{
    match staging.get(&report, &id) {
        Got::NoReport => Ok(Ready::no_report(report)),
        Got::Absent => add_new(alloc, staging, key_cache, report, id, raw),
        Got::Found(_) => Ok(Ready::read(Reply::Taken, Thing::Id(report, id))),
    }
}

pub(crate) fn remove(
    alloc: Global,
    staging: &Staging,
    key_cache: &mut Option<Box<KeyCache>>,
    report: String,
    id: String,
) -> Result<Ready, AllocError>
    ensures { IfOk result (λ r. r ≡ effect_in (call.Remove (string_bytes report) (string_bytes id))
        staging.now.0 staging.now.1 (report_at staging.now.0 (string_bytes report))) }
{
    match staging.get(&report, &id) {
        Got::NoReport => Ok(Ready::no_report(report)),
        Got::Absent => Ok(Ready::read(Reply::Absent, Thing::Id(report, id))),
        Got::Found(_) => put(alloc, staging, key_cache, report, id, None),
    }
}

/// A value is declared, which reads nothing.
pub(crate) fn declare(
    staging: &Staging,
    report: String,
    allowed: Allowed,
) -> Result<Ready, AllocError>
    ensures { IfOk result (λ r. r ≡ effect_in (call.Declare (string_bytes report) allowed)
        staging.now.0 staging.now.1 (report_at staging.now.0 (string_bytes report))) }
{
    if staging.allowed(&report).is_none() {
        return Ok(Ready::no_report(report));
    }
    let staged = staging.with_declared(&report, allowed)?;
    Ok(Ready {
        reply: Reply::Staged,
        thing: None,
        staged: Some(staged),
    })
}
