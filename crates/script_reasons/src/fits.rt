//! What is wrong with a fact by the names of its report. `fit` reports that it does not fit; which name or number it is about is looked up here anew.

use crate::facts::is_core;
use crate::shown::{Shown, ShownValue};
use crate::told::Told;
use filing_model::FactFault;
use oim_fact::Names;
use serde_json::{Map, Value};
use std::alloc::{AllocError, Global};

/// The concept of a fact as it is read.
fn concept_of(fact: &Value) -> &str {
    match fact.get("dimensions") {
        Some(dims) => match dims.get("concept") {
            Some(concept) => concept.as_str().unwrap_or(""),
            None => "",
        },
        None => "",
    }
}

/// What is reported about a name whose prefix is not bound; none where it is.
fn reason_of_unbound(
    alloc: Global,
    names: &Names,
    what: &str,
    name: &str,
) -> Result<Option<String>, AllocError> {
    let shown = Shown(name);
    match name.split_once(':') {
        Some((prefix, local)) if !prefix.is_empty() && !local.is_empty() => {
            if names.uri(prefix).is_some() {
                return Ok(None);
            }
            let prefix = Shown(prefix);
            Ok(Some(format!(in alloc;
                "the prefix {prefix} of the {what} {shown} is not bound in documentInfo.namespaces"
            )?))
        }
        _ => Ok(Some(format!(in alloc; "the {what} {shown} is no prefix:name")?)),
    }
}

/// Tells that a name has a prefix that is not bound, where it has.
fn tell_unbound(
    alloc: Global,
    told: &mut Told,
    names: &Names,
    what: &str,
    name: &str,
) -> Result<(), AllocError> {
    match reason_of_unbound(alloc, names, what, name)? {
        Some(said) => told.tell(said),
        None => Ok(()),
    }
}

/// Tells each dimension whose prefix is not bound.
fn tell_unbound_dims(
    alloc: Global,
    told: &mut Told,
    names: &Names,
    members: &Map<String, Value>,
) -> Result<(), AllocError> {
    for (name, _) in members {
        if !is_core(name) {
            tell_unbound(alloc, told, names, "dimension", name)?;
        }
    }
    Ok(())
}

/// Tells each name of a fact whose prefix is not bound, the concept first.
fn tell_unbound_names(
    alloc: Global,
    told: &mut Told,
    names: &Names,
    fact: &Value,
) -> Result<(), AllocError> {
    tell_unbound(alloc, told, names, "concept", concept_of(fact))?;
    match fact.get("dimensions") {
        Some(Value::Object(members)) => tell_unbound_dims(alloc, told, names, members),
        _ => Ok(()),
    }
}

/// What a fact has that only a numeric one may have.
fn part_out_of_place(fact: &Value) -> &'static str {
    let has_unit = match fact.get("dimensions") {
        Some(dims) => dims.get("unit").is_some(),
        None => false,
    };
    if has_unit { "unit" } else { "decimals" }
}

/// What is reported about a unit or decimals out of place. The line is what the numeric table lacks.
fn reason_of_misplaced(
    alloc: Global,
    fact: &Value,
    line: Option<(&str, &str)>,
) -> Result<String, AllocError> {
    let concept = Shown(concept_of(fact));
    let what = part_out_of_place(fact);
    match line {
        Some((uri, local)) => {
            format!(in alloc;
                "the concept {concept} takes no {what}, since it is not numeric: the numeric table has no line \"{uri} {local}\""
            )
        }
        None => {
            format!(in alloc;
                "the concept {concept} takes no {what}, since it is not numeric: it is not in the numeric table"
            )
        }
    }
}

/// The URI and the local name of a fact's concept.
fn expanded_concept<'a>(names: &'a Names, fact: &'a Value) -> Option<(&'a str, &'a str)> {
    let (prefix, local) = concept_of(fact).split_once(':')?;
    Some((names.uri(prefix)?, local))
}

/// Whether a text has an exponent among what numerals have.
fn has_exponent(text: &str) -> bool {
    let spells = text.bytes().all(|byte| matches!(
        byte,
        b'0'..=b'9' | b'+' | b'-' | b'.' | b'e' | b'E'
    ));
    spells && (text.contains('e') || text.contains('E'))
}

/// Why a text is no number, where a letter or a sign in it shows that.
fn number_hint(text: &str) -> &'static str {
    if has_exponent(text) {
        ": exponents are not taken"
    } else if text.contains(',') {
        ": no comma stands in a number"
    } else {
        ""
    }
}

/// What is reported about the value or the decimals of a numeric fact.
fn number_fault(alloc: Global, fault: FactFault, fact: &Value) -> Result<String, AllocError> {
    let text = match fact.get("value") {
        Some(value) => value.as_str().unwrap_or(""),
        None => "",
    };
    let shown = Shown(text);
    match fault {
        FactFault::TooLarge => {
            format!(in alloc;
                "{shown} has more than 20 digits before the point or more than 15 behind it"
            )
        }
        FactFault::DecimalsOutOfRange => match fact.get("decimals") {
            Some(decimals) => {
                let decimals = ShownValue(decimals);
                format!(in alloc; "\"decimals\" is {decimals}, not within -20 to 15")
            }
            None => String::from_str(alloc, "\"decimals\" is not within -20 to 15"),
        },
        _ => {
            let hint = number_hint(text);
            format!(in alloc; "{shown} is no number here{hint}")
        }
    }
}

/// Tells why a fact does not fit the names of its report.
pub(crate) fn tell_fit_faults(
    alloc: Global,
    told: &mut Told,
    names: &Names,
    fault: FactFault,
    fact: &Value,
) -> Result<(), AllocError> {
    match fault {
        FactFault::UnboundPrefix => tell_unbound_names(alloc, told, names, fact),
        FactFault::Misplaced => {
            let said = reason_of_misplaced(alloc, fact, expanded_concept(names, fact))?;
            told.tell(said)
        }
        fault => told.tell(number_fault(alloc, fault, fact)?),
    }
}

/// What is reported about a fact that does not fit the names of a report that is not at hand.
pub(crate) fn fit_fault_in(
    alloc: Global,
    report: &str,
    fault: FactFault,
    fact: &Value,
) -> Result<String, AllocError> {
    match fault {
        FactFault::UnboundPrefix => {
            let concept = Shown(concept_of(fact));
            let report = Shown(report);
            format!(in alloc;
                "the concept {concept} or another dimension has no prefix that the report {report} binds"
            )
        }
        FactFault::Misplaced => reason_of_misplaced(alloc, fact, None),
        fault => number_fault(alloc, fault, fact),
    }
}
