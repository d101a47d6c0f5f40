//! `Warning`: what loads but is probably a mistake.

ghost use Rattle.std.specs.Prelude.{◌≡◌, ◌++◌, ◌∷◌, [], map, OnOk, option_map};
ghost use Rattle.report_inspection.specs.Warnings.{told};

use oim_fact::own_text;
use std::alloc::{AllocError, Global};

/// Why something is warned of.
#[derive(Clone, Copy, Debug, PartialEq, Eq)]
pub enum WarningKind {
    /// A name stands twice in an object, of which a reading keeps the last.
    NameTwice,
    /// A reading passes over a member of the report or of a fact,
    /// or `documentInfo` has a member that xBRL-JSON 1.0 does not define.
    NotRead,
    /// The decimals of a value that is null are dropped.
    DecimalsBesideNull,
    /// A concept has a unit, and the numeric table lacks it.
    NotInTable,
    /// A number has the local name of a numeric concept, at another URI.
    /// No fact has that concept, and the report binds its URI as one of its first hundred.
    OtherNamespace,
}

/// What is warned of.
#[derive(Debug, Drop)]
pub struct Warning {
    pub kind: WarningKind,
    /// The identifier of the fact, where it is of one; of a concept that of the first such fact in byte order.
    pub fact: Option<String>,
    /// The name of the member; of a concept its URI, one space and its local name, as the numeric table has it.
    pub name: String,
}

/// Warns of one more thing.
pub(crate) fn add_warning(
    alloc: Global,
    warnings: &mut Vec<Warning>,
    kind: WarningKind,
    fact: Option<&str>,
    name: &str,
) -> Result<(), AllocError>
    ensures { OnOk result (map told warnings.new.items ≡ map told warnings.old.items
        ++ (kind, (option_map (λ t. t.now) fact.entry, name.now)) ∷ []) }
{
    let fact = own_text(alloc, fact)?;
    let name = String::from_str(alloc, name)?;
    warnings.push(Warning { kind, fact, name })?;
    Ok(())
}
