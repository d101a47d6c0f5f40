//! `ObjectKind`: the objects of a report whose members are known by their names.

ghost use Rattle.std.specs.Prelude.{◌≡◌, OnOk};
ghost use Rattle.json.specs.Strict.{keys};
ghost use Rattle.json.specs.Value.{members_view};
ghost use Rattle.report_inspection.specs.MemberNames.{Adds, is_kept_in_info, is_read_in_info, is_unknown, knows};

use filing_model::is_same_text;
use std::alloc::AllocError;
use std::collections::BTreeSet;

/// The objects of a report whose members are known.
#[derive(Clone, Copy)]
pub(crate) enum ObjectKind {
    Report,
    DocumentInfo,
    Fact,
}

/// Whether a reading looks at the member of a report under this name.
fn is_read_in_report(name: &str) -> bool
    ensures { result ≡ knows ObjectKind.Report name.now }
{
    is_same_text(name, "documentInfo") || is_same_text(name, "facts")
}

/// Whether a reading looks at the member of `documentInfo` under this name.
fn is_read_in_info(name: &str) -> bool
    ensures { result ≡ is_read_in_info name.now }
{
    is_same_text(name, "documentType")
        || is_same_text(name, "features")
        || is_same_text(name, "namespaces")
}

/// Whether the member of `documentInfo` under this name is one that xBRL-JSON 1.0 defines and a reading keeps as it is.
fn is_kept_in_info(name: &str) -> bool
    ensures { result ≡ is_kept_in_info name.now }
{
    is_same_text(name, "taxonomy")
        || is_same_text(name, "linkTypes")
        || is_same_text(name, "linkGroups")
        || is_same_text(name, "baseURL")
}

/// Whether a reading looks at the member of a fact under this name.
fn is_read_in_fact(name: &str) -> bool
    ensures { result ≡ knows ObjectKind.Fact name.now }
{
    is_same_text(name, "dimensions")
        || is_same_text(name, "value")
        || is_same_text(name, "decimals")
        || is_same_text(name, "links")
}

impl ObjectKind {
    /// Whether such an object has a member of this name.
    fn knows(self, name: &str) -> bool
        ensures { result ≡ knows self name.now }
    {
        match self {
            ObjectKind::Report => is_read_in_report(name),
            ObjectKind::DocumentInfo => is_read_in_info(name) || is_kept_in_info(name),
            ObjectKind::Fact => is_read_in_fact(name),
        }
    }
}

/// Adds the names of the members of such an object that are not known.
pub(crate) fn add_unknown<'a>(
    unknown: &mut BTreeSet<&'a str>,
    kind: ObjectKind,
    members: &Vec<(&'a str, json::Value<'a>)>,
) -> Result<(), AllocError>
    ensures { OnOk result (Adds (is_unknown kind (keys (members_view members.now.items))) unknown.old unknown.new) }
{
    for member in members {
        if !kind.knows(member.0) {
            drop(unknown.insert(member.0)?);
        }
    }
    Ok(())
}
