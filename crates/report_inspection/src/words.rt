//! The words for faults and warnings.

ghost use Rattle.std.specs.Prelude.{◌≡◌, option_map};
ghost use Rattle.oim_report.specs.Faults.{report_fault};
ghost use Rattle.report_inspection.specs.Lines.{fault_word, kind_word};

use crate::warning::WarningKind;
use oim_report::ReportFault;
use script_format::trouble_word;

/// The word of a fault, where it is one.
pub(crate) fn fault_word(fault: &ReportFault) -> Option<&'static str>
    ensures { option_map (λ word. word.now) result ≡ option_map fault_word (report_fault fault.now) }
{
    match fault {
        ReportFault::NotJson => Some("not-json"),
        ReportFault::WrongShape => Some("wrong-shape"),
        ReportFault::WrongDocumentType => Some("wrong-document-type"),
        ReportFault::BadPolicy => Some("bad-policy"),
        ReportFault::AliasTwice => Some("alias-twice"),
        ReportFault::NotWhole => Some("not-whole"),
        ReportFault::BadFact(_, trouble) => Some(trouble_word(*trouble)),
        ReportFault::NoMemory => None,
    }
}

/// The word of a warning.
pub(crate) fn kind_word(kind: WarningKind) -> &'static str
    ensures { result.now ≡ kind_word kind }
{
    match kind {
        WarningKind::NameTwice => "name-twice",
        WarningKind::NotRead => "not-read",
        WarningKind::DecimalsBesideNull => "decimals-beside-null",
        WarningKind::NotInTable => "not-in-table",
        WarningKind::OtherNamespace => "other-namespace",
    }
}
