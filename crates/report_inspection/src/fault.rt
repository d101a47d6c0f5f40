//! `Fault`: a fault of a report with its reasons.

ghost use Rattle.std.specs.Prelude.{◌≡◌, is_some, IfOk, OnOk};
ghost use Rattle.oim_report.specs.Faults.{report_fault};
ghost use Rattle.report_inspection.specs.Inspections.{HasReasons, TellsFault};

use oim_report::ReportFault;
use script_reasons::Told;
use std::alloc::{AllocError, Global};

/// What is wrong with a report, or with one of its facts alone.
#[derive(Debug, Drop)]
pub struct Fault {
    /// What a load reports where it is the first.
    pub fault: ReportFault,
    /// What is wrong, in plain words.
    pub reasons: Vec<String>,
    /// How much more is wrong.
    pub more: u64,
}

/// The fault of these reasons; where there are none, of what it is.
pub(crate) fn with_reasons(
    alloc: Global,
    fault: ReportFault,
    told: Told,
) -> Result<Fault, AllocError>
    ensures same { IfOk result (λ f. f.fault ≡ fault) }
    ensures reasons { IfOk result HasReasons }
{
    let mut told = told;
    if told.said.is_empty() {
        told.tell(format!(in alloc; "{fault}")?)?;
    }
    let Told { said, more } = told;
    Ok(Fault {
        fault,
        reasons: said,
        more,
    })
}

/// Whether it is a fault. Out of memory is none.
fn is_fault(fault: &ReportFault) -> bool
    ensures { result ≡ is_some (report_fault fault.now) }
{
    !matches!(fault, ReportFault::NoMemory)
}

/// Reports one more fault. Out of memory is none.
pub(crate) fn push_told(
    alloc: Global,
    faults: &mut Vec<Fault>,
    fault: ReportFault,
    told: Told,
) -> Result<(), AllocError>
    ensures { OnOk result (TellsFault (report_fault fault) faults.old.items faults.new.items) }
{
    if !is_fault(&fault) {
        return Err(AllocError);
    }
    faults.push(with_reasons(alloc, fault, told)?)?;
    Ok(())
}
