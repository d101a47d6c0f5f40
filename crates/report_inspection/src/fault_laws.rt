//! All faults of a report, compared with a reading, which stops at the first.

ghost use Rattle.report_inspection.specs.FaultLaws.{FactsHaveFaultsWhereRefused, FirstFaultIsTheReadings};

/// The first fault that is reported is the one that a reading reports.
/// Where there is none, the text is read as a report, whose facts and declared value are those that are reported.
pub fn first_fault_is_the_readings()
    ensures { FirstFaultIsTheReadings }
{}

/// A fact has a fault exactly where it alone is refused.
pub fn facts_have_faults_where_refused()
    ensures { FactsHaveFaultsWhereRefused }
{}
