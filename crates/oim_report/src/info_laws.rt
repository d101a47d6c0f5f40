//! Laws of the info in which a declared value was set. Each function carries one, has an empty body and is never called.

ghost use Rattle.oim_report.specs.SetValues.{EachSetValueIsDeclared, EachSetInfoIsAnInfo, EachSetReportIsReadBack};

/// What is read of the info that is made declares the value that was set, and the same prefixes as before.
pub fn each_set_value_is_declared()
    ensures { EachSetValueIsDeclared }
{}

/// The info that is made is that of a report with the same prefixes and the value that was set.
pub fn each_set_info_is_an_info()
    ensures { EachSetInfoIsAnInfo }
{}

/// Where a report is read back from its text, so is the report with a value set.
pub fn each_set_report_is_read_back()
    ensures { EachSetReportIsReadBack }
{}
