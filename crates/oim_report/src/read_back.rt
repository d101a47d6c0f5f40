//! Laws of what is written and then read. Each function carries one, has an empty body and is never called.

ghost use Rattle.oim_report.specs.ReadBack.{ValuesAreReadBack, RawFactsAreReadBack, RawFactsAreReadable, FactsAreReadBack, ReportsAreReadBack};

/// A value with whole numbers alone is read from its compact text.
pub fn values_are_read_back()
    ensures { ValuesAreReadBack }
{}

/// A raw fact that was read is read from its text.
pub fn raw_facts_are_read_back()
    ensures { RawFactsAreReadBack }
{}

/// What is read of a JSON value has a dimension set, whole decimals and compact links.
pub fn raw_facts_are_readable()
    ensures { RawFactsAreReadable }
{}

/// A fitted fact is read from its text, and fits again.
pub fn facts_are_read_back()
    ensures { FactsAreReadBack }
{}

/// A report with fitted facts is read from its text, with the numeric table of its names, as the same report.
pub fn reports_are_read_back()
    ensures { ReportsAreReadBack }
{}
