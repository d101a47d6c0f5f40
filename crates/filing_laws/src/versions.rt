//! Of the versions that a history makes.

ghost use Rattle.filing_laws.specs.Updating.Versions.{EachVersionObeys, VersionsAreAChain};

/// Each version of a lawful history obeys its declared allowed duplicates.
pub fn each_version_obeys()
    ensures { EachVersionObeys }
{}

/// The versions of a lawful history are a chain: each counts one more, with the same reports or one more, and each report keeps its names.
pub fn versions_are_a_chain()
    ensures { VersionsAreAChain }
{}
