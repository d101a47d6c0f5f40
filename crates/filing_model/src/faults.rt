use thiserror::Error;

/// Why a text is no number, or a number of decimals is refused.
#[derive(Clone, Copy, Debug, PartialEq, Eq, Hash, Error)]
pub enum NumberFault {
    #[error("not a decimal numeral")]
    NotANumber,
    #[error("more than 20 whole digits or more than 15 fraction digits")]
    TooLarge,
    #[error("decimals are from -20 to 15")]
    DecimalsOutOfRange,
}

/// Why a list of names and values is no dimension set.
#[derive(Clone, Copy, Debug, PartialEq, Eq, Hash, Error)]
pub enum DimFault {
    #[error("a dimension is named twice")]
    NameTwice,
    #[error("a core dimension is null")]
    NullCore,
    #[error("the concept is missing")]
    NoConcept,
    #[error("a dimension's name or value has more than 4,096 bytes")]
    TooLong,
    #[error("out of memory")]
    NoMemory,
}

/// Why a list of prefixes and URIs is no report's.
#[derive(Clone, Copy, Debug, PartialEq, Eq, Hash, Error)]
pub enum NamesFault {
    #[error("a prefix is named twice")]
    NameTwice,
    #[error("two prefixes have one URI")]
    AliasTwice,
    #[error("out of memory")]
    NoMemory,
}

/// Why a fact does not fit the names of its report.
#[derive(Clone, Copy, Debug, PartialEq, Eq, Hash, Error)]
pub enum FactFault {
    #[error("the concept or a dimension has no prefix that the report binds")]
    UnboundPrefix,
    #[error("a unit or decimals beside a value that is not numeric")]
    Misplaced,
    #[error("not a decimal numeral")]
    NotANumber,
    #[error("more than 20 whole digits or more than 15 fraction digits")]
    TooLarge,
    #[error("decimals are from -20 to 15")]
    DecimalsOutOfRange,
}

/// Why a JSON value is no fact of a report.
#[derive(Clone, Copy, Debug, PartialEq, Eq, Hash, Error)]
pub enum Trouble {
    #[error("not the shape of a fact")]
    WrongShape,
    #[error("a number that is not whole")]
    NotWhole,
    #[error("{0}")]
    Dims(DimFault),
    #[error("{0}")]
    Fit(FactFault),
    #[error("out of memory")]
    NoMemory,
}

/// Why a text is no numeric table. Lines are counted from 1.
#[derive(Clone, Copy, Debug, PartialEq, Eq, Hash, Error)]
pub enum TableFault {
    #[error("line {0} is not a URI, one space and a local name")]
    BadLine(u64),
    #[error("out of memory")]
    NoMemory,
}
