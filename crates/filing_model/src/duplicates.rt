/// How two facts stand to one another. A complete pair is consistent too.
#[derive(Clone, Copy, Debug, PartialEq, Eq, Hash)]
pub enum Pair {
    /// Their dimensions differ, so they are no duplicates.
    Apart,
    Complete,
    Consistent,
    Inconsistent,
}

/// What the facts of one cell, the facts of a report with one dimension set, are to one another.
#[derive(Clone, Copy, Debug, PartialEq, Eq, Hash)]
pub enum Class {
    /// No fact.
    Empty,
    /// One fact.
    Single,
    /// Every two are complete duplicates.
    Complete,
    /// Every two are consistent duplicates, and some two are not complete.
    Consistent,
    /// Some two are inconsistent duplicates.
    Inconsistent,
    /// The facts do not share one dimension set, so they are no cell.
    Mixed,
}

/// The value of the feature `xbrl:allowedDuplicates`, by which a report says which duplicates it may hold (Open Information Model 1.0).
#[derive(Clone, Copy, Debug, PartialEq, Eq, Hash)]
pub enum Allowed {
    /// `none`
    Never,
    /// `complete`
    Complete,
    /// `consistent`
    Consistent,
    /// `all`, which holds where a report declares nothing
    All,
}
