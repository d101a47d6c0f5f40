//! `ReadCounts` and `WriteCounts`: counts of a device's calls, which clauses alone read. They take no memory, and cannot overflow.

ghost use Rattle.std.specs.Prelude.{◌≡◌, ℕ, ◌+◌};
ghost use Rattle.std.specs.Borrow.{ftrue};

use std::marker::{Model, PhantomData};

/// How many calls there were.
#[derive(Drop)]
pub struct Count {
    marker: PhantomData<u8>,
    pub ghost amount: { ℕ },
}

impl Model for Count {
    ghost also_owns = { λ _. ftrue };
}

impl Count {
    /// A count that begins at 0.
    pub(crate) fn new() -> Count
        ensures { result.amount ≡ 0 }
    {
        Count {
            marker: PhantomData,
        }
    }

    /// Counts a call.
    pub(crate) fn add(&mut self)
        ensures { self.new.amount ≡ self.old.amount + 1 }
    {}
}

/// Counts of a source's reads: all, those that met the end, and those that failed.
#[derive(Drop)]
pub(crate) struct ReadCounts {
    pub(crate) reads: Count,
    pub(crate) ends: Count,
    pub(crate) failed: Count,
}

impl ReadCounts {
    /// Counts that begin at 0.
    pub(crate) fn new() -> ReadCounts
        ensures reads { result.reads.amount ≡ 0 }
        ensures ends { result.ends.amount ≡ 0 }
        ensures failed { result.failed.amount ≡ 0 }
    {
        ReadCounts {
            reads: Count::new(),
            ends: Count::new(),
            failed: Count::new(),
        }
    }

    pub(crate) fn count_read(&mut self)
        ensures reads { self.new.reads.amount ≡ self.old.reads.amount + 1 }
        ensures ends { self.new.ends.amount ≡ self.old.ends.amount }
        ensures failed { self.new.failed.amount ≡ self.old.failed.amount }
    {
        self.reads.add();
    }

    pub(crate) fn count_end(&mut self)
        ensures reads { self.new.reads.amount ≡ self.old.reads.amount }
        ensures ends { self.new.ends.amount ≡ self.old.ends.amount + 1 }
        ensures failed { self.new.failed.amount ≡ self.old.failed.amount }
    {
        self.ends.add();
    }

    pub(crate) fn count_failed(&mut self)
        ensures reads { self.new.reads.amount ≡ self.old.reads.amount }
        ensures ends { self.new.ends.amount ≡ self.old.ends.amount }
        ensures failed { self.new.failed.amount ≡ self.old.failed.amount + 1 }
    {
        self.failed.add();
    }
}

/// The count of a sink's writes that failed.
#[derive(Drop)]
pub(crate) struct WriteCounts {
    pub(crate) failed: Count,
}

impl WriteCounts {
    /// A count that begins at 0.
    pub(crate) fn new() -> WriteCounts
        ensures { result.failed.amount ≡ 0 }
    {
        WriteCounts {
            failed: Count::new(),
        }
    }

    pub(crate) fn count_failed(&mut self)
        ensures { self.new.failed.amount ≡ self.old.failed.amount + 1 }
    {
        self.failed.add();
    }
}
