//! A gate at which desks wait for one another while each has a session open.

use filing_office::Gate;
use std::sync::atomic::Ordering::SeqCst;
use std::sync::atomic::{AtomicBool, AtomicU64};
use std::thread;

/// So often a desk looks whether the others have come.
const TURNS: usize = 1_000_000;

/// A gate at which each of some desks waits before its second step until the others are there too.
#[derive(Drop)]
pub(crate) struct Meeting {
    pub(crate) desks: u64,
    pub(crate) came: AtomicU64,
    /// Whether one waited for the others in vain.
    pub(crate) missed: AtomicBool,
}

impl Gate for Meeting {
    fn before(&self, _desk: usize, step: usize) {
        if step != 1 {
            return;
        }
        self.came.fetch_add(1, SeqCst);
        for _ in 0..TURNS {
            if self.came.load(SeqCst) >= self.desks {
                return;
            }
            thread::yield_now();
        }
        self.missed.store(true, SeqCst);
    }

    fn after(&self, _desk: usize, _step: usize) {}
}
