//! Who learns how far the desks are, and is given the core that they leave.

use std::mem::drop;

/// Who looks on while desks take steps, and is given the core that they leave. No reply depends on it.
pub trait Watch: Sync {
    /// Called once for each step that a desk has taken, in that desk's thread.
    fn step_taken(&self);

    /// Called with the core, which nobody reads any more, once all steps are taken.
    /// Here its memory is freed; where the process ends soon, `std::mem::forget` leaves that to the system.
    fn free_core<T: Drop>(&self, remains: T) {
        drop(remains);
    }
}

/// Nobody. The memory of what is left is freed.
pub struct Unwatched;

impl Watch for Unwatched {
    fn step_taken(&self) {}
}
