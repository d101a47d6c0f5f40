//! The keys of the hashes by which sessions find what they have read.

use crate::fault::{Fault, read_fault};
use crate::files::named::Reasons;
use filing_core::HashKeys;

/// Keys that are drawn anew, since whoever wrote a script or a history may have chosen its names by their hashes.
pub(crate) fn drawn_keys(rt: &HostRuntime, reasons: Reasons) -> Result<HashKeys, Fault> {
    match HashKeys::draw(rt) {
        Ok(keys) => Ok(keys),
        Err(error) => {
            reasons.tell("random bytes", &error);
            Err(read_fault(&error))
        }
    }
}
