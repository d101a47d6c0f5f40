//! `Answer`: what a desk gets for a step.

use filing_publish::{Naming, Receipt};
use filing_step::Reply;

/// What a desk gets for a step: the session of its entry, the reply, and a receipt where the step made a version.
#[derive(Drop)]
pub struct Answer<J: Naming> {
    pub session: Option<u64>,
    pub reply: Reply,
    pub receipt: Option<Receipt<J>>,
}
