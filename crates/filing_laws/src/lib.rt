//! The laws of the plain repository and its histories: what follows from the definitions alone.
//!
//! - `next_reply`: after a lawful history each step that may be taken has one reply that keeps it lawful.
//! - `untouched`: a session whose reads nobody touched got the replies that it gets alone, at its opening and now.
//! - `obeying`: a report obeys its allowed duplicates exactly where it has no disallowed cell.
//! - `numbers`: the numbers of loads and commits rise by one, and tell what was touched since an opening.
//! - `marks`: the stamps of ranges are the greatest of the marks that commits leave in them.
//! - `played`: lawful histories are those that steps make, each with its one next reply.
//! - `versions`: each version of a lawful history obeys, and the versions are a chain.
//! - `whole_runs`: a committed session ran whole at its commit, every other replied as at its opening, and nothing else changed the repository.
//! - `net_change`: the net change of an untouched amendment makes its copy, and its new facts and declared values alone decide whether it is refused.
//! - `stamped_versions`: the stamps that a version carries are the numbers of last touches, whatever entries made it, and tell each conflict.
//! - `updates`: the repository is the empty one with each accepted load and each committed net change laid over it.
//! - `reading_order`: a history may be read from its first entry on, and the entry at which it departs is determined.
//!
//! Each public function has no parameters and an empty body, and carries one law as its contract.
//! The lemmas in `proofs/` are what the proofs of other crates cite.
//!
//! It knows nothing of code: nothing here is stored, shared, locked or read.
#![tactic(auto)]

mod marks;
mod net_change;
mod next_reply;
mod numbers;
mod obeying;
mod played;
mod reading_order;
mod stamped_versions;
mod untouched;
mod updates;
mod versions;
mod whole_runs;

pub use marks::{
    each_mark_is_the_greatest, each_range_has_the_greatest_of_its_marks,
    ranges_are_touched_by_marks,
};
pub use net_change::{
    each_change_is_decided_by_its_new_facts, each_commit_lays_its_net_change,
    each_disallowed_cell_holds_a_new_fact, each_net_change_makes_the_copy,
};
pub use next_reply::{each_entry_follows_lawfully, each_step_has_one_reply};
pub use numbers::{
    each_number_is_the_count, each_touch_is_the_greatest, numbers_rise_by_one,
    numbers_tell_what_is_later, stamps_tell_the_last_touch,
};
pub use obeying::{
    least_disallowed_is_the_least, obeys_where_each_cell_is_allowed,
    repository_obeys_where_not_refused,
};
pub use played::played_histories_are_the_lawful_ones;
pub use reading_order::{
    each_departure_is_determined, each_next_entry_is_decided, each_repository_is_read_in_order,
    lawful_in_order_is_lawful,
};
pub use stamped_versions::{
    each_conflict_is_stamped, each_entry_makes_its_version, each_staged_change_makes_the_copy,
};
pub use untouched::{
    each_session_replies_as_at_its_opening, each_untouched_session_reads_as_now,
    each_untouched_session_replies_as_now,
};
pub use updates::each_repository_is_that_of_its_updates;
pub use versions::{each_version_obeys, versions_are_a_chain};
pub use whole_runs::{each_lawful_history_is_serial, each_order_of_steps_is_serial};
