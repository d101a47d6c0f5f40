//! Files and streams, with the names by which their faults are reported.
//!
//! - `batches`: the batches of a journal, as its marks say.
//! - `contents`: the numeric table and the entries that the bytes of a journal have.
//! - `errors`: why the system refused a call on the file of a journal or of a history.
//! - `history`: the files of histories.
//! - `misplaced`: why no history can be kept at a path.
//! - `named`: files and streams with the names by which their faults are reported.
//! - `part`: a new file next to the place that it is to take.
//! - `place`: where a history goes.
//! - `reports`: the files of such reports, with their names.
//! - `table`: the numeric table, and the bytes of a file.

pub(crate) mod batches;
pub(crate) mod contents;
pub(crate) mod errors;
pub(crate) mod history;
pub(crate) mod misplaced;
pub(crate) mod named;
pub(crate) mod part;
pub(crate) mod place;
pub(crate) mod reports;
pub(crate) mod table;
