//! `FileErrors`: why the system refused a call on the file of a journal or of a history.

use crate::files::named::Reasons;
use journal_file::ErrorLog;
use std::alloc::AllocError;
use std::io::Error;

/// Reports the errors of a file by its name.
#[derive(Drop)]
pub(crate) struct FileErrors {
    name: String,
    reasons: Reasons,
}

impl FileErrors {
    pub(crate) fn new(
        rt: &HostRuntime,
        name: &str,
        reasons: Reasons,
    ) -> Result<FileErrors, AllocError> {
        Ok(FileErrors {
            name: String::from_str(rt.alloc(), name)?,
            reasons,
        })
    }
}

impl ErrorLog for FileErrors {
    fn log_error(&self, error: &Error) {
        self.reasons.tell(self.name.as_str(), error);
    }
}
