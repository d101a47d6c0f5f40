ghost use Rattle.std.specs.Prelude.{◌≡◌};

use std::alloc::AllocError;
use std::fmt;
use std::io::{Error, ErrorKind};

/// Why no history can be kept at a path.
#[derive(Clone, Copy, Debug, PartialEq, Eq)]
pub(crate) enum Misplaced {
    /// The folder of the path is missing, or is no folder.
    FolderMissing,
    /// The path is that of a folder.
    Folder,
    /// The path ends in no name of a file.
    Nameless,
    /// The path leads to the script.
    Script,
    /// The file is read-only, or its folder takes no new file.
    NotWritable,
    /// Links that go in a circle, a name that is too long, and what else the system refuses.
    Unusable,
    NoMemory,
}

impl Misplaced {
    /// What is reported of it.
    fn reason(self) -> &'static str {
        match self {
            Misplaced::FolderMissing => "its folder is missing",
            Misplaced::Folder => "it is a folder",
            Misplaced::Nameless => "it names no file",
            Misplaced::Script => "it is the script",
            Misplaced::NotWritable => "it is not writable, or its folder is not",
            Misplaced::Unusable => "it cannot be made",
            Misplaced::NoMemory => "no memory",
        }
    }
}

impl fmt::Display for Misplaced {
    fn fmt<W: fmt::Write>(&self, f: &mut fmt::Formatter<W>) -> fmt::Result {
        f.write_str(self.reason())
    }
}

impl From<Error> for Misplaced {
    fn from(error: Error) -> Misplaced {
        match error.kind() {
            ErrorKind::NotFound | ErrorKind::NotADirectory => Misplaced::FolderMissing,
            ErrorKind::IsADirectory => Misplaced::Folder,
            ErrorKind::PermissionDenied | ErrorKind::ReadOnlyFilesystem => Misplaced::NotWritable,
            ErrorKind::OutOfMemory => Misplaced::NoMemory,
            _ => Misplaced::Unusable,
        }
    }
}

impl From<AllocError> for Misplaced {
    fn from(_error: AllocError) -> Misplaced {
        Misplaced::NoMemory
    }
}
