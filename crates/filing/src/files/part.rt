//! A new file next to the place that it is to take. Nothing that is there is opened, followed or written over.

use crate::files::misplaced::Misplaced;
use crate::files::place::path_beside;
use std::fs::{File, Metadata, OpenOptions, Permissions};
use std::io::{ErrorKind, Result as IoResult};
use std::os::unix::fs::{MetadataExt, OpenOptionsExt, PermissionsExt, fchown};
use std::{fs, process};

// Names that are tried at most.
const MOST_NAMES: u32 = 100;

// Who may do what with a file, in bits: its owner, its group and all others.
const RIGHTS: u32 = 0o777;

const RIGHTS_OF_GROUP: u32 = 0o070;

const RIGHTS_OF_OWNER: u32 = 0o600;

/// A new file, and the path at which it was made.
#[derive(Drop)]
pub(crate) struct Part {
    pub(crate) file: File,
    pub(crate) path: String,
}

/// Makes a file under a name that no other file has, in the folder of a path.
/// Its owner alone may read and write it.
pub(crate) fn new_part(rt: &HostRuntime, path: &str) -> Result<Part, Misplaced> {
    let run = process::id(rt.process());
    let mut options = OpenOptions::new();
    options
        .read(true)
        .write(true)
        .create_new(true)
        .mode(RIGHTS_OF_OWNER);
    for number in 0..MOST_NAMES {
        let name = format!(in rt.alloc(); ".filing-{run}-{number}")?;
        let path = path_beside(rt.alloc(), path, name.as_str())?;
        match options.open(rt, path.as_str()) {
            Ok(file) => return Ok(Part { file, path }),
            Err(error) if error.kind() == ErrorKind::AlreadyExists => {}
            Err(error) => return Err(error.into()),
        }
    }
    Err(Misplaced::Unusable)
}

/// Gives a file the owner, the group and the rights of the one that it is to replace.
/// Who may not give it to that owner keeps it; where it cannot be given to that group, the group has no rights.
pub(crate) fn keep_rights(file: &File, replaced: &Metadata) -> IoResult<()> {
    let made = file.metadata()?;
    if made.uid() != replaced.uid() {
        let _ = fchown(file, Some(replaced.uid()), None);
    }
    let has_group = made.gid() == replaced.gid()
        || fchown(file, None, Some(replaced.gid())).is_ok();
    let rights = replaced.mode() & RIGHTS;
    let kept = if has_group {
        rights
    } else {
        rights & !RIGHTS_OF_GROUP
    };
    if made.mode() & RIGHTS == kept {
        return Ok(());
    }
    file.set_permissions(Permissions::from_mode(kept))
}

/// Removes what was made at a path. What cannot be removed stays.
pub(crate) fn remove_part(rt: &HostRuntime, path: &str) {
    let _ = fs::remove_file(rt, path);
}
