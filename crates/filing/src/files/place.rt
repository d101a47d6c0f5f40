//! Where a history goes: what a path leads to, and what stands there.

use crate::files::misplaced::Misplaced;
use std::alloc::{AllocError, Global};
use std::fs;
use std::fs::{Metadata, OpenOptions};
use std::io::ErrorKind;
use std::os::unix::fs::{FileTypeExt, MetadataExt};

/// Where a history goes.
#[derive(Drop)]
pub(crate) enum Place {
    /// The path leads to where standard output goes.
    Output,
    /// The path leads to where standard error goes.
    Errors,
    /// A pipe or a device is there.
    Device,
    /// A regular file is to be there, in the place of the one that is, if one is.
    File {
        /// The path, with no link at its end.
        path: String,
        replaced: Option<Metadata>,
    },
}

// Links that are followed at most, one after the other, as the system does.
const MOST_LINKS: usize = 40;

/// The path of a name in the folder of another path.
pub(crate) fn path_beside(alloc: Global, path: &str, name: &str) -> Result<String, AllocError> {
    match path.rsplit_once('/') {
        Some((folder, _)) => format!(in alloc; "{folder}/{name}"),
        None => String::from_str(alloc, name),
    }
}

/// Whether a path ends in the name of a file.
fn has_name(path: &str) -> bool {
    let name = match path.rsplit_once('/') {
        Some((_, name)) => name,
        None => path,
    };
    !matches!(name, "" | "." | "..")
}

/// Whether both are the same file, whatever it is called.
fn is_same(one: &Metadata, other: &Metadata) -> bool {
    one.dev() == other.dev() && one.ino() == other.ino()
}

/// Whether this is the file that a standard stream has open, which the system names by a path.
fn is_open_as(rt: &HostRuntime, found: &Metadata, stream: &str) -> bool {
    match fs::metadata(rt, stream) {
        Ok(open) => is_same(found, &open),
        Err(_) => false,
    }
}

/// Whether this is the script. A terminal and a device can be both read and written.
fn is_script(rt: &HostRuntime, found: &Metadata) -> bool {
    let kind = found.file_type();
    !kind.is_char_device() && !kind.is_block_device() && is_open_as(rt, found, "/dev/stdin")
}

/// The path to which links lead from one at which there is no file.
fn without_links(rt: &HostRuntime, path: &str) -> Result<String, Misplaced> {
    let mut at = String::from_str(rt.alloc(), path)?;
    for _ in 0..MOST_LINKS {
        let Ok(link) = fs::read_link(rt, at.as_str()) else {
            return Ok(at);
        };
        let target = link.into_string();
        at = if target.starts_with('/') {
            target
        } else {
            path_beside(rt.alloc(), at.as_str(), target.as_str())?
        };
    }
    Err(Misplaced::Unusable)
}

/// A place at which there is nothing.
fn free_place(rt: &HostRuntime, path: &str) -> Result<Place, Misplaced> {
    let path = without_links(rt, path)?;
    if !has_name(path.as_str()) {
        return Err(Misplaced::Nameless);
    }
    Ok(Place::File {
        path,
        replaced: None,
    })
}

/// The place of a regular file. One that nobody may write is kept as it is, also for those whom the system lets write it.
fn taken_place(rt: &HostRuntime, path: &str, found: Metadata) -> Result<Place, Misplaced> {
    if found.permissions().readonly() {
        return Err(Misplaced::NotWritable);
    }
    let path = fs::canonicalize(rt, path)?.into_string();
    if !is_same(&found, &fs::symlink_metadata(rt, path.as_str())?) {
        return Err(Misplaced::Unusable);
    }
    OpenOptions::new().write(true).open(rt, path.as_str())?;
    Ok(Place::File {
        path,
        replaced: Some(found),
    })
}

/// What a path leads to, where a history can be kept there.
pub(crate) fn place_of(rt: &HostRuntime, path: &str) -> Result<Place, Misplaced> {
    let found = match fs::metadata(rt, path) {
        Ok(found) => found,
        Err(error) if error.kind() == ErrorKind::NotFound => return free_place(rt, path),
        Err(error) => return Err(error.into()),
    };
    if found.is_dir() {
        Err(Misplaced::Folder)
    } else if is_script(rt, &found) {
        Err(Misplaced::Script)
    } else if is_open_as(rt, &found, "/dev/stdout") {
        Ok(Place::Output)
    } else if is_open_as(rt, &found, "/dev/stderr") {
        Ok(Place::Errors)
    } else if found.is_file() {
        taken_place(rt, path, found)
    } else {
        Ok(Place::Device)
    }
}
