//! The files of reports that are to be loaded, with their names.

use crate::commands::load::NamedText;
use crate::fault::{Fault, read_fault};
use crate::files::named::Reasons;
use crate::files::table::bytes_given;
use crate::progress::Progress;
use std::alloc::{AllocError, Global};
use std::fs;
use std::io::Result as IoResult;
use std::path::Path;

/// The file of a report, and the name under which it is loaded.
#[derive(Drop)]
pub(crate) struct ReportFile {
    pub(crate) name: String,
    pub(crate) path: String,
}

impl ReportFile {
    fn new(alloc: Global, name: &str, path: &str) -> Result<ReportFile, AllocError> {
        Ok(ReportFile {
            name: String::from_str(alloc, name)?,
            path: String::from_str(alloc, path)?,
        })
    }
}

/// The name of the file at a path without its ending.
fn name_of(path: &str) -> &str {
    Path::new(path).file_stem().unwrap_or(path)
}

/// Whether the path of a file is that of one to load: no folder, and none whose name begins with a dot.
fn is_file_to_load(rt: &HostRuntime, path: &str) -> IoResult<bool> {
    Ok(!name_of(path).starts_with('.') && !fs::metadata(rt, path)?.is_dir())
}

/// The paths of the reports in a folder, in byte order.
fn files_in(rt: &HostRuntime, folder: &str) -> IoResult<Vec<String>> {
    let mut paths = Vec::new(rt.alloc());
    for entry in fs::read_dir(rt, folder)? {
        let path = String::from_str(rt.alloc(), entry?.path().as_str())?;
        if is_file_to_load(rt, path.as_str())? {
            paths.push(path)?;
        }
    }
    paths.sort_unstable();
    Ok(paths)
}

/// Whether there is a folder at a path.
fn is_folder(rt: &HostRuntime, path: &str) -> bool {
    match fs::metadata(rt, path) {
        Ok(found) => found.is_dir(),
        Err(_) => false,
    }
}

/// Adds the files of a folder, each under its name.
fn add_folder(
    rt: &HostRuntime,
    files: &mut Vec<ReportFile>,
    folder: &str,
    reasons: Reasons,
) -> Result<(), Fault> {
    let paths = match files_in(rt, folder) {
        Ok(paths) => paths,
        Err(error) => {
            reasons.tell(folder, &error);
            return Err(read_fault(&error));
        }
    };
    for path in &paths {
        let path = path.as_str();
        files.push(ReportFile::new(rt.alloc(), name_of(path), path)?)?;
    }
    Ok(())
}

/// The files that words name, in their order: NAME=FILE, a file under its own name, or a folder.
pub(crate) fn reports_given(
    rt: &HostRuntime,
    words: &[&str],
    reasons: Reasons,
) -> Result<Vec<ReportFile>, Fault> {
    let mut files = Vec::new(rt.alloc());
    for word in words {
        if let Some((name, path)) = word.split_once('=') {
            files.push(ReportFile::new(rt.alloc(), name, path)?)?;
        } else if is_folder(rt, word) {
            add_folder(rt, &mut files, word, reasons)?;
        } else {
            files.push(ReportFile::new(rt.alloc(), name_of(word), word)?)?;
        }
    }
    Ok(files)
}

/// The text of the report in a file.
fn text_at(rt: &HostRuntime, path: &str, reasons: Reasons) -> Result<String, Fault> {
    let bytes = bytes_given(rt, path, reasons)?;
    match String::from_utf8(bytes) {
        Ok(text) => Ok(text),
        Err(_) => {
            reasons.tell(path, &"it is not UTF-8");
            Err(Fault::Read)
        }
    }
}

/// The texts of the reports in some files.
pub(crate) fn read_reports(
    rt: &HostRuntime,
    files: &[ReportFile],
    reasons: Reasons,
) -> Result<Vec<NamedText>, Fault> {
    let progress = Progress::new(rt);
    let mut reports = Vec::new(rt.alloc());
    for file in files {
        let text = text_at(rt, file.path.as_str(), reasons)?;
        let name = String::from_str(rt.alloc(), file.name.as_str())?;
        reports.push(NamedText { name, text })?;
        progress.tell(
            reports.len() as u64,
            Some(files.len() as u64),
            "reports read",
        );
    }
    Ok(reports)
}

/// The paths of files.
pub(crate) fn paths_of(alloc: Global, files: Vec<ReportFile>) -> Result<Vec<String>, AllocError> {
    let mut paths = Vec::new(alloc);
    for file in files {
        paths.push(file.path)?;
    }
    Ok(paths)
}
