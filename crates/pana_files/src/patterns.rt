//! What is passed over in folders that are tracked, beside what their own files list.

use crate::system_disks::PassedOver;
use pana_roots::Root;
use pana_streams::complain;
use std::alloc::AllocError;
use std::fs;

/// Whether the first path is the second, or lies within it. Both are whole, as `canonicalize` returns them.
pub fn is_within(path: &str, folder: &str) -> bool {
    match path.strip_prefix(folder) {
        Some(rest) => rest.is_empty() || rest.starts_with('/') || folder.ends_with('/'),
        None => false,
    }
}

/// The whole path of a file, which needn't be there, where its folder is.
fn whole_path(rt: &HostRuntime, file: &str) -> Result<Option<String>, AllocError> {
    let alloc = rt.alloc();
    if let Ok(whole) = fs::canonicalize(rt, file) {
        let path = String::from_str(alloc, whole.as_str());
        drop(whole);
        return Ok(Some(path?));
    }
    let (folder, name) = match file.rsplit_once('/') {
        Some(("", name)) => ("/", name),
        Some(parts) => parts,
        None => (".", file),
    };
    let Ok(folder) = fs::canonicalize(rt, folder) else {
        return Ok(None);
    };
    let path = format!(in alloc; "{}/{name}", folder.as_str().trim_end_matches('/'));
    drop(folder);
    Ok(Some(path?))
}

/// The path of a file below a folder, where it lies there.
fn path_below(rt: &HostRuntime, file: &str, folder: &str) -> Result<Option<String>, AllocError> {
    let Some(file) = whole_path(rt, file)? else {
        return Ok(None);
    };
    let Ok(folder) = fs::canonicalize(rt, folder) else {
        drop(file);
        return Ok(None);
    };
    let path = rest_below(rt, file.as_str(), folder.as_str());
    drop(file);
    drop(folder);
    path
}

/// What stands behind a folder in the whole path of a file, where that lies within it.
fn rest_below(rt: &HostRuntime, file: &str, folder: &str) -> Result<Option<String>, AllocError> {
    match file.strip_prefix(folder) {
        Some(rest) if is_within(file, folder) => {
            let rest = String::from_str(rt.alloc(), rest.trim_start_matches('/'))?;
            Ok(Some(rest))
        }
        _ => Ok(None),
    }
}

/// The pattern that this path below a folder alone matches.
fn pattern_of(rt: &HostRuntime, path: &str) -> Result<String, AllocError> {
    let mut pattern = String::from_str(rt.alloc(), "/")?;
    for character in path.chars() {
        if character != '/' {
            pattern.push('\\')?;
        }
        pattern.push(character)?;
    }
    Ok(pattern)
}

/// A file of the program's own, and the endings of its name and of those beside it.
#[derive(Clone, Copy)]
pub struct OwnFile<'a> {
    pub name: &'a str,
    pub endings: &'a [&'a str],
    /// What it is called where it is passed over.
    pub called: &'a str,
}

impl<'a> OwnFile<'a> {
    /// The file of a journal, and what is kept beside it.
    pub fn journal(name: &'a str) -> OwnFile<'a> {
        OwnFile {
            name,
            endings: &["", ".sums", ".sums.new", ".last", ".last.new"],
            called: "journal",
        }
    }

    /// A file with sums.
    pub fn sums(name: &'a str) -> OwnFile<'a> {
        OwnFile {
            name,
            endings: &["", ".new"],
            called: "file of sums",
        }
    }
}

/// Puts the patterns of a root that one of the program's own files and those beside it match behind the others, where they lie in
/// its folder.
fn push_own(
    rt: &HostRuntime,
    root: &Root<'_>,
    own: &OwnFile<'_>,
    patterns: &mut Vec<String>,
) -> Result<(), AllocError> {
    let Some(path) = path_below(rt, own.name, root.folder)? else {
        return Ok(());
    };
    let pushed = push_endings(rt, path.as_str(), own.endings, patterns);
    drop(path);
    pushed
}

/// Prints that one of the program's own files is passed over, where it lies in the folder of a root.
fn report_if_within(
    rt: &HostRuntime,
    root: &Root<'_>,
    own: &OwnFile<'_>,
) -> Result<(), AllocError> {
    if path_below(rt, own.name, root.folder)?.is_none() {
        return Ok(());
    }
    let (device, called) = (root.device.as_str(), own.called);
    let text = format!(in rt.alloc(); "panad: {device}: the {called} is passed over\n")?;
    let _ = complain(rt, &text);
    Ok(())
}

/// Prints which of the program's own files are passed over in the folders of roots.
pub(crate) fn report_own(
    rt: &HostRuntime,
    roots: &[Root<'_>],
    own_files: &[OwnFile<'_>],
) -> Result<(), AllocError> {
    for root in roots {
        for own in own_files {
            report_if_within(rt, root, own)?;
        }
    }
    Ok(())
}

/// Puts the patterns that a path alone matches with each of these endings behind the others.
fn push_endings(
    rt: &HostRuntime,
    path: &str,
    endings: &[&str],
    patterns: &mut Vec<String>,
) -> Result<(), AllocError> {
    for ending in endings {
        let name = format!(in rt.alloc(); "{path}{ending}")?;
        let pattern = pattern_of(rt, name.as_str());
        drop(name);
        patterns.push(pattern?)?;
    }
    Ok(())
}

/// A root's folder, and the patterns of what is passed over there.
pub struct RootPatterns {
    folder: String,
    texts: Vec<String>,
}

impl Drop for RootPatterns {
    fn drop(self) {
        let RootPatterns {
            folder: _,
            texts: _,
        } = self;
    }
}

impl RootPatterns {
    pub(crate) fn folder(&self) -> &str {
        self.folder.as_str()
    }

    /// The patterns as slices.
    pub(crate) fn slices(&self, rt: &HostRuntime) -> Result<Vec<&str>, AllocError> {
        let mut slices = Vec::new(rt.alloc());
        for text in &self.texts {
            slices.push(text.as_str())?;
        }
        Ok(slices)
    }
}

/// For each root these patterns, and behind them those that the program's own files and those beside them match. Which of these
/// files are passed over is printed.
pub fn root_patterns(
    rt: &HostRuntime,
    roots: &[Root<'_>],
    own_files: &[OwnFile<'_>],
    ignored: &[&str],
) -> Result<Vec<RootPatterns>, AllocError> {
    report_own(rt, roots, own_files)?;
    patterns_with(rt, roots, own_files, ignored)
}

/// For each root these patterns, and behind them those that the program's own files and those beside them match.
pub(crate) fn patterns_with(
    rt: &HostRuntime,
    roots: &[Root<'_>],
    own_files: &[OwnFile<'_>],
    ignored: &[&str],
) -> Result<Vec<RootPatterns>, AllocError> {
    let alloc = rt.alloc();
    let mut all = Vec::new(alloc);
    for root in roots {
        let mut patterns = RootPatterns {
            folder: String::from_str(alloc, root.folder)?,
            texts: Vec::new(alloc),
        };
        if let Err(fault) = push_texts(rt, root, own_files, ignored, &mut patterns.texts) {
            drop(patterns);
            drop(all);
            return Err(fault);
        }
        all.push(patterns)?;
    }
    Ok(all)
}

/// Puts the patterns of a root behind the others.
fn push_texts(
    rt: &HostRuntime,
    root: &Root<'_>,
    own_files: &[OwnFile<'_>],
    ignored: &[&str],
    texts: &mut Vec<String>,
) -> Result<(), AllocError> {
    for text in ignored {
        texts.push(String::from_str(rt.alloc(), text)?)?;
    }
    for own in own_files {
        push_own(rt, root, own, texts)?;
    }
    Ok(())
}

/// The patterns of each root, as slices.
pub fn slices_of<'a>(
    rt: &HostRuntime,
    all: &'a [RootPatterns],
) -> Result<Vec<Vec<&'a str>>, AllocError> {
    let mut slices = Vec::new(rt.alloc());
    for root in all {
        slices.push(root.slices(rt)?)?;
    }
    Ok(slices)
}

/// What is passed over in the folder of each root.
pub fn passed_over<'a, 'b>(
    rt: &HostRuntime,
    all: &'b [RootPatterns],
    slices: &'a [Vec<&'b str>],
) -> Result<Vec<PassedOver<'a, 'b>>, AllocError> {
    let mut passed = Vec::new(rt.alloc());
    for (root, patterns) in all.iter().zip(slices) {
        passed.push(PassedOver {
            folder: root.folder.as_str(),
            patterns: patterns.as_slice(),
        })?;
    }
    Ok(passed)
}
