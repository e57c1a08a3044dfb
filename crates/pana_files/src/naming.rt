//! What is passed over in a folder, named on standard error.

use pana_copies::CopyPath;
use pana_scan::{Entry, Kind};
use pana_streams::complain;
use std::alloc::AllocError;
use std::fs::{self, File, Files, Metadata};
use std::io::Read;
use std::os::unix::fs::FileTypeExt;
use std::str;
use std::sync::atomic::{AtomicBool, Ordering};

/// How many bytes of names are read at a time; a name has 255 at most.
const PIECE: usize = 4_096;

/// How often names of a folder are read at most.
const MOST_READS: u64 = 16_777_216;

/// A folder in which what is passed over is named.
#[derive(Clone, Copy)]
pub struct NamedFolder<'a> {
    /// Its name on the command line.
    pub folder: &'a str,
    /// The device whose copies are there, where lines name it.
    pub device: Option<&'a str>,
}

/// Prints a line for each name that a scan passes over, and for each file that can't be read, with the reason. The threads of a
/// scan share it.
#[derive(Drop)]
pub struct Naming<'a> {
    rt: &'a HostRuntime,
    within: NamedFolder<'a>,
    /// Whether the names that aren't UTF-8 are printed of the folder that is listed.
    has_listed: AtomicBool,
    /// Whether memory ran out for a line.
    is_short: AtomicBool,
}

/// A path of these bytes: control characters, and bytes that aren't UTF-8, are escaped.
fn escaped(rt: &HostRuntime, bytes: &[u8]) -> Result<String, AllocError> {
    let mut text = String::new(rt.alloc());
    for chunk in bytes.utf8_chunks() {
        for character in chunk.valid().chars() {
            if character.is_control() {
                let code = format!(in rt.alloc(); "{}", character.escape_default())?;
                text.push_str(code.as_str())?;
            } else {
                text.push(character)?;
            }
        }
        let codes = format!(in rt.alloc(); "{}", chunk.invalid().escape_ascii())?;
        text.push_str(codes.as_str())?;
    }
    Ok(text)
}

/// The path below a folder of what has this whole path; the folder's own is empty.
fn path_below<'a>(folder: &str, whole: &'a str) -> &'a str {
    match whole.strip_prefix(folder) {
        Some(rest) => rest.strip_prefix('/').unwrap_or(rest),
        None => whole,
    }
}

/// Why the path of a file or a folder can't be reported, where it can't.
fn fault_of_path(rt: &HostRuntime, path: &str) -> Option<&'static str> {
    if CopyPath::new(rt.alloc(), path).is_ok() {
        None
    } else if path.chars().any(|character| character.is_ascii_control()) {
        Some("its path has a control character")
    } else {
        Some("its path is longer than 1,024 bytes")
    }
}

/// What this is, which is neither a file nor a folder to a scan.
fn other_kind(found: &Metadata) -> &'static str {
    let kind = found.file_type();
    if kind.is_symlink() {
        "a symbolic link"
    } else if kind.is_fifo() {
        "a pipe"
    } else if kind.is_socket() {
        "a socket"
    } else if kind.is_dir() {
        "of another file system"
    } else {
        "a device"
    }
}

impl<'a> Naming<'a> {
    /// Nothing is printed so far. Takes no memory.
    pub fn new(rt: &'a HostRuntime, within: NamedFolder<'a>) -> Naming<'a> {
        Naming {
            rt,
            within,
            has_listed: AtomicBool::new(false),
            is_short: AtomicBool::new(false),
        }
    }

    /// Another folder is listed.
    pub fn begin_folder(&self) {
        self.has_listed.store(false, Ordering::SeqCst);
    }

    /// Prints what was met in the folder with this whole path, where it is passed over.
    pub fn name_entry(&self, folder: &str, entry: &Entry) {
        let named = match entry {
            Entry::Named { name, kind } => self.name_one(folder, name.as_str(), *kind),
            Entry::NotText => self.name_bytes(folder),
        };
        self.note(named);
    }

    /// Prints that the file with this whole path can't be read.
    pub fn name_unread(&self, file: &str) {
        self.note(self.say_unread(file));
    }

    /// Fails where memory ran out for a line.
    pub fn end(self) -> Result<(), AllocError> {
        if self.is_short.load(Ordering::SeqCst) {
            Err(AllocError)
        } else {
            Ok(())
        }
    }

    fn note(&self, named: Result<(), AllocError>) {
        if named.is_err() {
            self.is_short.store(true, Ordering::SeqCst);
        }
    }

    /// Prints one line about what has this whole path.
    fn say(&self, whole: &str, reason: &str) -> Result<(), AllocError> {
        self.say_bytes(path_below(self.within.folder, whole).as_bytes(), reason)
    }

    /// Prints one line about the path of these bytes.
    fn say_bytes(&self, path: &[u8], reason: &str) -> Result<(), AllocError> {
        let alloc = self.rt.alloc();
        let path = escaped(self.rt, path)?;
        let line = match self.within.device {
            Some(device) => format!(in alloc; "panad: {device}: {path}: {reason}\n")?,
            None => format!(in alloc; "panad: {path}: {reason}\n")?,
        };
        let _ = complain(self.rt, &line);
        Ok(())
    }

    /// Prints what has this name in a folder, where it is passed over.
    fn name_one(&self, folder: &str, name: &str, kind: Kind) -> Result<(), AllocError> {
        let whole = format!(in self.rt.alloc(); "{folder}/{name}")?;
        let named = self.name_whole(whole.as_str(), kind);
        drop(whole);
        named
    }

    /// Prints what has this whole path, where it is passed over.
    fn name_whole(&self, whole: &str, kind: Kind) -> Result<(), AllocError> {
        match self.fault_of(whole, kind) {
            Some(reason) => self.say(whole, reason),
            None => Ok(()),
        }
    }

    /// Why what has this whole path is passed over, where it is.
    fn fault_of(&self, whole: &str, kind: Kind) -> Option<&'static str> {
        if kind != Kind::Other {
            return fault_of_path(self.rt, path_below(self.within.folder, whole));
        }
        match fs::symlink_metadata(self.rt, whole) {
            Ok(found) => Some(other_kind(&found)),
            Err(_) => Some("gone"),
        }
    }

    /// Prints all names in a folder that aren't UTF-8, once.
    fn name_bytes(&self, folder: &str) -> Result<(), AllocError> {
        if self.has_listed.swap(true, Ordering::SeqCst) {
            return Ok(());
        }
        let whole = format!(in self.rt.alloc(); "{folder}/")?;
        match self.rt.open_dir(whole.as_str()) {
            Ok(mut names) => self.name_all(
                path_below(self.within.folder, whole.as_str()),
                &mut names,
            ),
            Err(_) => self.say(whole.as_str(), "a name there isn't UTF-8"),
        }
    }

    /// Prints all names that aren't UTF-8 of those that are read, each of which ends with a NUL.
    fn name_all<N: Read>(&self, folder: &str, names: &mut N) -> Result<(), AllocError> {
        let mut piece = [0u8; PIECE];
        for _ in 0..MOST_READS {
            let Ok(count) = names.read(&mut piece) else {
                return Ok(());
            };
            if count == 0 {
                return Ok(());
            }
            for name in piece[..count].split(|byte| *byte == 0) {
                self.name_not_text(folder, name)?;
            }
        }
        Ok(())
    }

    /// Prints this name in a folder, where it isn't UTF-8.
    fn name_not_text(&self, folder: &str, name: &[u8]) -> Result<(), AllocError> {
        if str::from_utf8(name).is_ok() {
            return Ok(());
        }
        let mut path = Vec::new(self.rt.alloc());
        path.extend_from_slice(folder.as_bytes())?;
        path.extend_from_slice(name)?;
        self.say_bytes(path.as_slice(), "the name isn't UTF-8")
    }

    /// Prints that a file can't be read, with what the system says of it now.
    fn say_unread(&self, file: &str) -> Result<(), AllocError> {
        match fs::symlink_metadata(self.rt, file) {
            Ok(found) if found.is_file() => {}
            _ => return self.say(file, "no file any more"),
        }
        match File::open(self.rt, file) {
            Ok(_) => self.say(file, "changed or failed while it was read"),
            Err(error) => {
                let reason = format!(in self.rt.alloc(); "cannot be read: {}", error.kind())?;
                self.say(file, reason.as_str())
            }
        }
    }
}
