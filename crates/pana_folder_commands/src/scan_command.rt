//! What the words of `panad scan` come to.

use pana_arguments::ScanArguments;
use pana_commands::scan_on;
use pana_files::{FolderWatch, NamedFolder, NamingDisk};
use pana_keeper::print_out;
use pana_scan::SystemDisk;
use pana_streams::ProgramFault;
use std::process::ExitCode;

/// The folder that is scanned, where what is passed over in it is to be named.
fn named_folder<'a>(arguments: ScanArguments<'a>) -> Option<NamedFolder<'a>> {
    if !arguments.is_verbose {
        return None;
    }
    Some(NamedFolder {
        folder: arguments.folder,
        device: None,
    })
}

/// Prints the lines of a first scan of a folder.
pub fn run(rt: &HostRuntime, arguments: ScanArguments<'_>) -> Result<ExitCode, ProgramFault> {
    let watch = FolderWatch::new(rt, named_folder(arguments));
    let printout = scan_on(
        rt.alloc(),
        &mut NamingDisk::new(rt.alloc(), SystemDisk::new(rt), watch.naming()),
        arguments.device,
        arguments.folder,
        &watch,
    );
    watch.end()?;
    print_out(rt, &printout?)
}
