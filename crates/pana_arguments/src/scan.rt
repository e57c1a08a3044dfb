//! The words of `panad scan`.

use crate::command_text::CommandText;
use crate::item::{Item, Kind, Need};
use crate::options::{NAMES_PASSED, VERBOSE, value_of};
use clap::ArgMatches;

/// The name of the command.
pub const SCAN: &str = "scan";

const EXAMPLE: &str = "\
Each regular file below DIR is registered as a first copy, at its path relative to
DIR. Example:

    $ panad scan usb /media/usb > usb.lines
    $ panad show usb.lines

Symbolic links are passed over. Names that can't be reported are counted on
standard error, and with --verbose named.";

/// The names of the device and the folder on the command line.
const DEVICE: &str = "DEVICE";

const DIR: &str = "DIR";

/// What the words of `scan` ask for.
#[derive(Clone, Copy)]
pub struct ScanArguments<'a> {
    /// The name of the device.
    pub device: &'a str,
    /// The folder with its copies.
    pub folder: &'a str,
    /// Whether what is passed over is named on standard error.
    pub is_verbose: bool,
}

/// The words and options of the command.
const ITEMS: [Item; 3] = [
    NAMES_PASSED,
    Item {
        name: DEVICE,
        kind: Kind::Word,
        need: Need::Required,
        help: "The name of the device, 1 to 32 of a to z, 0 to 9, - and _",
    },
    Item {
        name: DIR,
        kind: Kind::Word,
        need: Need::Required,
        help: "The folder with the device's copies",
    },
];

/// What the words of `scan` may be.
pub const SCAN_COMMAND: CommandText = CommandText {
    name: SCAN,
    about: "Prints the lines that register all files of a folder",
    example: EXAMPLE,
    items: &ITEMS,
};

impl<'a> ScanArguments<'a> {
    /// What these words ask for.
    pub fn of(words: &'a ArgMatches) -> ScanArguments<'a> {
        ScanArguments {
            device: value_of(words, DEVICE),
            folder: value_of(words, DIR),
            is_verbose: words.get_flag(VERBOSE),
        }
    }
}
