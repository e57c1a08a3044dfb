//! In whose name questions are asked.

use pana_copies::DeviceName;
use pana_streams::ProgramFault;

/// The device in whose name the program asks; a question has the same answer for each.
const ASKER: &str = "panad";

/// The device in whose name questions are asked.
pub fn asker() -> Result<DeviceName, ProgramFault> {
    match DeviceName::new(ASKER) {
        Ok(device) => Ok(device),
        Err(_) => Err(ProgramFault::OutOfMemory),
    }
}
