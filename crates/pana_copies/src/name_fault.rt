use thiserror::Error;

/// Why a name was not taken.
#[derive(Clone, Copy, Debug, PartialEq, Eq, Error)]
pub enum NameFault {
    #[error("a device's name is 1 to 32 of a to z, 0 to 9, - and _")]
    BadDevice,
    #[error("a path is 1 to 1,024 bytes of UTF-8 without control characters")]
    BadPath,
    #[error("a sum is 64 of 0 to 9 and a to f")]
    BadSum,
    #[error("out of memory")]
    OutOfMemory,
}
