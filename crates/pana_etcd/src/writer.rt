//! Numbers of writers.

use std::fs::File;
use std::io::{self, Read};

/// A number that no other writer has, but by a chance of one in 2^64: eight bytes of `/dev/urandom`.
pub fn random_writer(rt: &HostRuntime) -> io::Result<u64> {
    let mut bytes = [0u8; 8];
    File::open(rt, "/dev/urandom")?.read_exact(&mut bytes)?;
    Ok(u64::from_be_bytes(bytes))
}
