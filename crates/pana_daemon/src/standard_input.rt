//! Standard input, for as long as it is needed.

use crate::alarm::Alarm;
use crate::supervisor::Supervisor;
use libc::types::pollfd;
use std::io::{self, Read};
use std::sync::Wait;

/// For how many milliseconds it is waited for input before the alarm is looked at, where that ends all.
const PERIOD: i32 = 5000;

/// Standard input, which also ends where all is to end.
#[derive(Drop)]
pub struct StandardInput<'a, 'b, T> {
    pub rt: &'a HostRuntime,
    pub threads: &'a T,
    pub alarm: &'a Alarm<'b>,
}

/// Waits until there is input, or its end, or so many milliseconds have passed, of which -1 are never; and says whether
/// there may be some.
fn await_input(milliseconds: i32) -> bool {
    let mut asked = [pollfd {
        fd: 0,
        events: libc::net::POLLIN,
        revents: 0,
    }];
    libc::net::poll(&mut asked, milliseconds) > 0
}

impl<T: Wait> StandardInput<'_, '_, T> {
    /// Waits until there may be input, and returns true; false once all is to end.
    fn goes_on(&self) -> bool {
        for _ in self.threads.forever() {
            if self.alarm.is_closing() {
                return false;
            }
            if await_input(PERIOD) {
                return true;
            }
        }
        unreachable!()
    }
}

impl<T: Wait> Read for StandardInput<'_, '_, T> {
    fn read(&mut self, buffer: &mut [u8]) -> io::Result<usize> {
        if self.alarm.ends_all() && !self.goes_on() {
            return Ok(0);
        }
        self.rt.reader().read(buffer)
    }
}
