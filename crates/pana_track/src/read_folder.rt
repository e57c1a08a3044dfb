use crate::read_fault::ReadFault;
use crate::reading::TrackedListing;
use pana_copies::DeviceName;

/// A folder that is to be tracked, and what reading it has given.
pub struct ReadFolder {
    pub device: DeviceName,
    pub given: Result<TrackedListing, ReadFault>,
}

impl Drop for ReadFolder {
    fn drop(self) {
        let ReadFolder {
            device: _,
            given: _,
        } = self;
    }
}
