//! What is to be reported after a scan, and the baseline that goes with it.

use crate::baseline::Baseline;
use pana_copies::CopyPath;
use pana_journal::Report;
use pana_list::PlainList;

/// A report that a scan calls for: the path that it is about, the fingerprint that was found there (none of a file
/// that is gone), and the report.
pub struct Step {
    pub path: CopyPath,
    pub fingerprint: Option<[u8; 32]>,
    pub report: Report,
}

impl Drop for Step {
    fn drop(self) {
        let Step {
            path: _,
            fingerprint: _,
            report: _,
        } = self;
    }
}

/// Steps in byte order of their paths.
pub type StepList = PlainList<Step>;

/// The steps that a scan calls for, and the baseline before they are settled.
#[derive(Drop)]
pub struct Plan {
    pub steps: StepList,
    pub baseline: Baseline,
}
