//! What a scan calls for at one path.
ghost use Rattle.std.specs.Prelude.{◌≡◌, ◌==◌, ◌&&◌, not, Some, None, option_copied, IfOk};
ghost use Rattle.std.specs.Str.{bytes_eq};
ghost use Rattle.pana_scan.specs.Plan.{keep, outcome_at};
ghost use Rattle.pana_journal.specs.declared.report.Report.TheVariants.{Register, Edit, Remove};
ghost use Rattle.pana_scan.specs.declared.listing.Found.TheVariants.{Seen};

use crate::baseline::Mark;
use crate::listing::Found;
use crate::merging::Spot;
use crate::step::Step;
use pana_calls::Holding;
use pana_copies::{CopyPath, DeviceName, Place};
use pana_journal::Report;
use std::alloc::AllocError;

/// What a scan calls for at one path: a step, and what the baseline keeps of it until that is settled.
#[derive(Drop)]
pub(crate) struct Outcome {
    pub(crate) step: Option<Step>,
    pub(crate) mark: Option<Mark>,
}

impl Outcome {
    const NOTHING: Outcome = Outcome {
        step: None,
        mark: None,
    };

    fn marked(fingerprint: [u8; 32], touch: u64) -> Outcome
        ensures { result ≡ keep (Some (record { fingerprint = fingerprint; touch = touch })) }
    {
        Outcome {
            step: None,
            mark: Some(Mark { fingerprint, touch }),
        }
    }
}

/// Whether a file has changed, and nothing has been reported of its copy since its mark.
fn is_edit(fingerprint: [u8; 32], mark: Mark, living: &Holding) -> bool
    ensures { result ≡ (not (bytes_eq fingerprint mark.fingerprint) && mark.touch == living.now.touch) }
{
    fingerprint != mark.fingerprint && mark.touch == living.touch
}

impl Spot<'_> {
    /// What the path calls for.
    pub(crate) fn outcome(&self, device: &DeviceName) -> Result<Outcome, AllocError>
        ensures { IfOk result (λ it. it ≡ outcome_at device.now self.now.path.now self.now.found self.now.mark (option_copied self.now.living)) }
    {
        match self.found {
            Some(Found::Unreadable) => Ok(Outcome {
                step: None,
                mark: self.mark,
            }),
            Some(Found::Seen(fingerprint)) => self.outcome_of_seen(fingerprint, device),
            None => self.outcome_of_absent(device),
        }
    }

    fn outcome_of_seen(
        &self,
        fingerprint: [u8; 32],
        device: &DeviceName,
    ) -> Result<Outcome, AllocError>
        ensures { IfOk result (λ it. it ≡ outcome_at device.now self.now.path.now (Some (Seen fingerprint)) self.now.mark (option_copied self.now.living)) }
    {
        match (self.mark, self.living) {
            (None, None) => Ok(Outcome {
                step: Some(self.register(fingerprint, device)?),
                mark: None,
            }),
            (Some(mark), Some(living)) if is_edit(fingerprint, mark, living) => Ok(Outcome {
                step: Some(self.edit(fingerprint, living.copy)?),
                mark: Some(mark),
            }),
            (_, Some(living)) => Ok(Outcome::marked(fingerprint, living.touch)),
            (Some(_), None) => Ok(Outcome::marked(fingerprint, 0)),
        }
    }

    fn outcome_of_absent(&self, device: &DeviceName) -> Result<Outcome, AllocError>
        ensures { IfOk result (λ it. it ≡ outcome_at device.now self.now.path.now None self.now.mark (option_copied self.now.living)) }
    {
        match (self.mark, self.living) {
            (Some(mark), Some(living)) => Ok(Outcome {
                step: Some(self.remove(living.copy)?),
                mark: Some(mark),
            }),
            _ => Ok(Outcome::NOTHING),
        }
    }

    fn register(&self, fingerprint: [u8; 32], device: &DeviceName) -> Result<Step, AllocError>
        ensures { IfOk result (λ step. step ≡ record { path = self.now.path.now; fingerprint = Some fingerprint; report = Register (record { device = device.now; path = self.now.path.now }) None }) }
    {
        let place = Place {
            device: device.copy_of(),
            path: self.path.copy_of()?,
        };
        self.step(Some(fingerprint), Report::Register { place, sum: None })
    }

    fn edit(&self, fingerprint: [u8; 32], copy: u64) -> Result<Step, AllocError>
        ensures { IfOk result (λ step. step ≡ record { path = self.now.path.now; fingerprint = Some fingerprint; report = Edit copy None }) }
    {
        self.step(Some(fingerprint), Report::Edit { copy, sum: None })
    }

    fn remove(&self, copy: u64) -> Result<Step, AllocError>
        ensures { IfOk result (λ step. step ≡ record { path = self.now.path.now; fingerprint = None; report = Remove copy None }) }
    {
        self.step(None, Report::Remove { copy, heir: None })
    }

    fn step(&self, fingerprint: Option<[u8; 32]>, report: Report) -> Result<Step, AllocError>
        ensures { IfOk result (λ step. step ≡ record { path = self.now.path.now; fingerprint = fingerprint; report = report }) }
    {
        Ok(Step {
            path: self.path.copy_of()?,
            fingerprint,
            report,
        })
    }
}
