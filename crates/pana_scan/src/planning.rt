//! What a scan calls for, over all paths.
ghost use Rattle.std.specs.Prelude.{◌≡◌, ◌++◌, [], map, option_map, IfOk, OnOk};
ghost use Rattle.std.specs.Option.{option_to_list};
ghost use Rattle.pana_calls.specs.Holdings.{HaveOwnPaths};
ghost use Rattle.pana_scan.specs.inner.Left.{AllRise, HoldingsRise, HoldTheSame, left};
ghost use Rattle.pana_scan.specs.Plan.{plan_of, rows_for, steps_for};

use crate::baseline::{Baseline, BaselineRow};
use crate::listing::Listing;
use crate::merging::Sources;
use crate::ordering::path_order;
use crate::outcome::Outcome;
use crate::step::{Plan, Step, StepList};
use pana_calls::{Holding, HoldingList};
use pana_copies::{CopyPath, DeviceName};
use std::alloc::{AllocError, Global};

/// The steps that a listing calls for, in byte order of their paths, and the baseline before they are settled.
///
/// The holdings are those of the listing's device. Fails only where memory runs out. O(n) for n paths, besides
/// O(m log m) to sort m holdings by their paths.
pub fn plan(
    alloc: Global,
    baseline: &Baseline,
    holdings: &HoldingList,
    listing: &Listing,
) -> Result<Plan, AllocError>
    ensures { IfOk result (λ plan. plan ≡ plan_of baseline.now holdings.now listing.now) }
{
    let living = by_path(alloc, holdings.as_slice())?;
    let sources = Sources {
        found: listing.rows(),
        kept: baseline.rows(),
        living: living.as_slice(),
    };
    let mut draft = Draft::new(alloc);
    let filled = draft.fill(sources, listing.device());
    drop(living);
    let Draft { steps, rows } = draft;
    match filled {
        Ok(()) => Ok(Plan {
            steps: StepList::from_vec(steps),
            baseline: Baseline::from_vec(rows),
        }),
        Err(fault) => {
            drop(steps);
            drop(rows);
            Err(fault)
        }
    }
}

/// The plan of the paths that were looked at so far.
#[derive(Drop)]
struct Draft {
    steps: Vec<Step>,
    rows: Vec<BaselineRow>,
}

impl Draft {
    fn new(alloc: Global) -> Draft
        ensures steps { result.steps.items ≡ [] }
        ensures rows { result.rows.items ≡ [] }
    {
        Draft {
            steps: Vec::new(alloc),
            rows: Vec::new(alloc),
        }
    }

    /// Adds what is left of the three lists.
    fn fill(&mut self, mut sources: Sources<'_>, device: &DeviceName) -> Result<(), AllocError>
        requires { AllRise sources }
        ensures steps { OnOk result (self.new.steps.items ≡ self.old.steps.items ++ steps_for device.now (left sources.entry)) }
        ensures rows { OnOk result (self.new.rows.items ≡ self.old.rows.items ++ rows_for device.now (left sources.entry)) }
    {
        while let Some(spot) = sources.next() {
            self.add(spot.path, spot.outcome(device)?)?;
        }
        Ok(())
    }

    fn add(&mut self, path: &CopyPath, outcome: Outcome) -> Result<(), AllocError>
        ensures steps { OnOk result (self.new.steps.items ≡ self.old.steps.items ++ option_to_list outcome.step) }
        ensures rows { OnOk result (self.new.rows.items ≡ self.old.rows.items ++ option_to_list (option_map (λ mark. record { path = path.now; mark = mark }) outcome.mark)) }
    {
        let Outcome { step, mark } = outcome;
        if let Some(step) = step {
            self.steps.push(step)?;
        }
        if let Some(mark) = mark {
            let path = path.copy_of()?;
            self.rows.push(BaselineRow { path, mark })?;
        }
        Ok(())
    }
}

/// The holdings in byte order of their paths.
pub(crate) fn by_path<'a>(
    alloc: Global,
    holdings: &'a [Holding],
) -> Result<Vec<&'a Holding>, AllocError>
    requires { HaveOwnPaths holdings.now }
    ensures rise { IfOk result (λ living. HoldingsRise (map (λ holding. holding.now) living.items)) }
    ensures same { IfOk result (λ living. HoldTheSame holdings.now (map (λ holding. holding.now) living.items)) }
{
    let mut living = Vec::with_capacity(alloc, holdings.len())?;
    for holding in holdings {
        living.push(holding)?;
    }
    living.sort_by(|one, other| path_order(&one.path, &other.path))?;
    Ok(living)
}
