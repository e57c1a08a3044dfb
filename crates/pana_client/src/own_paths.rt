//! Holdings, each of which has a path of its own.
ghost use Rattle.std.specs.Prelude.{◌≡◌, IfOk, IsTrue};
ghost use Rattle.pana_calls.specs.Holdings.{HaveOwnPaths};

use crate::answer_reading::AnswerFault;
use indexmap::IndexSet;
use pana_calls::{Holding, HoldingList};
use std::alloc::Global;

/// The list of these holdings.
///
/// # Errors
///
/// `NoAnswer` where two of them have one path; `OutOfMemory`.
pub(crate) fn holding_list(
    alloc: Global,
    holdings: Vec<Holding>,
) -> Result<HoldingList, AnswerFault>
    ensures { IfOk result (λ list. list ≡ holdings.items) }
{
    if have_own_paths(alloc, holdings.as_slice())? {
        Ok(HoldingList::from_vec(holdings))
    } else {
        Err(AnswerFault::NoAnswer)
    }
}

/// Whether no two of the holdings have one path. O(holdings) on average.
fn have_own_paths(alloc: Global, holdings: &[Holding]) -> Result<bool, AnswerFault>
    ensures { IfOk result (λ own. IsTrue own → HaveOwnPaths holdings.now) }
{
    let mut paths = IndexSet::new(alloc);
    for holding in holdings {
        match paths.insert(holding.path.as_str()) {
            Ok(true) => {}
            Ok(false) => return Ok(false),
            Err(_) => return Err(AnswerFault::OutOfMemory),
        }
    }
    Ok(true)
}
