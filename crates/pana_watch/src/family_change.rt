//! What has become of a family.
ghost use Rattle.std.specs.Prelude.{◌≡◌, IfOk, string_bytes};
ghost use Rattle.pana_watch.specs.Line.{change_line, split_word};
ghost use Rattle.pana_watch.specs.Watch.{change_of};

use std::alloc::{AllocError, Global};

/// A family that has become split, or whole.
#[derive(Clone, Copy)]
pub struct FamilyChange {
    pub family: u64,
    pub split: bool,
}

impl FamilyChange {
    /// What has become of a family that was split or not, and is now or isn't.
    pub(crate) fn of(family: u64, was: bool, is: bool) -> Option<FamilyChange>
        ensures { result ≡ change_of family was is }
    {
        match (was, is) {
            (true, false) => Some(FamilyChange {
                family,
                split: false,
            }),
            (false, true) => Some(FamilyChange {
                family,
                split: true,
            }),
            _ => None,
        }
    }
}

fn split_word(split: bool) -> &'static str
    ensures { result.now ≡ split_word split }
{
    if split { "split" } else { "whole" }
}

/// The line that says what has become of a family. Fails only where memory runs out.
pub fn change_line(alloc: Global, change: FamilyChange) -> Result<String, AllocError>
    ensures { IfOk result (λ line. string_bytes line ≡ change_line change) }
{
    let word = split_word(change.split);
    format!(in alloc; "family {} is {word}\n", change.family)
}
