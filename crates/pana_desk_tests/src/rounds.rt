//! A folder that is tracked by rounds of calls that are made together: how many lists they come in is said by no clause.

use pana_calls::{Answer, Call, HoldingList, Message, NoAnswer, Reply, Session};
use pana_copies::{CopyPath, DeviceName};
use pana_ignore::Patterns;
use pana_journal::ReportKind;
use pana_scan::{Found, Listing};
use pana_track::{TrackFault, TrackTally, TrackedListing, track};
use std::alloc::{AllocError, Global};
use std::marker::Model;
use std::test::Fail;

/// A session without holdings, which does so many calls, and then knows what is reported. One call may not be kept.
#[derive(Drop)]
struct Doing {
    alloc: Global,
    made: u64,
    most: u64,
    unkept: u64,
}

impl Session for Doing {
    ghost use Rattle.std.specs.Prelude.{◌≤◌};

    ghost step = { λ old by call answer new. old.made ≤ new.made };

    fn call(&mut self, _by: &DeviceName, call: Call) -> Result<Answer, NoAnswer> {
        if let Call::Query(_) = call {
            return Ok(Answer::Given(Reply::Holdings(HoldingList::new(self.alloc))));
        }
        self.made = self.made.saturating_add(1);
        if self.made == self.unkept {
            return Ok(Answer::NotKept);
        }
        if self.made > self.most {
            return Ok(Answer::Given(Reply::Known { copy: None }));
        }
        Ok(Answer::Given(Reply::Did {
            kind: ReportKind::Edit,
            entry: self.made,
        }))
    }

    fn settle(&mut self) -> Result<(), NoAnswer> {
        Ok(())
    }
}

/// The same, which keeps calls together, and counts the lists that they come in.
#[derive(Drop)]
struct Gathering {
    doing: Doing,
    lists: u64,
}

impl Model for Gathering {
    ghost use Rattle.pana_desk_tests.specs.declared.rounds.Doing.{Doing};

    ghost Value = { Doing };

    ghost view = { λ session. session.doing };
}

impl Session for Gathering {
    ghost use Rattle.std.specs.Prelude.{◌≤◌, true};

    ghost step = { λ old by call answer new. old.made ≤ new.made };

    ghost keeps_together = { true };

    fn call(&mut self, by: &DeviceName, call: Call) -> Result<Answer, NoAnswer> {
        self.doing.call(by, call)
    }

    fn call_all(&mut self, calls: Vec<Message>, answers: &mut Vec<Answer>) -> Result<(), NoAnswer> {
        self.lists = self.lists.saturating_add(1);
        self.doing.call_all(calls, answers)
    }

    fn keeps_together(&self) -> bool {
        true
    }

    fn settle(&mut self) -> Result<(), NoAnswer> {
        Ok(())
    }
}

fn session_of(alloc: Global, most: u64, unkept: u64) -> Gathering {
    Gathering {
        doing: Doing {
            alloc,
            made: 0,
            most,
            unkept,
        },
        lists: 0,
    }
}

/// So many files, 1,000 at most.
fn files(alloc: Global, count: u64) -> Result<TrackedListing, AllocError> {
    let Ok(device) = DeviceName::new("usb") else {
        return Err(AllocError);
    };
    let mut listing = Listing::new(alloc, device);
    for number in 0..count.min(1000) {
        let name = format!(in alloc; "{}", 1000 + number)?;
        let Ok(path) = CopyPath::new(alloc, name.as_str()) else {
            return Err(AllocError);
        };
        if listing.is_above(&path) {
            listing.push(path, Found::Seen([7; 32]))?;
        }
    }
    Ok(TrackedListing {
        listing,
        patterns: Patterns::new(alloc),
    })
}

#[test]
fn files_of_which_something_was_done_are_reported_in_the_next_round(
    rt: HostRuntime,
) -> Result<(), Fail> {
    let alloc = rt.alloc();
    let found = files(alloc, 250)?;
    let mut session = session_of(alloc, 130, 0);
    let mut tally = TrackTally::new();
    let end = track(alloc, &mut session, &found, false, &mut tally);
    assert_eq!(rt; end, Ok(None));
    assert_eq!(rt; session.lists, 5);
    assert_eq!(rt; session.doing.made, 380);
    assert_eq!(rt; tally.done, 130);
    Ok(())
}

#[test]
fn it_stops_behind_a_list_with_a_report_that_is_not_kept(rt: HostRuntime) -> Result<(), Fail> {
    let alloc = rt.alloc();
    let found = files(alloc, 250)?;
    let mut session = session_of(alloc, 1000, 120);
    let mut tally = TrackTally::new();
    let end = track(alloc, &mut session, &found, false, &mut tally);
    assert_eq!(rt; end, Ok(Some(TrackFault::NotKept)));
    assert_eq!(rt; session.lists, 2);
    assert_eq!(rt; session.doing.made, 200);
    assert_eq!(rt; tally.done, 199);
    Ok(())
}
