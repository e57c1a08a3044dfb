//! Reports of copies that are named by their places, made at a session.
ghost use Rattle.std.specs.Prelude.{◌≡◌, IfOk, IfErr};
ghost use Rattle.pana_calls.specs.Session.{one};
ghost use Rattle.pana_ask.specs.Looking.{LooksInVain};
ghost use Rattle.pana_ask.specs.Report.{IsCallFor, Reports, ReportsNothing, end_in, named};

use crate::ask_fault::AskFault;
use crate::looking::{copies_at, copy_at};
use crate::placed_report::PlacedReport;
use crate::report_end::ReportEnd;
use pana_calls::{Answer, Call, Session};
use pana_copies::DeviceName;

/// The call that makes a report: a session is asked for the numbers of its copies.
fn call_for<S: Session>(
    session: &mut S,
    by: &DeviceName,
    report: PlacedReport,
) -> Result<Call, AskFault>
    ensures ok { IfOk result (IsCallFor S.step by.now report session.old session.new) }
    ensures err { IfErr result (LooksInVain S.step (one S.fails) by.now (named report) session.old session.new) }
{
    match report {
        PlacedReport::Direct(call) => Ok(call),
        PlacedReport::One(place, what) => {
            match copy_at(session, by, &place) {
                Ok(copy) => Ok(Call::Report(what.report(copy))),
                Err(fault) => {
                    drop(what);
                    Err(fault)
                }
            }
        }
        PlacedReport::Two(first, second, what) => {
            match copies_at(session, by, &first, &second) {
                Ok((a, b)) => Ok(Call::Report(what.report(a, b))),
                Err(fault) => {
                    drop(what);
                    Err(fault)
                }
            }
        }
    }
}

/// What an answer says of the report, where it says something.
fn end_of(answer: Answer) -> Option<ReportEnd>
    ensures { result ≡ end_in answer }
{
    let end = ReportEnd::of(&answer);
    drop(answer);
    end
}

/// Reports something as the device `by`: asks a session for the numbers of the copies that it is about, makes the call, and has
/// what it has made kept.
///
/// # Errors
///
/// `NoCopy` with the first place where no copy is, and then nothing is reported; `OutOfMemory`, and then neither; `NoAnswer` where
/// a call has none, or what it has made can't be kept.
pub fn report_on<S: Session>(
    session: &mut S,
    by: &DeviceName,
    report: PlacedReport,
) -> Result<ReportEnd, AskFault>
    ensures ok { IfOk result (Reports S.step S.settles by.now report session.old session.new) }
    ensures err { IfErr result (ReportsNothing S.step S.settles (one S.fails) S.breaks_off by.now report session.old session.new) }
{
    let call = call_for(session, by, report)?;
    let end = end_of(session.call(by, call)?);
    session.settle()?;
    match end {
        Some(end) => Ok(end),
        None => Err(AskFault::NoAnswer),
    }
}
