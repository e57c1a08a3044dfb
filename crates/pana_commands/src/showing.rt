//! Lines made as calls on a new hall, and its tables in place of the answers.
ghost use Rattle.std.specs.Prelude.{◌≡◌, ◌++◌, [], IfOk, OnOk, option_map, string_bytes};
ghost use Rattle.pana_wire.specs.Lines.{texts};
ghost use Rattle.pana_commands.specs.Show.{AnswersLines, status_of, TakesLine, TakesLines, report_of, shown_reason, why_not};
ghost use Rattle.pana_commands.specs.Tables.{tables_text};

use crate::printout::Printout;
use crate::tables::tables_of;
use pana_calls::{Cause, Message, Reply};
use pana_hall::Hall;
use pana_wire::{WireFault, decode, split_lines};
use std::alloc::{AllocError, Global};
use std::fmt;

/// Why a line wasn't done.
#[derive(Clone, Copy)]
pub enum Reason {
    /// It makes no call.
    Fault(WireFault),
    /// Its call was refused.
    Refused(Cause),
}

impl fmt::Display for Reason {
    ghost use Rattle.std.specs.Prelude.{Some};
    ghost use Rattle.pana_commands.specs.Show.{shown_reason};

    ghost output = { λ reason. Some (shown_reason reason) };

    fn fmt<W: fmt::Write>(&self, f: &mut fmt::Formatter<W>) -> fmt::Result {
        match self {
            Reason::Fault(fault) => write!(f, "{fault}"),
            Reason::Refused(cause) => write!(f, "{cause}"),
        }
    }
}

/// Why a call with this reply wasn't done, where it was refused.
fn why_not(reply: &Reply) -> Option<Reason>
    ensures { option_map shown_reason result ≡ why_not reply.now }
{
    match reply {
        Reply::Refused(cause) => Some(Reason::Refused(*cause)),
        _ => None,
    }
}

/// Makes a line's call on the hall, and returns why it wasn't done, where it wasn't.
fn take_line(alloc: Global, hall: &mut Hall, line: &[u8]) -> Option<Reason>
    ensures { TakesLine hall.old line.now (option_map shown_reason result) hall.new }
{
    let Message { by, call } = match decode(alloc, line) {
        Ok(message) => message,
        Err(fault) => return Some(Reason::Fault(fault)),
    };
    let reply = hall.apply(&by, call);
    why_not(&reply)
}

/// Appends the report about a line that wasn't done.
fn push_report(
    alloc: Global,
    reports: &mut String,
    number: u64,
    reason: Option<Reason>,
) -> Result<(), AllocError>
    ensures { OnOk result (string_bytes reports.new ≡ string_bytes reports.old ++ report_of number (option_map shown_reason reason)) }
{
    match reason {
        Some(reason) => {
            let report = format!(in alloc; "panad: line {number}: {reason}\n")?;
            reports.push_str(report.as_str())
        }
        None => Ok(()),
    }
}

/// Makes the calls of all lines on the hall, and returns the reports about those that weren't done. Fails only where
/// memory runs out for these.
fn take_lines(alloc: Global, hall: &mut Hall, lines: &[&[u8]]) -> Result<String, AllocError>
    ensures { IfOk result (λ reports. TakesLines 1 hall.old (texts lines.now) (string_bytes reports) hall.new) }
{
    let mut reports = String::new(alloc);
    for (index, line) in lines.iter().enumerate() {
        let reason = take_line(alloc, hall, line);
        push_report(alloc, &mut reports, index as u64 + 1, reason)?;
    }
    Ok(reports)
}

/// The exit status, where this is reported.
fn status_of(err: &str) -> u8
    ensures { result ≡ status_of err.now }
{
    if err.is_empty() { 0 } else { 1 }
}

/// Makes the calls of all lines on the hall, and returns its tables and the reports.
fn show_lines(
    alloc: Global,
    terminal: Option<usize>,
    hall: &mut Hall,
    lines: &[&[u8]],
) -> Result<Printout, AllocError>
    ensures takes { IfOk result (λ answer. TakesLines 1 hall.old (texts lines.now) (string_bytes answer.err) hall.new) }
    ensures out { IfOk result (λ answer. string_bytes answer.out ≡ tables_text terminal hall.new) }
    ensures status { IfOk result (λ answer. answer.status ≡ status_of (string_bytes answer.err)) }
{
    let err = take_lines(alloc, hall, lines)?;
    let out = tables_of(alloc, terminal, hall)?;
    let status = status_of(err.as_str());
    Ok(Printout { out, err, status })
}

/// Takes lines as a session does, and returns the tables of the families that they leave, for standard output, and for
/// standard error a report about each line that was faulty or refused, with its number from 1; the status is 1 where
/// there is one. The tables are for a terminal of this width, where one is given. The hall's memory is kept until the
/// program ends.
///
/// # Errors
///
/// `AllocError` where an allocation failed for the hall, the tables or the reports. One that failed for a line is
/// reported as that line's.
pub fn show_on(alloc: Global, terminal: Option<usize>, bytes: &[u8]) -> Result<Printout, AllocError>
    ensures { IfOk result (AnswersLines terminal bytes.now) }
{
    let lines = split_lines(alloc, bytes)?;
    let mut hall = Hall::new(alloc)?;
    let shown = show_lines(alloc, terminal, &mut hall, lines.as_slice());
    // The program ends behind this, and the system takes all pages back at once.
    std::mem::forget(hall);
    shown
}
