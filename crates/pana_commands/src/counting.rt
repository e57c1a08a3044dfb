//! How many copies there are, in words.
ghost use Rattle.std.specs.Prelude.{◌≡◌, ◌++◌, IfOk, OnOk, string_bytes};
ghost use Rattle.pana_commands.specs.Counts.{counts_line, digit_text, grouped, in_conflict_of, is_in_conflict, is_obsolete, number_text, obsolete_of, so_many, total_text};

use pana_calls::{CopyState, HallCounts, StatusRow};
use std::alloc::{AllocError, Global};

/// Appends a digit, and a comma behind it where three, six or more others follow.
fn push_digit(text: &mut String, digit: u8, others: usize) -> Result<(), AllocError>
    ensures { OnOk result (string_bytes text.new ≡ string_bytes text.old ++ digit_text digit others) }
{
    text.push(digit as char)?;
    if others != 0 && others % 3 == 0 {
        return text.push_str(",");
    }
    Ok(())
}

/// Appends digits with such commas.
#[tactic(auto, using(crate::proofs::Grouped::grouped_more))]
fn push_grouped(text: &mut String, digits: &[u8]) -> Result<(), AllocError>
    ensures { OnOk result (string_bytes text.new ≡ string_bytes text.old ++ grouped digits.now) }
{
    let Some((digit, others)) = digits.split_first() else {
        return Ok(());
    };
    push_digit(text, *digit, others.len())?;
    push_grouped(text, others)
}

/// A number with a comma between each three digits.
fn number_text(alloc: Global, number: u64) -> Result<String, AllocError>
    ensures { IfOk result (λ text. string_bytes text ≡ number_text number) }
{
    let digits = number.to_string(alloc)?;
    let mut text = String::new(alloc);
    push_grouped(&mut text, digits.as_str().as_bytes())?;
    Ok(text)
}

/// So many things.
fn so_many(alloc: Global, number: u64, one: &str, many: &str) -> Result<String, AllocError>
    ensures { IfOk result (λ text. string_bytes text ≡ so_many number one.now many.now) }
{
    let digits = number_text(alloc, number)?;
    let things = if number == 1 { one } else { many };
    format!(in alloc; "{} {things}", digits.as_str())
}

/// All copies, where they were asked for.
fn total_text(alloc: Global, total: Option<HallCounts>) -> Result<String, AllocError>
    ensures { IfOk result (λ text. string_bytes text ≡ total_text total) }
{
    match total {
        Some(total) => {
            let copies = so_many(alloc, total.copies, "copy", "copies")?;
            let devices = so_many(alloc, total.devices, "device", "devices")?;
            format!(in alloc; "{} on {}: ", copies.as_str(), devices.as_str())
        }
        None => Ok(String::new(alloc)),
    }
}

fn is_obsolete(state: CopyState) -> bool
    ensures { result ≡ is_obsolete state }
{
    match state {
        CopyState::Newest => false,
        CopyState::Obsolete => true,
        CopyState::Conflict => false,
    }
}

fn is_in_conflict(state: CopyState) -> bool
    ensures { result ≡ is_in_conflict state }
{
    match state {
        CopyState::Newest => false,
        CopyState::Obsolete => false,
        CopyState::Conflict => true,
    }
}

/// How many of these copies are obsolete.
fn obsolete_of(rows: &[StatusRow]) -> usize
    ensures { result ≡ obsolete_of rows.now }
{
    rows.iter().filter(|row| is_obsolete(row.state)).count()
}

/// How many of these copies are in conflict.
fn in_conflict_of(rows: &[StatusRow]) -> usize
    ensures { result ≡ in_conflict_of rows.now }
{
    rows.iter().filter(|row| is_in_conflict(row.state)).count()
}

/// The line of counts, with its newline: how many copies there are, where that was asked for, and how many of these rows are
/// obsolete and in conflict.
#[tactic(auto, unfolding(crate::specs::Counts::counts_line))]
pub(crate) fn counts_line(
    alloc: Global,
    total: Option<HallCounts>,
    rows: &[StatusRow],
) -> Result<String, AllocError>
    ensures { IfOk result (λ text. string_bytes text ≡ counts_line total rows.now) }
{
    let before = total_text(alloc, total)?;
    let obsolete = number_text(alloc, obsolete_of(rows) as u64)?;
    let conflicts = number_text(alloc, in_conflict_of(rows) as u64)?;
    format!(in alloc;
        "{}{} obsolete, {} in conflict\n",
        before.as_str(),
        obsolete.as_str(),
        conflicts.as_str()
    )
}
