//! What words of a command line report.
ghost use Rattle.std.specs.Prelude.{◌≡◌, IfErr, IfOk};
ghost use Rattle.pana_ask.specs.Words.{AreRefused, IsFault, Spells, word_name};

use crate::placed_report::{OneCopyReport, PlacedReport, TwoCopyReport};
use crate::report_word::ReportWord;
use crate::words::{Words, WordsFault};
use pana_calls::{Call, Sighting};
use pana_journal::Report;
use std::alloc::Global;

/// `register PLACE [--sum SUM]`
fn register<'a>(alloc: Global, words: &Words<'a>) -> Result<PlacedReport, WordsFault<'a>>
    requires { words.now.word.now ≡ word_name ReportWord.Register }
    ensures ok { IfOk result (Spells words.now) }
    ensures err { IfErr result (IsFault words.now ReportWord.Register) }
{
    words.without_heir(ReportWord::Register)?;
    let place = words.place(alloc, ReportWord::Register)?;
    let sum = words.sum(alloc, ReportWord::Register)?;
    Ok(PlacedReport::Direct(Call::Report(Report::Register { place, sum })))
}

/// `duplicate PLACE PLACE [--sum SUM]`
fn duplicate<'a>(alloc: Global, words: &Words<'a>) -> Result<PlacedReport, WordsFault<'a>>
    requires { words.now.word.now ≡ word_name ReportWord.Duplicate }
    ensures ok { IfOk result (Spells words.now) }
    ensures err { IfErr result (IsFault words.now ReportWord.Duplicate) }
{
    words.without_heir(ReportWord::Duplicate)?;
    let (source, place) = words.places(alloc, ReportWord::Duplicate)?;
    let sum = words.sum(alloc, ReportWord::Duplicate)?;
    Ok(PlacedReport::One(source, OneCopyReport::Duplicate { place, sum }))
}

/// `edit PLACE [--sum SUM]`
fn edit<'a>(alloc: Global, words: &Words<'a>) -> Result<PlacedReport, WordsFault<'a>>
    requires { words.now.word.now ≡ word_name ReportWord.Edit }
    ensures ok { IfOk result (Spells words.now) }
    ensures err { IfErr result (IsFault words.now ReportWord.Edit) }
{
    words.without_heir(ReportWord::Edit)?;
    let place = words.place(alloc, ReportWord::Edit)?;
    let sum = words.sum(alloc, ReportWord::Edit)?;
    Ok(PlacedReport::One(place, OneCopyReport::Edit { sum }))
}

/// `reconcile PLACE PLACE [--sum SUM]`
fn reconcile<'a>(alloc: Global, words: &Words<'a>) -> Result<PlacedReport, WordsFault<'a>>
    requires { words.now.word.now ≡ word_name ReportWord.Reconcile }
    ensures ok { IfOk result (Spells words.now) }
    ensures err { IfErr result (IsFault words.now ReportWord.Reconcile) }
{
    words.without_heir(ReportWord::Reconcile)?;
    let (a, b) = words.places(alloc, ReportWord::Reconcile)?;
    let sum = words.sum(alloc, ReportWord::Reconcile)?;
    Ok(PlacedReport::Two(a, b, TwoCopyReport::Reconcile { sum }))
}

/// `merge PLACE PLACE [--sum SUM]`
fn merge<'a>(alloc: Global, words: &Words<'a>) -> Result<PlacedReport, WordsFault<'a>>
    requires { words.now.word.now ≡ word_name ReportWord.Merge }
    ensures ok { IfOk result (Spells words.now) }
    ensures err { IfErr result (IsFault words.now ReportWord.Merge) }
{
    words.without_heir(ReportWord::Merge)?;
    let (a, b) = words.places(alloc, ReportWord::Merge)?;
    let sum = words.sum(alloc, ReportWord::Merge)?;
    Ok(PlacedReport::Two(a, b, TwoCopyReport::Merge { sum }))
}

/// `relocate PLACE PLACE`
fn relocate<'a>(alloc: Global, words: &Words<'a>) -> Result<PlacedReport, WordsFault<'a>>
    requires { words.now.word.now ≡ word_name ReportWord.Relocate }
    ensures ok { IfOk result (Spells words.now) }
    ensures err { IfErr result (IsFault words.now ReportWord.Relocate) }
{
    words.without_heir(ReportWord::Relocate)?;
    words.without_sum(ReportWord::Relocate)?;
    let (source, place) = words.places(alloc, ReportWord::Relocate)?;
    Ok(PlacedReport::One(source, OneCopyReport::Relocate { place }))
}

/// `remove PLACE [--heir PLACE]`
fn remove<'a>(alloc: Global, words: &Words<'a>) -> Result<PlacedReport, WordsFault<'a>>
    requires { words.now.word.now ≡ word_name ReportWord.Remove }
    ensures ok { IfOk result (Spells words.now) }
    ensures err { IfErr result (IsFault words.now ReportWord.Remove) }
{
    words.without_sum(ReportWord::Remove)?;
    let place = words.place(alloc, ReportWord::Remove)?;
    match words.heir(alloc, ReportWord::Remove)? {
        Some(heir) => Ok(PlacedReport::Two(place, heir, TwoCopyReport::RemoveFor)),
        None => Ok(PlacedReport::One(place, OneCopyReport::Remove)),
    }
}

/// `note PLACE --sum SUM`
fn note<'a>(alloc: Global, words: &Words<'a>) -> Result<PlacedReport, WordsFault<'a>>
    requires { words.now.word.now ≡ word_name ReportWord.Note }
    ensures ok { IfOk result (Spells words.now) }
    ensures err { IfErr result (IsFault words.now ReportWord.Note) }
{
    words.without_heir(ReportWord::Note)?;
    let place = words.place(alloc, ReportWord::Note)?;
    let sum = words.needed_sum(alloc, ReportWord::Note)?;
    Ok(PlacedReport::One(place, OneCopyReport::Note { sum }))
}

/// `confirm ENTRY`
fn confirm<'a>(alloc: Global, words: &Words<'a>) -> Result<PlacedReport, WordsFault<'a>>
    requires { words.now.word.now ≡ word_name ReportWord.Confirm }
    ensures ok { IfOk result (Spells words.now) }
    ensures err { IfErr result (IsFault words.now ReportWord.Confirm) }
{
    words.without_heir(ReportWord::Confirm)?;
    words.without_sum(ReportWord::Confirm)?;
    let entry = words.entry(alloc, ReportWord::Confirm)?;
    Ok(PlacedReport::Direct(Call::Report(Report::Confirm { entry })))
}

/// `withdraw ENTRY`
fn withdraw<'a>(alloc: Global, words: &Words<'a>) -> Result<PlacedReport, WordsFault<'a>>
    requires { words.now.word.now ≡ word_name ReportWord.Withdraw }
    ensures ok { IfOk result (Spells words.now) }
    ensures err { IfErr result (IsFault words.now ReportWord.Withdraw) }
{
    words.without_heir(ReportWord::Withdraw)?;
    words.without_sum(ReportWord::Withdraw)?;
    let entry = words.entry(alloc, ReportWord::Withdraw)?;
    Ok(PlacedReport::Direct(Call::Report(Report::Withdraw { entry })))
}

/// `found PLACE --sum SUM`
fn found<'a>(alloc: Global, words: &Words<'a>) -> Result<PlacedReport, WordsFault<'a>>
    requires { words.now.word.now ≡ word_name ReportWord.Found }
    ensures ok { IfOk result (Spells words.now) }
    ensures err { IfErr result (IsFault words.now ReportWord.Found) }
{
    words.without_heir(ReportWord::Found)?;
    let place = words.place(alloc, ReportWord::Found)?;
    let sum = words.needed_sum(alloc, ReportWord::Found)?;
    Ok(PlacedReport::Direct(Call::Sighting(Sighting::Found { place, sum })))
}

/// `missing PLACE`
fn missing<'a>(alloc: Global, words: &Words<'a>) -> Result<PlacedReport, WordsFault<'a>>
    requires { words.now.word.now ≡ word_name ReportWord.Missing }
    ensures ok { IfOk result (Spells words.now) }
    ensures err { IfErr result (IsFault words.now ReportWord.Missing) }
{
    words.without_heir(ReportWord::Missing)?;
    words.without_sum(ReportWord::Missing)?;
    let place = words.place(alloc, ReportWord::Missing)?;
    Ok(PlacedReport::Direct(Call::Sighting(Sighting::Missing { place })))
}

/// What the words report.
///
/// # Errors
///
/// Why they report nothing, as the variants of `WordsFault` say; where several reasons hold, one of them.
pub fn read_report<'a>(alloc: Global, words: &Words<'a>) -> Result<PlacedReport, WordsFault<'a>>
    ensures ok { IfOk result (Spells words.now) }
    ensures err { IfErr result (AreRefused words.now) }
{
    let Some(word) = ReportWord::of(words.word) else {
        return Err(WordsFault::Word(words.word));
    };
    match word {
        ReportWord::Register => register(alloc, words),
        ReportWord::Duplicate => duplicate(alloc, words),
        ReportWord::Edit => edit(alloc, words),
        ReportWord::Reconcile => reconcile(alloc, words),
        ReportWord::Merge => merge(alloc, words),
        ReportWord::Relocate => relocate(alloc, words),
        ReportWord::Remove => remove(alloc, words),
        ReportWord::Note => note(alloc, words),
        ReportWord::Confirm => confirm(alloc, words),
        ReportWord::Withdraw => withdraw(alloc, words),
        ReportWord::Found => found(alloc, words),
        ReportWord::Missing => missing(alloc, words),
    }
}
