//! Reports as words of a command line.
ghost use Rattle.std.specs.Prelude.{◌≡◌, ◌⊎◌, [], ◌∷◌, None, Some, true, false, IfErr, IfOk, OnOk, decimal, option_copied, option_map};
ghost use Rattle.pana_copies.specs.Sums.{is_sum};
ghost use Rattle.pana_ask.specs.Place.{is_place, place_name};
ghost use Rattle.pana_ask.specs.Texts.{texts};
ghost use Rattle.pana_ask.specs.Words.{IsFault, count_of, needs_sum, takes_heir, takes_sum};

use crate::naming::read_place;
use crate::report_word::ReportWord;
use pana_copies::{NameFault, Place, Sum};
use std::alloc::{AllocError, Global};

/// The words of a report.
#[derive(Clone, Copy)]
pub struct Words<'a> {
    /// What is reported, as `edit`.
    pub word: &'a str,
    /// The places that it is about, as `usb:plan.txt`, or the number of the entry.
    pub names: &'a [&'a str],
    /// The sum of the bytes.
    pub sum: Option<&'a str>,
    /// The place of the heir of a copy that is removed.
    pub heir: Option<&'a str>,
}

/// Why words say no report.
#[derive(Clone, Copy)]
pub enum WordsFault<'a> {
    /// This is no word for a report.
    Word(&'a str),
    /// This is no place.
    Place(&'a str),
    /// This is no sum.
    Sum(&'a str),
    /// This is no number of an entry, without a sign and zeros before it.
    Entry(&'a str),
    /// The report is about another number of places or entries.
    Count(ReportWord),
    /// The report has to have a sum.
    NoSum(ReportWord),
    /// The report has no sum.
    NeedlessSum(ReportWord),
    /// The report has no heir.
    NeedlessHeir(ReportWord),
    /// An allocation failed.
    OutOfMemory,
}

impl<'a> From<AllocError> for WordsFault<'a> {
    ghost use Rattle.std.specs.Prelude.{◌≡◌};
    ghost use Rattle.pana_ask.specs.declared.words.WordsFault.TheVariants as faults;

    ghost from_gives = { λ error fault. fault ≡ faults.OutOfMemory };

    fn from(_: AllocError) -> WordsFault<'a> {
        WordsFault::OutOfMemory
    }
}

/// The place with this name.
fn place_of<'a>(alloc: Global, name: &'a str) -> Result<Place, WordsFault<'a>>
    ensures ok { IfOk result (λ place. place_name place ≡ name.now) }
    ensures err { IfErr result (λ fault. (fault ≡ WordsFault.OutOfMemory) ⊎ ((fault ≡ WordsFault.Place name.entry) × (is_place name.now ≡ false))) }
{
    match read_place(alloc, name) {
        Ok(place) => Ok(place),
        Err(NameFault::OutOfMemory) => Err(WordsFault::OutOfMemory),
        Err(_) => Err(WordsFault::Place(name)),
    }
}

/// The sum with this text.
fn sum_of<'a>(alloc: Global, text: &'a str) -> Result<Sum, WordsFault<'a>>
    ensures ok { IfOk result (λ sum. sum ≡ text.now) }
    ensures err { IfErr result (λ fault. (fault ≡ WordsFault.OutOfMemory) ⊎ ((fault ≡ WordsFault.Sum text.entry) × (is_sum text.now ≡ false))) }
{
    match Sum::new(alloc, text) {
        Ok(sum) => Ok(sum),
        Err(NameFault::OutOfMemory) => Err(WordsFault::OutOfMemory),
        Err(_) => Err(WordsFault::Sum(text)),
    }
}

impl<'a> Words<'a> {
    /// The one name that there is to be.
    fn one_name(&self, word: ReportWord) -> Result<&'a str, WordsFault<'a>>
        requires { count_of word ≡ 1 }
        ensures ok { IfOk result (λ name. texts self.now.names.now ≡ name.now ∷ []) }
        ensures err { IfErr result (IsFault self.now word) }
    {
        match self.names {
            [name] => Ok(name),
            _ => Err(WordsFault::Count(word)),
        }
    }

    /// The one place that there is to be.
    pub(crate) fn place(&self, alloc: Global, word: ReportWord) -> Result<Place, WordsFault<'a>>
        requires { count_of word ≡ 1 }
        ensures ok { IfOk result (λ place. texts self.now.names.now ≡ place_name place ∷ []) }
        ensures err { IfErr result (IsFault self.now word) }
    {
        place_of(alloc, self.one_name(word)?)
    }

    /// The two places that there are to be.
    pub(crate) fn places(
        &self,
        alloc: Global,
        word: ReportWord,
    ) -> Result<(Place, Place), WordsFault<'a>>
        requires { count_of word ≡ 2 }
        ensures ok { IfOk result (λ places. texts self.now.names.now ≡ place_name places.0 ∷ place_name places.1 ∷ []) }
        ensures err { IfErr result (IsFault self.now word) }
    {
        match self.names {
            [first, second] => Ok((place_of(alloc, first)?, place_of(alloc, second)?)),
            _ => Err(WordsFault::Count(word)),
        }
    }

    /// The number of the one entry that there is to be.
    pub(crate) fn entry(&self, alloc: Global, word: ReportWord) -> Result<u64, WordsFault<'a>>
        requires { count_of word ≡ 1 }
        ensures ok { IfOk result (λ entry. texts self.now.names.now ≡ decimal entry ∷ []) }
        ensures err { IfErr result (IsFault self.now word) }
    {
        let name = self.one_name(word)?;
        let Ok(entry) = name.parse::<u64>() else {
            return Err(WordsFault::Entry(name));
        };
        if entry.to_string(alloc)?.as_str() != name {
            return Err(WordsFault::Entry(name));
        }
        Ok(entry)
    }

    /// The sum, where there is one.
    pub(crate) fn sum(&self, alloc: Global, word: ReportWord) -> Result<Option<Sum>, WordsFault<'a>>
        ensures ok { IfOk result (λ sum. option_copied self.now.sum ≡ sum) }
        ensures err { IfErr result (IsFault self.now word) }
    {
        match self.sum {
            Some(text) => Ok(Some(sum_of(alloc, text)?)),
            None => Ok(None),
        }
    }

    /// The sum that there is to be.
    pub(crate) fn needed_sum(&self, alloc: Global, word: ReportWord) -> Result<Sum, WordsFault<'a>>
        requires { needs_sum word ≡ true }
        ensures ok { IfOk result (λ sum. option_copied self.now.sum ≡ Some sum) }
        ensures err { IfErr result (IsFault self.now word) }
    {
        match self.sum {
            Some(text) => sum_of(alloc, text),
            None => Err(WordsFault::NoSum(word)),
        }
    }

    /// Refuses a sum.
    pub(crate) fn without_sum(&self, word: ReportWord) -> Result<(), WordsFault<'a>>
        requires { takes_sum word ≡ false }
        ensures ok { OnOk result (option_copied self.now.sum ≡ None) }
        ensures err { IfErr result (IsFault self.now word) }
    {
        match self.sum {
            Some(_) => Err(WordsFault::NeedlessSum(word)),
            None => Ok(()),
        }
    }

    /// Refuses an heir.
    pub(crate) fn without_heir(&self, word: ReportWord) -> Result<(), WordsFault<'a>>
        requires { takes_heir word ≡ false }
        ensures ok { OnOk result (option_copied self.now.heir ≡ None) }
        ensures err { IfErr result (IsFault self.now word) }
    {
        match self.heir {
            Some(_) => Err(WordsFault::NeedlessHeir(word)),
            None => Ok(()),
        }
    }

    /// The heir, where there is one.
    pub(crate) fn heir(
        &self,
        alloc: Global,
        word: ReportWord,
    ) -> Result<Option<Place>, WordsFault<'a>>
        ensures ok { IfOk result (λ heir. option_copied self.now.heir ≡ option_map place_name heir) }
        ensures err { IfErr result (IsFault self.now word) }
    {
        match self.heir {
            Some(name) => Ok(Some(place_of(alloc, name)?)),
            None => Ok(None),
        }
    }
}
