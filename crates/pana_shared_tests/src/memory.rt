//! A log in memory.
ghost use Rattle.std.specs.Prelude.{◌≡◌, ◌≢◌, ◌<◌, ◌≤◌, [], false, length, IsTrue, IfOk, map};
ghost use Rattle.pana_shared.specs.Log.{IsAt, Reads, asked, ours};
ghost use Rattle.pana_shared_tests.specs.declared.memory.Fate.TheVariants.{Full};
ghost use Rattle.pana_shared_tests.specs.Memory.{ComeOf, ComesTo, IsFate, IsFound, LandsOf, is_silent, put_at, seen_of, silences_of};

use pana_shared::{Appended, ReadFault, Record, SharedLog};
use std::alloc::{AllocError, Global};
use std::collections::VecDeque;

/// What happens before one call of a log.
#[derive(Drop)]
pub struct Moment {
    /// Others append these. Records of the log's own writer are left out.
    pub others: Vec<Record>,
    /// Behind them the group that was asked for last lands, if its place is free.
    pub lands: bool,
}

/// What comes of one append.
#[derive(Clone, Copy, Debug, PartialEq, Eq)]
pub enum Fate {
    /// It is answered.
    Answered,
    /// The records are put, where their place is free, and the answer is lost.
    PutUnanswered,
    /// The same, and what keeps the log is asked once more before it answers: so it finds the records themselves.
    PutTwice,
    /// They aren't put now, and there is no answer.
    NotPut,
    /// The log takes no more.
    Full,
}

/// A log in memory, as one of its writers sees it: what others append, and what comes of its own appends, goes by a plan. Behind the
/// plan nobody else appends, and each append is answered.
#[derive(Drop)]
pub struct MemoryShared {
    pub alloc: Global,
    pub records: Vec<Record>,
    pub writer: u64,
    /// The place of the last append, and the groups that were asked for there, the last one first.
    pub at: u64,
    pub loose: Vec<Vec<Record>>,
    pub moments: VecDeque<Moment>,
    pub fates: VecDeque<Fate>,
    /// How many records a page has at most.
    pub most: usize,
}

/// The records once more. Fails only where memory runs out.
pub fn copy_group(alloc: Global, group: &[Record]) -> Result<Vec<Record>, AllocError>
    ensures { IfOk result (λ copy. copy.items ≡ group.now) }
{
    let mut copy = Vec::new(alloc);
    for record in group {
        copy.push(Record {
            entry: record.entry.copy_of(alloc)?,
            writer: record.writer,
            turn: record.turn,
        })?;
    }
    Ok(copy)
}

/// Whether all records are the writer's.
fn is_own(group: &[Record], writer: u64) -> bool
    ensures { IsTrue result → ours writer group.now ≡ group.now }
{
    for record in group {
        if record.writer != writer {
            return false;
        }
    }
    true
}

/// Appends a record, if it isn't the writer's, and memory is there.
fn add(records: &mut Vec<Record>, writer: u64, record: Record)
    ensures { ComeOf writer records.old.items records.new.items }
{
    if record.writer == writer || records.reserve(1).is_err() {
        return;
    }
    records.push_reserved(record);
}

/// Appends the records that aren't the writer's, as many as there is memory for.
fn come(records: &mut Vec<Record>, writer: u64, others: Vec<Record>)
    ensures { ComeOf writer records.old.items records.new.items }
{
    for record in others {
        add(records, writer, record);
    }
}

/// Appends the first of these groups, if the place is free, and memory is there.
fn land(alloc: Global, records: &mut Vec<Record>, writer: u64, at: u64, loose: &[Vec<Record>])
    ensures { LandsOf writer at (map (λ g. g.items) loose.now) records.old.items records.new.items }
{
    if loose.is_empty() || records.len() as u64 != at || !is_own(&loose[0], writer) {
        return;
    }
    let Ok(mut copy) = copy_group(alloc, &loose[0]) else {
        return;
    };
    let _ = records.append(&mut copy);
}

impl MemoryShared {
    ghost use Rattle.pana_shared_store.specs.Store.{IsFresh};

    /// The log of a writer that has put nothing, in which others' records stand already, as it goes on by this plan. A page has so many
    /// records at most, and one at least.
    pub fn new(
        alloc: Global,
        writer: u64,
        others: Vec<Record>,
        moments: VecDeque<Moment>,
        fates: VecDeque<Fate>,
        most: usize,
    ) -> MemoryShared
        ensures { IsFresh (seen_of result) }
    {
        let mut records = Vec::new(alloc);
        come(&mut records, writer, others);
        MemoryShared {
            alloc,
            records,
            writer,
            at: 0,
            loose: Vec::new(alloc),
            moments,
            fates,
            most,
        }
    }

    /// What happens before a call.
    fn wait(&mut self)
        ensures reads { Reads (seen_of self.old) (seen_of self.new) }
        ensures fates { self.new.fates ≡ self.old.fates }
    {
        let Some(moment) = self.moments.pop_front() else {
            return;
        };
        come(&mut self.records, self.writer, moment.others);
        if moment.lands {
            land(
                self.alloc,
                &mut self.records,
                self.writer,
                self.at,
                self.loose.as_slice(),
            );
        }
    }

    /// What is to come of an append, by the plan.
    fn next_fate(&mut self) -> Fate
        ensures seen { seen_of self.new ≡ seen_of self.old }
        ensures left { IsFate (is_silent result) (silences_of self.old) (silences_of self.new) }
    {
        self.fates.pop_front().unwrap_or(Fate::Answered)
    }

    /// Remembers that a group was asked for at this place, and forgets those that were at another. Returns whether memory is there for
    /// it; else nothing changes.
    fn ask(&mut self, at: u64, group: &[Record]) -> bool
        ensures asked { IsTrue result → seen_of self.new ≡ asked (seen_of self.old) at group.now }
        ensures same { result ≡ false → seen_of self.new ≡ seen_of self.old }
        ensures records { self.new.records ≡ self.old.records }
        ensures fates { self.new.fates ≡ self.old.fates }
    {
        let Ok(copy) = copy_group(self.alloc, group) else {
            return false;
        };
        if self.loose.insert(0, copy).is_err() {
            return false;
        }
        if self.at != at {
            self.loose.truncate(1);
            self.at = at;
        }
        true
    }

    /// Remembers that a group was asked for at this place, and appends it. Returns whether memory is there for it; else nothing changes.
    fn put(&mut self, at: u64, group: &[Record]) -> bool
        ensures put { IsTrue result → seen_of self.new ≡ put_at (seen_of self.old) at group.now }
        ensures same { result ≡ false → seen_of self.new ≡ seen_of self.old }
        ensures fates { self.new.fates ≡ self.old.fates }
    {
        let Ok(mut copy) = copy_group(self.alloc, group) else {
            return false;
        };
        if self.records.reserve(copy.len()).is_err() || !self.ask(at, group) {
            return false;
        }
        let _ = self.records.append(&mut copy);
        true
    }

    /// Remembers that a group was asked for at this place, where records stand, and returns some of them, from the first there on; none
    /// where memory runs out, and then nothing changes.
    fn find(&mut self, at: u64, group: &[Record]) -> Option<Vec<Record>>
        requires { at < length self.old.records.items }
        ensures found { IsFound (seen_of self.old) at group.now result (seen_of self.new) }
        ensures fates { self.new.fates ≡ self.old.fates }
    {
        let Ok(page) = page(self.alloc, self.records.as_slice(), at, self.most) else {
            return None;
        };
        if !self.ask(at, group) {
            return None;
        }
        Some(page)
    }

    /// What comes of an append at a place that is free. Where memory runs out the group won't be put.
    fn come_to(&mut self, at: u64, group: &[Record], fate: Fate) -> Appended
        requires { fate ≢ Full }
        ensures comes { ComesTo fate (seen_of self.old) at group.now result (seen_of self.new) }
        ensures fates { self.new.fates ≡ self.old.fates }
    {
        if fate == Fate::NotPut {
            return if self.ask(at, group) {
                Appended::Unknown
            } else {
                Appended::Full
            };
        }
        let Ok(copy) = copy_group(self.alloc, group) else {
            return Appended::Full;
        };
        if !self.put(at, group) {
            return Appended::Full;
        }
        match fate {
            Fate::Answered => Appended::Put,
            Fate::PutTwice => Appended::Taken(copy),
            _ => Appended::Unknown,
        }
    }
}

/// Some of the records behind the first so many, copied; none where there is none. Fails only where memory runs out.
fn page(
    alloc: Global,
    records: &[Record],
    from: u64,
    most: usize,
) -> Result<Vec<Record>, AllocError>
    ensures part { IfOk result (λ page. page.items ≢ [] → IsAt from page.items records.now) }
    ensures all { IfOk result (λ page. page.items ≡ [] → length records.now ≤ from) }
{
    let start = (from as usize).min(records.len());
    let end = start.saturating_add(most.max(1)).min(records.len());
    copy_group(alloc, &records[start..end])
}

impl SharedLog for MemoryShared {
    ghost use Rattle.std.specs.Prelude.{true};
    ghost use Rattle.pana_shared_tests.specs.Memory.{seen_of, silences_of};

    ghost is_known = { true };

    ghost seen = { seen_of };

    ghost silences = { silences_of };

    fn writer(&self) -> u64 {
        self.writer
    }

    /// Appends as the plan has it. Memory is taken first: where it runs out, or the log has fewer records, the group won't be put.
    fn append(&mut self, at: u64, group: &[Record]) -> Appended {
        self.wait();
        let fate = self.next_fate();
        let len = self.records.len() as u64;
        if fate == Fate::Full {
            return Appended::Full;
        }
        if len < at {
            return Appended::Full;
        }
        if len > at {
            return match self.find(at, group) {
                Some(page) => Appended::Taken(page),
                None => Appended::Full,
            };
        }
        self.come_to(at, group, fate)
    }

    fn read(&mut self, from: u64) -> Result<Vec<Record>, ReadFault> {
        self.wait();
        match page(self.alloc, self.records.as_slice(), from, self.most) {
            Ok(page) => Ok(page),
            Err(_) => Err(ReadFault::OutOfMemory),
        }
    }
}
