//! A list in memory that the logs of several writers share.
ghost use Rattle.std.specs.Prelude.{IfOk};
ghost use Rattle.pana_shared.specs.Log.{HasSome};

use crate::memory::{Fate, copy_group};
use pana_shared::{Appended, ReadFault, Record, SharedLog};
use std::alloc::{AllocError, Global};
use std::cell::RefCell;
use std::collections::VecDeque;

/// A group that was asked for at a place and wasn't put: it may be yet.
#[derive(Drop)]
struct Late {
    at: u64,
    group: Vec<Record>,
}

/// What comes of an append where these records stand, if there are any.
fn what_stands(page: Vec<Record>) -> Appended
    ensures { HasSome result }
{
    if page.is_empty() {
        Appended::Unknown
    } else {
        Appended::Taken(page)
    }
}

/// Records, and the groups that may still be put.
#[derive(Drop)]
pub struct OneList {
    records: Vec<Record>,
    late: Vec<Late>,
}

impl OneList {
    pub fn new(alloc: Global) -> OneList {
        OneList {
            records: Vec::new(alloc),
            late: Vec::new(alloc),
        }
    }

    /// Puts each group that is late, if its place is free. Fails only where memory runs out.
    pub fn land(&mut self, alloc: Global) -> Result<(), AllocError> {
        let mut late = Vec::new(alloc);
        late.append(&mut self.late)?;
        for it in late {
            let mut group = it.group;
            if it.at == self.records.len() as u64 {
                self.records.append(&mut group)?;
            }
        }
        Ok(())
    }

    /// The records behind the first so many. Fails only where memory runs out.
    fn behind(&self, alloc: Global, from: u64) -> Result<Vec<Record>, AllocError> {
        let start = (from as usize).min(self.records.len());
        copy_group(alloc, &self.records[start..])
    }

    /// Puts a group where its place is free, as its fate has it. Fails only where memory runs out.
    fn append(
        &mut self,
        alloc: Global,
        at: u64,
        group: &[Record],
        fate: Fate,
    ) -> Result<Appended, AllocError>
        ensures { IfOk result HasSome }
    {
        let mut group = copy_group(alloc, group)?;
        if fate == Fate::NotPut {
            self.late.push(Late { at, group })?;
            return Ok(Appended::Unknown);
        }
        self.records.append(&mut group)?;
        match fate {
            Fate::Answered => Ok(Appended::Put),
            Fate::PutTwice => Ok(what_stands(self.behind(alloc, at)?)),
            _ => Ok(Appended::Unknown),
        }
    }
}

/// The log of one writer over a list that others write as well. What comes of its appends goes by a plan, and each behind it is answered.
/// It isn't read while the list is borrowed.
#[derive(Drop)]
pub struct ListLog<'a> {
    alloc: Global,
    list: &'a RefCell<OneList>,
    writer: u64,
    fates: VecDeque<Fate>,
    /// Whether it says that it is time to read on.
    is_due: bool,
}

impl<'a> ListLog<'a> {
    pub fn new(
        alloc: Global,
        list: &'a RefCell<OneList>,
        writer: u64,
        fates: VecDeque<Fate>,
        is_due: bool,
    ) -> ListLog<'a> {
        ListLog {
            alloc,
            list,
            writer,
            fates,
            is_due,
        }
    }

    /// What comes of an append. An error where memory runs out.
    fn put(&mut self, at: u64, group: &[Record]) -> Result<Appended, AllocError>
        ensures { IfOk result HasSome }
    {
        let Ok(mut list) = self.list.try_borrow_mut() else {
            return Err(AllocError);
        };
        let list = &mut *list;
        let page = list.behind(self.alloc, at)?;
        if !page.is_empty() {
            return Ok(Appended::Taken(page));
        }
        let fate = self.fates.pop_front().unwrap_or(Fate::Answered);
        list.append(self.alloc, at, group, fate)
    }
}

impl<'a> SharedLog for ListLog<'a> {
    ghost use Rattle.std.specs.Prelude.{false, []};

    // Nothing is claimed of what a cell has.
    ghost is_known = { false };

    ghost seen = { λ _. record { records = []; writer = 0; at = 0; loose = [] } };

    fn writer(&self) -> u64 {
        self.writer
    }

    fn append(&mut self, at: u64, group: &[Record]) -> Appended {
        match self.put(at, group) {
            Ok(appended) => appended,
            Err(_) => Appended::Unknown,
        }
    }

    fn read(&mut self, from: u64) -> Result<Vec<Record>, ReadFault> {
        let Ok(list) = self.list.try_borrow() else {
            return Err(ReadFault::NoAnswer);
        };
        match list.behind(self.alloc, from) {
            Ok(page) => Ok(page),
            Err(_) => Err(ReadFault::OutOfMemory),
        }
    }

    fn is_due(&self) -> bool {
        self.is_due
    }
}
