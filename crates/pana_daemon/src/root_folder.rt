//! A root's folder, as a scanner looks at it.

ghost use Rattle.std.specs.Prelude.{◌≡◌, None, Some, IfSome};
ghost use Rattle.pana_ticks.specs.Hands.{none_yet};
ghost use Rattle.pana_roots.specs.Root.{folder_at};
ghost use Rattle.pana_daemon.specs.RootFolder.{AwaitsScan, new_folder};

use crate::alarm::Alarm;
use crate::folder::{Folder, Look};
use crate::looks::Looks;
use crate::signals::Signals;
use crate::start::Verdict;
use crate::supervisor::Supervisor;
use crate::timing::wait_for;
use pana_roots::{Disks, Root};
use pana_scan::{Sums, Unwatched, read_root};
use pana_ticks::Watcher;
use pana_track::FolderEnd;
use std::alloc::Global;
use std::marker::{Model, Sync};
use std::mem;
use std::sync::Wait;
use std::thread::Threads;
use std::time::Clock;

/// A root's folder, which is looked at at the start, and again once a newline of standard input has come since the last
/// look began; so newlines that come during a look are one more. Where it is looked at each so many seconds too, it goes on
/// once no more newlines come, if it is to, until all is to end. Where not all begins that is to run at once, it gives
/// nothing. What became of it is printed where that differs from the last time.
///
/// To contracts it is the root, its device and the folder's name, and the disks on which it is read; how it is looked at; the
/// newlines that it waits for; whether all begins, once it has asked; and how many newlines it has seen.
#[derive(Drop)]
pub struct RootFolder<'a, T, K> {
    alloc: Global,
    threads: &'a T,
    disks: &'a K,
    alarm: &'a Alarm<'a>,
    root: &'a Root<'a>,
    looks: Looks,
    signals: &'a Signals,
    /// It has seen the newlines that had come when the last look began.
    watcher: Watcher,
    /// Whether all begins that is to run at once, once it has asked.
    verdict: Option<Verdict<'a>>,
    /// The sums of files from the last look.
    sums: Sums,
    /// What was printed last about it.
    said: String,
}

impl<'a, T, K> Model for RootFolder<'a, T, K> {
    ghost use Rattle.std.specs.Prelude.{◌≡◌, IfSome, option_map};
    ghost use Rattle.pana_roots.specs.Root.{folder_at};
    ghost use Rattle.pana_daemon.specs.RootFolder.{FolderView};

    ghost Value = { FolderView K };

    ghost view = { λ folder. record { root = folder_at folder.disks.now folder.root.now; looks = folder.looks; ticks = folder.signals.now.ticks; start = folder.signals.now.start.all.id; begins = option_map (λ verdict. verdict.begins) folder.verdict; seen = folder.watcher.count } };

    ghost invariant = { λ folder. (folder.watcher.id ≡ folder.signals.now.ticks) × IfSome folder.verdict (λ verdict. verdict.of ≡ folder.signals.now.start.all.id) };
}

impl<'a, T, K> RootFolder<'a, T, K> {
    /// The folder before its first look. Takes no memory.
    pub fn new(
        alloc: Global,
        threads: &'a T,
        disks: &'a K,
        alarm: &'a Alarm<'a>,
        root: &'a Root<'a>,
        looks: Looks,
        signals: &'a Signals,
        watcher: Watcher,
    ) -> RootFolder<'a, T, K>
        requires { watcher ≡ record { id = signals.now.ticks; count = none_yet } }
        ensures { result ≡ new_folder looks signals.now.ticks signals.now.start.all.id (folder_at disks.now root.now) }
    {
        RootFolder {
            alloc,
            threads,
            disks,
            alarm,
            root,
            looks,
            signals,
            watcher,
            verdict: None,
            sums: Sums::none(alloc),
            said: String::new(alloc),
        }
    }

    /// Whether all begins that is to run at once, once it has asked.
    fn begins(&self) -> Option<bool>
        ensures { result ≡ self.now.begins }
    {
        match &self.verdict {
            Some(verdict) => Some(verdict.begins()),
            None => None,
        }
    }

    /// What has seen the newlines; it shows that it has got the same answer where it has asked whether all begins. Takes no
    /// memory.
    pub(crate) fn into_watcher(self, verdict: &Verdict<'a>) -> Watcher
        requires { verdict.now.of ≡ self.start }
        ensures seen { result ≡ record { id = self.entry.ticks; count = self.entry.seen } }
        ensures begins { IfSome self.entry.begins (λ begins. begins ≡ verdict.now.begins) }
    {
        verdict.is_that_of(&self.verdict);
        let RootFolder {
            watcher,
            verdict: asked,
            sums,
            said,
            ..
        } = self;
        drop(asked);
        drop(sums);
        drop(said);
        watcher
    }
}

impl<T: Wait + Clock, K> RootFolder<'_, T, K> {
    /// Waits for the first look or the next one, and says whether there is one.
    fn await_scan(&mut self) -> bool
        ensures { AwaitsScan self.old result self.new }
    {
        let Some(begins) = self.begins() else {
            return self.begin();
        };
        if !begins {
            return false;
        }
        let (threads, signals) = (self.threads, self.signals);
        let Some(seconds) = self.looks.every else {
            return signals
                .ticks
                .wait_past(threads, &mut self.watcher)
                .is_some();
        };
        wait_for(
            threads,
            &signals.ticks,
            &mut self.watcher,
            seconds,
            signals.lasts,
            self.alarm,
        )
    }

    /// Waits until all begins that is to run at once, and looks then how many newlines have come. Returns whether it does.
    fn begin(&mut self) -> bool
        requires { self.old.begins ≡ None }
        ensures { AwaitsScan self.old result self.new }
    {
        let (threads, signals) = (self.threads, self.signals);
        let verdict = signals.start.ask(threads);
        if !verdict.begins() {
            self.verdict = Some(verdict);
            return false;
        }
        signals.ticks.so_far(&mut self.watcher);
        self.verdict = Some(verdict);
        true
    }
}

impl<T: Wait + Clock, K: Disks> Folder for RootFolder<'_, T, K> {
    ghost use Rattle.pana_daemon.specs.RootFolder.{ScansRoot};

    ghost does = { ScansRoot K.gives K.passes K.Given.is_known K.Given.tree K.Given.has_failed K.Given.entries K.Given.faults };

    fn next<R: Threads + Sync>(&mut self, threads: &R) -> Option<Look> {
        if !self.await_scan() {
            return None;
        }
        let (alloc, disks, root) = (self.alloc, self.disks, self.root);
        if !self.looks.is_tracked {
            let mut disk = disks.disk(Sums::none(alloc));
            let given = read_root(alloc, &mut disk, &root.device, root.folder, &Unwatched);
            return Some(Look::Scanned(given));
        }
        // Files that haven't changed since the last look aren't read, where the disk says so.
        let known = mem::replace(&mut self.sums, Sums::none(alloc));
        let mut sums = known.next(alloc);
        let given = disks.read_tracked(threads, alloc, root, &mut sums);
        drop(mem::replace(&mut self.sums, sums));
        Some(Look::Tracked(given))
    }

    fn note_end(&mut self, end: &FolderEnd) {
        let Ok(lines) = end.lines(self.alloc, &self.root.device) else {
            return;
        };
        if lines != self.said {
            self.alarm.say(lines.as_str());
            self.said = lines;
        }
    }
}
