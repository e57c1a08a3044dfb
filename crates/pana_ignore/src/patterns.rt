ghost use Rattle.std.specs.Prelude.{◌≡◌, ◌⊎◌, true, [], ◌++◌, Some, Err, IfOk, OnOk, IfErr, OnErr, flat_map, option_to_list};
ghost use Rattle.std.specs.Option.{ForSome};
ghost use Rattle.std.specs.List.{list_any};
ghost use Rattle.pana_ignore.specs.Pattern.{ignores_here, is_ignored, folders_above};
ghost use Rattle.pana_ignore.specs.Reading.{pattern_of, pattern_of_line, patterns_of, fault_of};
ghost use Rattle.pana_ignore.specs.inner.Splits.{splits};

use crate::lines::{fault_of, trimmed, without_mark};
use crate::pattern::{Pattern, begins, without_last};
use crate::patterns_fault::PatternsFault;
use crate::split::split_first;
use std::alloc::{AllocError, Global};
use std::marker::Model;

/// Patterns of paths, of which the last that matches decides.
pub struct Patterns {
    alloc: Global,
    patterns: Vec<Pattern>,
}

impl Drop for Patterns {
    fn drop(self) {
        let Patterns {
            alloc: _,
            patterns: _,
        } = self;
    }
}

impl Model for Patterns {
    ghost use Rattle.std.specs.Prelude.{List};
    ghost use Rattle.pana_ignore.specs.declared.pattern.Pattern.{Pattern};

    ghost Value = { List Pattern };

    ghost view = { λ all. all.patterns.items };
}

/// What the patterns say of a path, where no folder above it is ignored.
fn ignores_here(patterns: &[Pattern], path: &[u8], is_folder: bool) -> bool
    ensures { result ≡ ignores_here patterns.now path.now is_folder }
{
    let mut is_ignored = false;
    for pattern in patterns {
        // A pattern that would say the same again isn't tried.
        if pattern.includes == is_ignored && pattern.applies(path, is_folder) {
            is_ignored = !is_ignored;
        }
    }
    is_ignored
}

impl Patterns {
    /// No patterns. Takes no memory.
    pub fn new(alloc: Global) -> Patterns
        ensures { result ≡ [] }
    {
        Patterns {
            alloc,
            patterns: Vec::new(alloc),
        }
    }

    /// The patterns of a text, a line each, as of a file `.gitignore` at the root. A line that spells no pattern has none.
    ///
    /// # Errors
    ///
    /// `TooManyLines` of more than 10,000 newlines, or else `LongLine` of the first line with more than 4,096 bytes;
    /// `OutOfMemory`.
    pub fn read(alloc: Global, text: &[u8]) -> Result<Patterns, PatternsFault>
        ensures ok { IfOk result (λ patterns. patterns ≡ patterns_of text.now) }
        ensures fault { ForSome (fault_of text.now) (λ fault. result ≡ Err fault) }
        ensures others { IfErr result (λ fault. (fault_of text.now ≡ Some fault) ⊎ (fault ≡ PatternsFault.OutOfMemory)) }
    {
        match fault_of(text) {
            Some(fault) => Err(fault),
            None => Ok(Patterns::of_lines(alloc, without_mark(text))?),
        }
    }

    /// The patterns of lines.
    fn of_lines(alloc: Global, text: &[u8]) -> Result<Patterns, AllocError>
        ensures { IfOk result (λ patterns. patterns ≡ flat_map (λ line. option_to_list (pattern_of_line line)) (splits 10 (Some text.now))) }
    {
        let mut patterns = Patterns::new(alloc);
        let mut rest = Some(text);
        while let Some(lines) = rest {
            let (line, behind) = split_first(lines, b'\n');
            patterns.push_line(line)?;
            rest = behind;
        }
        Ok(patterns)
    }

    /// Takes the pattern of a line, if it has one.
    fn push_line(&mut self, line: &[u8]) -> Result<(), AllocError>
        ensures ok { OnOk result (self.new ≡ self.old ++ option_to_list (pattern_of_line line.now)) }
    {
        if begins(b'#', line) {
            return Ok(());
        }
        self.push_text(trimmed(without_last(b'\r', line)))
    }

    /// Takes the pattern that a text spells, if it does.
    fn push_text(&mut self, text: &[u8]) -> Result<(), AllocError>
        ensures ok { OnOk result (self.new ≡ self.old ++ option_to_list (pattern_of text.now)) }
        ensures err { OnErr result (self.new ≡ self.old) }
    {
        if let Some(pattern) = Pattern::read(self.alloc, text)? {
            self.patterns.push(pattern)?;
        }
        Ok(())
    }

    /// Takes one pattern more, which decides before the others, as one on a command line: the whole text is the pattern,
    /// with its spaces, and a `#` is a byte like others. Where it spells none, nothing changes.
    ///
    /// # Errors
    ///
    /// `AllocError` where an allocation failed; nothing has changed then.
    pub fn push(&mut self, text: &str) -> Result<(), AllocError>
        ensures ok { OnOk result (self.new ≡ self.old ++ option_to_list (pattern_of text.now)) }
        ensures err { OnErr result (self.new ≡ self.old) }
    {
        self.push_text(text.as_bytes())
    }

    /// What the patterns say of this very path, by its bytes, where no folder above it is ignored. Takes no memory;
    /// O(n m) in the lengths of the path and of the patterns.
    pub fn ignores_here(&self, path: &[u8], is_folder: bool) -> bool
        ensures { result ≡ ignores_here self.now path.now is_folder }
    {
        ignores_here(self.patterns.as_slice(), path, is_folder)
    }

    /// Whether a path, relative to the root and with `/` between its names, is ignored: whether the patterns say so of it,
    /// or of a folder above it. Takes no memory; each folder above costs as much as the path.
    pub fn is_ignored(&self, path: &str, is_folder: bool) -> bool
        ensures { result ≡ is_ignored self.now path.now is_folder }
    {
        is_below_ignored(self.patterns.as_slice(), path.as_bytes())
            || self.ignores_here(path.as_bytes(), is_folder)
    }
}

/// Whether a folder above the path is ignored.
fn is_below_ignored(patterns: &[Pattern], path: &[u8]) -> bool
    ensures { result ≡ list_any (λ folder. ignores_here patterns.now folder true) (folders_above path.now) }
{
    for (i, byte) in path.iter().enumerate() {
        if *byte == b'/' && ignores_here(patterns, &path[..i], true) {
            return true;
        }
    }
    false
}
