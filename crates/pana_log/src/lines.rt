ghost use Rattle.std.specs.Prelude.{◌≡◌, ◌≤◌, ◌<◌, ◌+◌, ◌==◌, ◌↔◌, [], None, IfSome, IsTrue, length, position};
ghost use Rattle.pana_log.specs.Lines.{recovered, text_of, ungated, kind_of, kind_new, kind_behind, is_begun, ends_journal, has_entries, other_kind, is_unended, IsWhole};

use crate::file_kind::FileKind;

/// How each line of a journal begins.
const ENTRIES_BEGIN: &[u8] = b"{\"entries\":[";

/// What is staged for the first line of a new journal, from the closed gate before it to the one behind it.
const STAGED_HEADER: &[u8] = b"\0\"entries\":[],\"journal\":1}\n\0";

/// How long a staged text is at most: a line of a dump with its newline.
pub(crate) const LONGEST: usize = 1_048_577;

/// Whether a text is of whole lines, one at least: each begins with `{` and ends with a newline. O(n), takes no memory.
pub fn is_whole(text: &[u8]) -> bool
    ensures { IsTrue result ↔ IsWhole text.now }
{
    !text.is_empty() && whole_length(text) == text.len()
}

/// Where the first newline stands.
fn end_of_line(text: &[u8]) -> Option<usize>
    ensures { result ≡ position (λ byte. byte == 10) text.now }
{
    text.iter().position(|byte| *byte == b'\n')
}

/// What stands behind the first line of a file, if that line counts.
fn behind_line(file: &[u8]) -> Option<&[u8]>
    ensures line { IfSome result (λ rest. length (text_of (recovered file.now)) + length rest.now ≡ length file.now + length (text_of (recovered rest.now))) }
    ensures shorter { IfSome result (λ rest. length rest.now < length file.now) }
    ensures none { result ≡ None → recovered file.now ≡ [] }
{
    let end = end_of_line(file)?;
    if file.starts_with(b"{") {
        Some(&file[end + 1..])
    } else {
        None
    }
}

/// How long the lines are that a file stands for.
pub(crate) fn whole_length(file: &[u8]) -> usize
    ensures length { result ≡ length (text_of (recovered file.now)) }
    ensures within { result ≤ length file.now }
{
    let mut rest = file;
    while let Some(behind) = behind_line(rest) {
        rest = behind;
    }
    file.len() - rest.len()
}

/// How many bytes these are, a closed gate at their head not counted.
pub(crate) fn ungated_length(rest: &[u8]) -> usize
    ensures { result ≡ ungated rest.now }
{
    match rest {
        [0, behind @ ..] => behind.len(),
        _ => rest.len(),
    }
}

/// What a file is whose lines have this length.
pub(crate) fn kind_of(file: &[u8], end: usize) -> FileKind
    requires end { end ≡ length (text_of (recovered file.now)) }
    requires within { end ≤ length file.now }
    ensures { result ≡ kind_of file.now }
{
    if end == 0 {
        kind_new(file)
    } else {
        kind_behind(&file[end..])
    }
}

/// What a file without a line is.
fn kind_new(file: &[u8]) -> FileKind
    ensures { result ≡ kind_new file.now }
{
    if is_begun(file, STAGED_HEADER) {
        FileKind::Journal
    } else {
        other_kind(file)
    }
}

/// What a file is, by what stands behind its lines.
fn kind_behind(behind: &[u8]) -> FileKind
    ensures { result ≡ kind_behind behind.now }
{
    if ends_journal(behind) {
        FileKind::Journal
    } else {
        other_kind(behind)
    }
}

/// Whether each byte is NUL or the one at its place in the text.
fn is_begun(bytes: &[u8], text: &[u8]) -> bool
    ensures { result ≡ is_begun bytes.now text.now }
{
    let [byte, bytes @ ..] = bytes else {
        return true;
    };
    let [wanted, text @ ..] = text else {
        return false;
    };
    (*byte == 0 || byte == wanted) && is_begun(bytes, text)
}

/// Whether a commit in progress can leave this behind the lines of a journal: nothing, or a NUL and at most 1,048,577
/// bytes, none of whose lines begins as one of a journal. O(n), takes no memory.
pub fn ends_journal(behind: &[u8]) -> bool
    ensures { result ≡ ends_journal behind.now }
{
    match behind {
        [] => true,
        [0, bytes @ ..] => bytes.len() <= LONGEST && !has_entries(bytes),
        _ => false,
    }
}

/// Whether a line, but for the first, begins as one of a journal does.
fn has_entries(bytes: &[u8]) -> bool
    ensures { result ≡ has_entries bytes.now }
{
    let mut rest = bytes;
    while let [first, behind @ ..] = rest {
        if *first == b'\n' && behind.starts_with(ENTRIES_BEGIN) {
            return true;
        }
        rest = behind;
    }
    false
}

/// What a file isn't, which isn't a journal.
fn other_kind(behind: &[u8]) -> FileKind
    ensures { result ≡ other_kind behind.now }
{
    if is_unended(behind) {
        FileKind::Unended
    } else {
        FileKind::Foreign
    }
}

/// Whether a line of a journal has begun, and has no newline.
fn is_unended(behind: &[u8]) -> bool
    ensures { result ≡ is_unended behind.now }
{
    match behind {
        [] => false,
        _ => {
            (behind.starts_with(ENTRIES_BEGIN) || ENTRIES_BEGIN.starts_with(behind))
                && !behind.contains(&b'\n')
        }
    }
}
