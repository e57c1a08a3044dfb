use pana_ignore::{Patterns, PatternsFault};
use std::alloc::{AllocError, Global};
use std::test::Fail;

/// Patterns as people write them, and what `git check-ignore` says of these paths under them.
const TEXT: &str = "# objects\n*.o\n!keep.o\n/build/\nnotes/**/old\n*~\r\n";

#[test]
fn the_patterns_of_a_text_decide(rt: HostRuntime) -> Result<(), Fail> {
    let patterns = Patterns::read(rt.alloc(), TEXT.as_bytes())?;
    for (path, is_folder, want) in [
        ("main.o", false, true),
        ("src/main.o", false, true),
        ("src/keep.o", false, false),
        ("main.c", false, false),
        ("build", true, true),
        ("build", false, false),
        ("build/keep.o", false, true),
        ("src/build", true, false),
        ("notes/old", false, true),
        ("notes/2024/may/old", true, true),
        ("old", false, false),
        ("plan.txt~", false, true),
    ] {
        assert_eq!(rt; patterns.is_ignored(path, is_folder), want);
    }
    Ok(())
}

#[test]
fn what_is_in_a_folder_is_asked_by_itself(rt: HostRuntime) -> Result<(), Fail> {
    let patterns = Patterns::read(rt.alloc(), TEXT.as_bytes())?;
    assert!(rt; patterns.ignores_here(b"build", true));
    assert!(rt; !patterns.ignores_here(b"build/keep.o", false));
    assert!(rt; patterns.is_ignored("build/keep.o", false));
    Ok(())
}

#[test]
fn a_pattern_that_is_pushed_decides_before_others(rt: HostRuntime) -> Result<(), Fail> {
    let mut patterns = Patterns::read(rt.alloc(), TEXT.as_bytes())?;
    patterns.push("!main.o")?;
    patterns.push("#draft ")?;
    assert!(rt; !patterns.is_ignored("src/main.o", false));
    assert!(rt; patterns.is_ignored("other.o", false));
    assert!(rt; patterns.is_ignored("#draft ", false));
    Ok(())
}

/// So many times the text.
fn repeated(alloc: Global, text: &str, times: usize) -> Result<String, AllocError> {
    let mut all = String::new(alloc);
    for _ in 0..times {
        all.push_str(text)?;
    }
    Ok(all)
}

// A search that tried each place for each star would not end.
#[test]
fn many_stars_take_no_longer_than_the_product(rt: HostRuntime) -> Result<(), Fail> {
    let alloc = rt.alloc();
    let mut patterns = Patterns::new(alloc);
    let mut stars = repeated(alloc, "*a", 100)?;
    stars.push_str("b")?;
    patterns.push(stars.as_str())?;
    let mut folders = repeated(alloc, "**/a/", 100)?;
    folders.push_str("b")?;
    patterns.push(folders.as_str())?;
    let name = repeated(alloc, "a", 1000)?;
    assert!(rt; !patterns.ignores_here(name.as_bytes(), false));
    let path = repeated(alloc, "a/", 500)?;
    assert!(rt; !patterns.ignores_here(path.as_bytes(), true));
    Ok(())
}

#[test]
fn a_text_of_too_many_lines_is_refused(rt: HostRuntime) -> Result<(), Fail> {
    let alloc = rt.alloc();
    let mut text = repeated(alloc, "\n", 10_000)?;
    Patterns::read(alloc, text.as_bytes())?;
    text.push_str("\n")?;
    let fault = Patterns::read(alloc, text.as_bytes()).err();
    assert_eq!(rt; fault, Some(PatternsFault::TooManyLines));
    Ok(())
}

#[test]
fn a_line_that_is_too_long_is_reported_by_its_number(rt: HostRuntime) -> Result<(), Fail> {
    let alloc = rt.alloc();
    let long = repeated(alloc, "a", 4096)?;
    let text = format!(in alloc; "b\n{}\n", long.as_str())?;
    Patterns::read(alloc, text.as_bytes())?;
    let text = format!(in alloc; "b\n{}c\n", long.as_str())?;
    let fault = Patterns::read(alloc, text.as_bytes()).err();
    assert_eq!(rt; fault, Some(PatternsFault::LongLine(2)));
    Ok(())
}

#[test]
fn a_fault_reads_as_text(rt: HostRuntime) -> Result<(), Fail> {
    for (fault, want) in [
        (PatternsFault::TooManyLines, "more than 10,000 lines"),
        (
            PatternsFault::LongLine(7),
            "line 7: longer than 4,096 bytes",
        ),
        (PatternsFault::OutOfMemory, "out of memory"),
    ] {
        let text = format!(in rt.alloc(); "{fault}")?;
        assert_eq!(rt; text.as_str(), want);
    }
    Ok(())
}
