//! Where the knowledge of a copy comes from, from its journal's end back to the beginning.
//!
//! At each moment some copies are the sources of a copy that lives at the end: what any of them knows then, that copy knows at
//! the end, and of the updates so far it knows no others.
ghost use Rattle.std.specs.Prelude.{◌≡◌, IfOk};
ghost use Rattle.pana_family.specs.Updates.{has};
ghost use Rattle.pana_history.specs.inner.Sources.{copied, reaches, sources_before, united, with_source, without};

use pana_journal::{Entry, Report};
use std::alloc::{AllocError, Global};

/// Whether this copy is one of the sources.
fn has(sources: &[u64], copy: u64) -> bool
    ensures { result ≡ has sources.now copy }
{
    sources.iter().any(|source| *source == copy)
}

/// Whether the report is an update of a source.
pub(crate) fn reaches(report: &Report, sources: &[u64]) -> bool
    ensures { result ≡ reaches sources.now report.now }
{
    match report {
        Report::Edit { copy, .. } => has(sources, *copy),
        Report::Merge { a, b, .. } => has(sources, *a) || has(sources, *b),
        _ => false,
    }
}

/// The sources but this copy.
fn without(alloc: Global, sources: Vec<u64>, copy: u64) -> Result<Vec<u64>, AllocError>
    ensures { IfOk result (λ left. left.items ≡ without copy sources.items) }
{
    sources
        .into_iter()
        .filter(|source| *source != copy)
        .collect(alloc)
}

/// The sources and this copy.
fn with_source(mut sources: Vec<u64>, copy: u64) -> Result<Vec<u64>, AllocError>
    ensures { IfOk result (λ more. more.items ≡ with_source copy sources.items) }
{
    if !has(sources.as_slice(), copy) {
        sources.push(copy)?;
    }
    Ok(sources)
}

/// The sources, where the two copies got what either knew.
fn united(sources: Vec<u64>, a: u64, b: u64) -> Result<Vec<u64>, AllocError>
    ensures { IfOk result (λ more. more.items ≡ united a b sources.items) }
{
    if has(sources.as_slice(), a) || has(sources.as_slice(), b) {
        with_source(with_source(sources, b)?, a)
    } else {
        Ok(sources)
    }
}

/// The sources, where this copy was made of another.
fn copied(alloc: Global, sources: Vec<u64>, copy: u64, of: u64) -> Result<Vec<u64>, AllocError>
    ensures { IfOk result (λ more. more.items ≡ copied copy of sources.items) }
{
    if has(sources.as_slice(), copy) {
        with_source(without(alloc, sources, copy)?, of)
    } else {
        Ok(sources)
    }
}

/// The sources before an entry, by those after it.
pub(crate) fn sources_before(
    alloc: Global,
    entry: &Entry,
    sources: Vec<u64>,
) -> Result<Vec<u64>, AllocError>
    ensures { IfOk result (λ before. before.items ≡ sources_before entry.now sources.items) }
{
    match &entry.report {
        Report::Register { .. } => without(alloc, sources, entry.number),
        Report::Duplicate { copy, .. } => copied(alloc, sources, entry.number, *copy),
        Report::Reconcile { a, b, .. } | Report::Merge { a, b, .. } => united(sources, *a, *b),
        Report::Remove { copy, .. } => without(alloc, sources, *copy),
        _ => Ok(sources),
    }
}
