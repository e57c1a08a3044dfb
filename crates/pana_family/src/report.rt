//! What is reported of a family.

/// A report of a family's copies. The entry that records it gives its number.
#[derive(Clone, Copy)]
pub enum FamilyReport {
    /// A new copy beside its source.
    Duplicate(u64),
    /// An update of a copy.
    Edit(u64),
    /// Two copies learn what either knows.
    Reconcile(u64, u64),
    /// Two copies learn what either knows, and an update.
    Merge(u64, u64),
    /// A copy is gone, with an heir or without.
    Remove(u64, Option<u64>),
    /// A copy was touched.
    Touch(u64),
}
