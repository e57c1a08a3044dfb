//! What is taken by its sum, each once.
ghost use Rattle.std.specs.Prelude.{◌≡◌, ◌≤◌, ℕ, List, true, false, cond, length, IfOk};
ghost use Rattle.std.specs.List.Sorted.{IsPartitionPoint};
ghost use Rattle.std.specs.List.{All};
ghost use Rattle.std.specs.Str.{bytes_eq};
ghost use Rattle.pana_scan.specs.inner.Pool.{AreInOrder, first, is_before, rest, waiting};

use pana_copies::Sum;
use std::alloc::AllocError;
use std::cmp::Ordering;

/// What waits to be taken by its sum, or was taken.
#[derive(Clone, Copy)]
pub(crate) struct Waiting<'a, T: Copy> {
    pub(crate) sum: &'a Sum,
    pub(crate) item: T,
    pub(crate) is_taken: bool,
}

impl<'a, T: Copy> Waiting<'a, T> {
    /// Whether it stands before all that wait with this sum.
    fn is_before(&self, sum: &Sum) -> bool
        ensures { result ≡ is_before sum.now self.now }
    {
        match self.sum.order(sum) {
            Ordering::Less => true,
            Ordering::Equal => self.is_taken,
            Ordering::Greater => false,
        }
    }
}

/// What is taken by its sum: in order of sums, and of those with one sum what was taken stands first.
#[derive(Drop)]
pub(crate) struct Pool<'a, T: Copy> {
    rows: Vec<Waiting<'a, T>>,
}

impl<'a, T: Copy> Pool<'a, T> {
    /// The pool of what waits. Of those with one sum, the first is taken first. O(n log n).
    pub(crate) fn new(mut rows: Vec<Waiting<'a, T>>) -> Result<Pool<'a, T>, AllocError>
        requires { All (λ row. row.is_taken ≡ false) rows.items }
        ensures order { IfOk result (λ pool. AreInOrder pool.rows.items) }
        ensures same { IfOk result (λ pool. (sum : List ℕ) → waiting sum pool.rows.items ≡ waiting sum rows.entry.items) }
    {
        rows.sort_by(|one, other| one.sum.order(other.sum))?;
        Ok(Pool { rows })
    }

    /// Takes the first that waits with this sum, if one does. O(log n).
    pub(crate) fn take(&mut self, sum: &Sum) -> Option<T>
        requires { AreInOrder self.old.rows.items }
        ensures order { AreInOrder self.new.rows.items }
        ensures first { result ≡ first (waiting sum.now self.old.rows.items) }
        ensures rest { (other : List ℕ) → waiting other self.new.rows.items ≡ cond (bytes_eq other sum.now) (rest (waiting other self.old.rows.items)) (waiting other self.old.rows.items) }
    {
        let at = self.position(sum);
        if at == self.rows.len() || self.rows[at].sum != sum {
            return None;
        }
        let row = &mut self.rows[at];
        row.is_taken = true;
        Some(row.item)
    }

    /// Where the first is that waits with this sum, if one does.
    fn position(&self, sum: &Sum) -> usize
        requires { AreInOrder self.now.rows.items }
        ensures bound { result ≤ length self.now.rows.items }
        ensures point { IsPartitionPoint (λ row. is_before sum.now row ≡ true) (λ row. is_before sum.now row ≡ false) self.now.rows.items result }
    {
        self.rows
            .as_slice()
            .partition_point(|row| row.is_before(sum))
    }
}
