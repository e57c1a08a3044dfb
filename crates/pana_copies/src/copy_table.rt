//! Where the living copies are kept.
#![tactic(auto, unfolding(crate::specs::Spots::kept))]

ghost use Rattle.std.specs.Prelude.{◌≡◌, ℕ, List, [], ◌+◌, ◌<◌, ◌≤◌, ◌==◌, ◌↔◌, true, None, Some, IsSome, IfSome, IfOk, OnOk, if◌then◌else◌, length, nat_eq, option_map, option_and_then, slice_get};
ghost use Rattle.std.specs.List.{IsDistinct, list_any, position_or_len};
ghost use Rattle.std.specs.Map.{keys_of};
ghost use Rattle.pana_copies.specs.Spots.{kept, place_of, placed, AreRising, CountsDevices, HasPath, IsOnDevice};
ghost use Rattle.pana_copies.specs.{inner.Marks.mark_of, inner.Sides.IsNextOn, inner.Sides.number_on, inner.Sides.numbers_behind};

use crate::copy_path::CopyPath;
use crate::device_counts::{count_down, count_up};
use crate::device_name::DeviceName;
use crate::place::Place;
use indexmap::{IndexMap, IndexSet};
use memchr::memchr;
use std::alloc::{AllocError, Global};
use std::marker::Model;

/// The places of living copies, each copy with its family: no copy twice, and no place twice.
///
/// A look-up, by a copy or by a place, takes O(1) time on average, and so does each change.
pub struct CopyTable {
    // The place of the copy at an index is at the same index of the other list, so it is kept once.
    families: IndexMap<u64, u64>,
    places: IndexSet<Place>,
    // A byte of the name of the device, at the index of each place: by these the copies of one device are found.
    marks: Vec<u8>,
    // Each device that has a copy, with how many it has.
    devices: IndexMap<DeviceName, u64>,
}

impl Drop for CopyTable {
    fn drop(self) {
        let CopyTable {
            families: _,
            places: _,
            marks: _,
            devices: _,
        } = self;
    }
}

impl Model for CopyTable {
    ghost use Rattle.std.specs.Prelude.{◌-◌, min, vec_capacity, vec_len};
    ghost use Rattle.indexmap.specs.IndexMap.{spare};
    ghost use Rattle.indexmap.specs.IndexSet.{spare as spare_places};
    ghost use Rattle.pana_copies.specs.Spots.{Table};
    ghost use Rattle.pana_copies.specs.inner.Sides.{spots_of};
    ghost use Rattle.pana_copies.specs.inner.Indexes.{IsIndexed};
    ghost use Rattle.pana_copies.specs.inner.Marks.{AreMarks};

    ghost Value = { Table };

    ghost view = { λ a. record { spots = spots_of a.families.entries a.places.keys; room = min (vec_capacity a.marks - vec_len a.marks) (min (spare a.devices) (min (spare a.families) (spare_places a.places))) } };

    ghost invariant = { λ a. IsIndexed a.families.entries a.places.keys a.devices.entries × AreMarks a.marks.items a.places.keys };
}

/// Where a byte stands first.
fn first_of(byte: u8, bytes: &[u8]) -> Option<usize>
    ensures some { IfSome result (λ at. (at ≡ position_or_len (λ other. other == byte) bytes.now) × (at < length bytes.now)) }
    ensures none { result ≡ None → position_or_len (λ other. other == byte) bytes.now ≡ length bytes.now }
{
    memchr(byte, bytes)
}

/// The family of a copy, and the place where it is kept.
#[derive(Clone, Copy)]
pub struct KeptCopy<'a> {
    pub family: u64,
    pub place: &'a Place,
}

impl CopyTable {
    /// A table of no copies. Takes no memory.
    pub fn new(alloc: Global) -> CopyTable
        ensures { (number : ℕ) → kept result number ≡ None }
    {
        CopyTable {
            families: IndexMap::new(alloc),
            places: IndexSet::new(alloc),
            marks: Vec::new(alloc),
            devices: IndexMap::new(alloc),
        }
    }

    /// How many copies are kept. Takes no memory; O(1).
    pub fn len(&self) -> usize
        ensures len { result ≡ length self.now.spots }
        ensures once { IsDistinct nat_eq (keys_of self.now.spots) }
    {
        self.families.len()
    }

    /// How many devices have a copy. Takes no memory; O(1).
    pub fn device_count(&self) -> usize
        ensures { CountsDevices self.now result }
    {
        self.devices.len()
    }

    /// The family and the place of a copy, if it is kept. Takes no memory; O(1) on average.
    pub fn get(&self, copy: u64) -> Option<KeptCopy<'_>>
        ensures { option_map (λ found. record { family = found.family; place = found.place.now }) result ≡ kept self.now copy }
    {
        let (index, _, family) = self.families.get_full(&copy)?;
        let place = self.places.get_index(index)?;
        Some(KeptCopy {
            family: *family,
            place,
        })
    }

    /// The copy that is kept at a place. Takes no memory; O(1) on average.
    pub fn at(&self, place: &Place) -> Option<u64>
        ensures { (copy : ℕ) → (result ≡ Some copy) ↔ (place_of self.now copy ≡ Some place.now) }
    {
        let (index, _) = self.places.get_full(place)?;
        let (copy, _) = self.families.get_index(index)?;
        Some(*copy)
    }

    /// The copies that are kept at this path, in no order that counts.
    ///
    /// # Errors
    ///
    /// `AllocError` where an allocation failed.
    fn find_with_path(&self, alloc: Global, path: &CopyPath) -> Result<Vec<u64>, AllocError>
        ensures once { IfOk result (λ found. IsDistinct nat_eq found.items) }
        ensures found { IfOk result (λ found. (copy : ℕ) → (list_any (λ n. n == copy) found.items ≡ true) ↔ HasPath self.now path.now copy) }
    {
        let mut own = path.copy_of()?;
        let mut copies = Vec::new(alloc);
        for device in self.devices.keys() {
            let place = Place {
                device: device.copy_of(),
                path: own,
            };
            if let Some(copy) = self.at(&place) {
                copies.push(copy)?;
            }
            own = place.into_path();
        }
        Ok(copies)
    }

    /// The copies that are kept at this path, at most one on each device, by rising number. One look-up for each device that has a
    /// copy.
    ///
    /// # Errors
    ///
    /// `AllocError` where an allocation failed.
    pub fn with_path(&self, alloc: Global, path: &CopyPath) -> Result<Vec<u64>, AllocError>
        ensures rising { IfOk result (λ found. AreRising found.items) }
        ensures found { IfOk result (λ found. (copy : ℕ) → (list_any (λ n. n == copy) found.items ≡ true) ↔ HasPath self.now path.now copy) }
    {
        let mut copies = self.find_with_path(alloc, path)?;
        copies.sort_unstable();
        Ok(copies)
    }

    /// The number of the copy at an index, where it is kept on the device and isn't below this one.
    fn number_on(&self, device: &DeviceName, from: u64, index: usize) -> Option<u64>
        ensures { result ≡ option_and_then (number_on device.now from) (slice_get self.now.spots index) }
    {
        let place = self.places.get_index(index)?;
        if place.device != *device {
            return None;
        }
        let (copy, _) = self.families.get_index(index)?;
        (*copy >= from).then_some(*copy)
    }

    /// The first index from this one on whose copy may be on a device with this mark.
    fn next_marked(&self, mark: u8, at: usize) -> Option<usize>
        ensures within { IfSome result (λ index. (at ≤ index) × (index < length self.now.spots)) }
        ensures found { IfSome result (λ index. (device : List ℕ) (from : ℕ) → mark ≡ mark_of device → IsNextOn device from self.now.spots at index) }
        ensures none { result ≡ None → (device : List ℕ) (from : ℕ) → mark ≡ mark_of device → numbers_behind device from self.now.spots at ≡ [] }
    {
        let marks = self.marks.as_slice();
        if at > marks.len() {
            return None;
        }
        let behind = first_of(mark, &marks[at..])?;
        Some(at + behind)
    }

    /// The copies with a number from this one on that are kept on the device, in no order that counts.
    ///
    /// # Errors
    ///
    /// `AllocError` where an allocation failed.
    fn find_on_device(
        &self,
        alloc: Global,
        device: &DeviceName,
        from: u64,
    ) -> Result<Vec<u64>, AllocError>
        ensures once { IfOk result (λ found. IsDistinct nat_eq found.items) }
        ensures found { IfOk result (λ found. (copy : ℕ) → (list_any (λ n. n == copy) found.items ≡ true) ↔ IsOnDevice self.now device.now from copy) }
    {
        // whose contract says that no copy comes twice
        let _ = self.len();
        let mark = device.mark();
        let mut copies = Vec::new(alloc);
        let mut at = 0;
        while let Some(index) = self.next_marked(mark, at) {
            if let Some(copy) = self.number_on(device, from, index) {
                copies.push(copy)?;
            }
            at = index + 1;
        }
        Ok(copies)
    }

    /// The copies with a number from this one on that are kept on the device, by rising number. Looks at a byte of each copy that
    /// is kept, and takes O(n log n) for the n that it returns.
    ///
    /// # Errors
    ///
    /// `AllocError` where an allocation failed.
    pub fn on_device(
        &self,
        alloc: Global,
        device: &DeviceName,
        from: u64,
    ) -> Result<Vec<u64>, AllocError>
        ensures rising { IfOk result (λ found. AreRising found.items) }
        ensures found { IfOk result (λ found. (copy : ℕ) → (list_any (λ n. n == copy) found.items ≡ true) ↔ IsOnDevice self.now device.now from copy) }
    {
        let mut copies = self.find_on_device(alloc, device, from)?;
        copies.sort_unstable();
        Ok(copies)
    }

    /// Makes room for one more copy, so that the next `insert` or `relocate` needs no memory.
    ///
    /// # Errors
    ///
    /// `AllocError` where an allocation failed.
    pub fn reserve(&mut self) -> Result<(), AllocError>
        ensures room { OnOk result (0 < self.new.room) }
        ensures same { (number : ℕ) → kept self.new number ≡ kept self.old number }
    {
        self.families.reserve(1)?;
        self.places.reserve(1)?;
        self.marks.reserve(1)?;
        self.devices.reserve(1)
    }

    /// Keeps one more copy, in room that was made by `reserve`. Takes no memory; O(1) on average.
    pub fn insert(&mut self, copy: u64, family: u64, place: Place)
        requires room { 0 < self.old.room }
        requires new { kept self.old copy ≡ None }
        requires free { (number : ℕ) → ¬ (place_of self.old number ≡ Some place) }
        ensures spots { (number : ℕ) → kept self.new number ≡ (if number == copy then Some (record { family = family; place = place }) else kept self.old number) }
        ensures room { self.old.room ≤ self.new.room + 1 }
    {
        // A device has no more copies than there are places, so one more can be counted.
        prove!(self.places.len() < usize::MAX);
        count_up(&mut self.devices, place.device.copy_of());
        self.marks.push_reserved(place.device.mark());
        self.families.insert(copy, family).unwrap();
        self.places.insert(place).unwrap();
    }

    /// Keeps a copy at another place, in room that was made by `reserve`, and returns the place where it was.
    /// Takes no memory; O(1) on average.
    pub fn relocate(&mut self, copy: u64, place: Place) -> Place
        requires room { 0 < self.old.room }
        requires lives { IsSome (kept self.old copy) }
        requires free { (number : ℕ) → place_of self.old number ≡ Some place → number ≡ copy }
        ensures spots { (number : ℕ) → kept self.new number ≡ (if number == copy then placed place (kept self.old copy) else kept self.old number) }
        ensures old { Some result ≡ place_of self.old copy }
        ensures room { self.old.room ≤ self.new.room + 1 }
    {
        let family = self.get(copy).unwrap().family;
        let old = self.remove(copy);
        self.insert(copy, family, place);
        old
    }

    /// Keeps a copy no longer, and returns the place where it was. Takes no memory; O(1) on average.
    pub fn remove(&mut self, copy: u64) -> Place
        requires lives { IsSome (kept self.old copy) }
        ensures spots { (number : ℕ) → kept self.new number ≡ (if number == copy then None else kept self.old number) }
        ensures old { Some result ≡ place_of self.old copy }
        ensures room { self.old.room ≤ self.new.room }
    {
        let index = self.families.get_index_of(&copy).unwrap();
        self.families.swap_remove_index(index).unwrap();
        let place = self.places.swap_remove_index(index).unwrap();
        self.marks.swap_remove(index);
        count_down(&mut self.devices, &place.device);
        place
    }
}
