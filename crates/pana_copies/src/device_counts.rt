//! How many copies each device has.
ghost use Rattle.std.specs.Prelude.{◌≡◌, ℕ, List, ◌+◌, ◌-◌, ◌^◌, ◌<◌, ◌≤◌, Some, if◌then◌else◌};
ghost use Rattle.std.specs.Str.{bytes_eq};
ghost use Rattle.indexmap.specs.IndexMap.{get, spare};
ghost use Rattle.pana_copies.specs.inner.Counts.{counted, unless_zero};

use crate::device_name::DeviceName;
use indexmap::IndexMap;

/// Counts one more copy on a device, in room that was made. Takes no memory; O(1) on average.
pub fn count_up(counts: &mut IndexMap<DeviceName, u64>, device: DeviceName)
    requires room { 0 < spare counts.old }
    requires small { counted counts.old.entries device + 1 < 2 ^ 64 }
    ensures counts { (other : List ℕ) → get bytes_eq counts.new other ≡ (if bytes_eq device other then Some (counted counts.old.entries device + 1) else get bytes_eq counts.old other) }
    ensures room { spare counts.old ≤ spare counts.new + 1 }
{
    let count = counts.get(&device).copied().unwrap_or(0);
    counts.insert(device, count + 1).unwrap();
}

/// Counts one copy less on a device, which is taken out with its last copy. Takes no memory; O(1) on average.
pub fn count_down(counts: &mut IndexMap<DeviceName, u64>, device: &DeviceName)
    ensures counts { (other : List ℕ) → get bytes_eq counts.new other ≡ (if bytes_eq device.now other then unless_zero (counted counts.old.entries device.now - 1) else get bytes_eq counts.old other) }
    ensures room { spare counts.old ≤ spare counts.new }
{
    let count = counts.get(device).copied().unwrap_or(0);
    if count > 1 {
        *counts.get_mut(device).unwrap() = count - 1;
    } else {
        counts.swap_remove(device);
    }
}
