//! Places as they are named: `usb:plan.txt`.
ghost use Rattle.std.specs.Prelude.{◌≡◌, ◌⊎◌, false, IfOk, IfErr, string_bytes};
ghost use Rattle.pana_ask.specs.Place.{is_place, place_name, unknown_line};

use pana_copies::{CopyPath, DeviceName, NameFault, Place};
use std::alloc::{AllocError, Global};

/// A place as it is named: its device, a colon, its path. Fails only where memory runs out.
pub fn place_name(alloc: Global, place: &Place) -> Result<String, AllocError>
    ensures { IfOk result (λ name. string_bytes name ≡ place_name place.now) }
{
    format!(in alloc; "{}:{}", place.device.as_str(), place.path.as_str())
}

/// The place with this name.
///
/// # Errors
///
/// `BadDevice` or `BadPath` where the name is that of no place; `OutOfMemory`.
pub fn read_place(alloc: Global, name: &str) -> Result<Place, NameFault>
    ensures ok { IfOk result (λ place. place_name place ≡ name.now) }
    ensures bad { IfErr result (λ fault. (fault ≡ NameFault.OutOfMemory) ⊎ (is_place name.now ≡ false)) }
{
    let Some((device, path)) = name.split_once(':') else {
        return Err(NameFault::BadDevice);
    };
    let device = DeviceName::new(device)?;
    let path = CopyPath::new(alloc, path)?;
    Ok(Place { device, path })
}

/// The line that says that no copy is at the place, with its newline. Fails only where memory runs out.
pub fn unknown_line(alloc: Global, place: &Place) -> Result<String, AllocError>
    ensures { IfOk result (λ line. string_bytes line ≡ unknown_line place.now) }
{
    let name = place_name(alloc, place)?;
    let name = name.as_str();
    format!(in alloc; "unknown: no copy is at {name}\n")
}
