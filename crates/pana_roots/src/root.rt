//! Roots: the words of the command line that name a device and its folder.

ghost use Rattle.std.specs.Prelude.{◌≤◌, length, ◌≡◌, ◌⊎◌, [], true, false, None, Some, IfOk, IfErr, MatchOption, map, bytes_eq, ℕ, List};
ghost use Rattle.std.specs.List.{list_any};
ghost use Rattle.std.specs.Borrow.{Bor};
ghost use Rattle.pana_roots.specs.Root.{device_of, first_bad, folder_of, is_bad_root, texts};

use pana_copies::DeviceName;
use std::alloc::Global;

/// How many roots there are at most.
pub const MOST_ROOTS: usize = 8;

/// A device, and the folder with its copies.
pub struct Root<'a> {
    pub device: DeviceName,
    pub folder: &'a str,
}

impl<'a> Drop for Root<'a> {
    fn drop(self) {
        let Root {
            device: _,
            folder: _,
        } = self;
    }
}

/// Why there are no roots.
#[derive(Clone, Copy)]
pub enum RootFault<'a> {
    /// This word names none.
    Bad(&'a str),
    /// An allocation failed.
    OutOfMemory,
}

/// Whether one of the roots is of the device.
fn has_device(roots: &[Root<'_>], device: &DeviceName) -> bool
    ensures { result ≡ list_any (λ root. bytes_eq root.device device.now) roots.now }
{
    roots.iter().any(|root| root.device == *device)
}

/// The root that a word names, beside those that earlier words named; or none where the word is bad.
fn root_of<'a>(word: &'a str, earlier: &[Root<'a>]) -> Option<Root<'a>>
    ensures { MatchOption result (is_bad_root (map (λ root. root.device) earlier.now) word.now ≡ true)
        (λ root. (is_bad_root (map (λ root. root.device) earlier.now) word.now ≡ false) × (root.device ≡ device_of word.now) × (root.folder.now ≡ folder_of word.now)) }
{
    let Some((device, folder)) = word.split_once('=') else {
        return None;
    };
    let Ok(device) = DeviceName::new(device) else {
        return None;
    };
    if folder.is_empty() || has_device(earlier, &device) || earlier.len() >= MOST_ROOTS {
        return None;
    }
    Some(Root { device, folder })
}

/// The roots that the words name, in order.
///
/// # Errors
///
/// `Bad` with the first word that names none: it has no `=`, the part before the first `=` is no device's name, the part
/// behind it is empty, an earlier word has its device, or it is the ninth; `OutOfMemory`.
pub fn roots_of<'a>(alloc: Global, words: &[&'a str]) -> Result<Vec<Root<'a>>, RootFault<'a>>
    ensures ok { IfOk result (λ roots. first_bad [] (texts words.now) ≡ None) }
    ensures devices { IfOk result (λ roots. map (λ root. root.device) roots.items ≡ map device_of (texts words.now)) }
    ensures folders { IfOk result (λ roots. map (λ root. root.folder.now) roots.items ≡ map folder_of (texts words.now)) }
    ensures few { IfOk result (λ roots. length roots.items ≤ 8) }
    ensures bad { IfErr result (λ fault. (fault ≡ RootFault.OutOfMemory)
        ⊎ ((word : Bor (List ℕ)) × (fault ≡ RootFault.Bad word) × (first_bad [] (texts words.now) ≡ Some word.now))) }
{
    let mut roots = Vec::new(alloc);
    for word in words {
        let Some(root) = root_of(word, roots.as_slice()) else {
            return Err(RootFault::Bad(word));
        };
        let Ok(()) = roots.push(root) else {
            return Err(RootFault::OutOfMemory);
        };
    }
    Ok(roots)
}
