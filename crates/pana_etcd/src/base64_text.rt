//! Bytes as they stand in requests and answers.
ghost use Rattle.std.specs.Prelude.{◌≡◌, IfOk, string_bytes};
ghost use Rattle.pana_etcd.specs.Key.{in_base64};

use base64::engine::general_purpose::STANDARD;
use std::alloc::{AllocError, Global};

/// The bytes in base64. Fails only where memory runs out.
#[tactic(auto, unfolding(crate::specs::Key::in_base64))]
pub(crate) fn in_base64(alloc: Global, bytes: &[u8]) -> Result<String, AllocError>
    ensures { IfOk result (λ text. string_bytes text ≡ in_base64 bytes.now) }
{
    STANDARD.encode(alloc, bytes)
}
