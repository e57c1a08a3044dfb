//! What a seal says of the bytes before it: functions that do nothing, whose contracts are the laws.
ghost use Rattle.pana_seal.specs.laws.Digests.{SameSealSameBytes};

/// Two sealed lines with the same seal stand behind the same bytes and begin with the same ones, or two texts are at hand
/// that differ and have the same SHA-256.
pub fn same_seal_same_bytes()
    ensures { SameSealSameBytes }
{}
