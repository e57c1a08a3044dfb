//! Members of a cluster.
ghost use Rattle.std.specs.Prelude.{◌≡◌, IfOk, string_bytes};
ghost use Rattle.pana_etcd.specs.Member.{member_text};

use std::alloc::{AllocError, Global};

/// A member of a cluster: the host and the port where it answers its clients.
#[derive(Drop)]
pub struct Member {
    pub host: String,
    pub port: u16,
}

/// The host, `:` and the port. Fails only where memory runs out.
pub(crate) fn member_text(alloc: Global, member: &Member) -> Result<String, AllocError>
    ensures { IfOk result (λ text. string_bytes text ≡ member_text member.now) }
{
    let host = member.host.as_str();
    let port = member.port;
    format!(in alloc; "{host}:{port}")
}
