use std::error::Error;
use std::fmt;

/// Why a text is no address of a log in etcd.
#[derive(Clone, Copy, Debug)]
pub enum AddressFault {
    /// It doesn't begin with `etcd://`.
    NotEtcd,
    /// It has no name of a log behind its members, or one that isn't 1 to 100 letters, digits, `-`, `_` and `.`.
    BadName,
    /// Before its `@` stands no user, `:` and password.
    BadLogin,
    /// It has more than nine members.
    TooManyMembers,
    /// The member with this number, from 1, isn't a host, `:` and a port.
    BadMember { number: u64 },
    /// Memory ran out.
    OutOfMemory,
}

impl fmt::Display for AddressFault {
    fn fmt<W: fmt::Write>(&self, f: &mut fmt::Formatter<W>) -> fmt::Result {
        match self {
            AddressFault::NotEtcd => f.write_str(
                "no address: etcd://[USER:PASSWORD@]HOST:PORT[,HOST:PORT..]/NAME",
            ),
            AddressFault::BadName => f.write_str(
                "no name of a log: 1 to 100 letters, digits, '-', '_' and '.' behind the last '/'",
            ),
            AddressFault::BadLogin => f.write_str(
                "no user, ':' and password before '@': 1 to 100 characters each, of the password without '\"', '/', '@' and '\\\\'",
            ),
            AddressFault::TooManyMembers => f.write_str("more than nine members"),
            AddressFault::BadMember { number } => {
                write!(f, "member {number} isn't a host, ':' and a port")
            }
            AddressFault::OutOfMemory => f.write_str("out of memory"),
        }
    }
}

impl Error for AddressFault {}
