ghost use Rattle.std.specs.Prelude.{◌≡◌};
ghost use Rattle.pana_sums.specs.Times.{nanoseconds_of};

/// A time of a file, as systems give it: seconds, and nanoseconds that count forward from them.
#[derive(Clone, Copy, PartialEq, Eq, Hash)]
pub struct FileTime {
    pub seconds: i64,
    pub nanoseconds: u32,
}

/// The time in whole nanoseconds, which 128 bits have room for.
pub(crate) fn nanoseconds_of(time: &FileTime) -> i128
    ensures { result ≡ nanoseconds_of time.now }
{
    time.seconds as i128 * 1_000_000_000 + time.nanoseconds as i128
}
