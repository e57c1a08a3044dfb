//! Writing bytes to a tap.
ghost use Rattle.std.specs.Prelude.{◌≡◌, [], ◌∷◌, ◌++◌, false, true, IfErr, OnOk};
ghost use Rattle.pana_wire.specs.Tap.{has_failed, is_flushed};
ghost use Rattle.pana_wire.specs.inner.Writing.{Writes, WritesPrefix};

use crate::serving::ServeFault;
use crate::tap::Tap;
use pana_calls::Session;
use std::io::Write;

/// Writes the text and a newline, and flushes them.
pub(crate) fn write_line<W: Write, S: Session>(
    writer: &mut Tap<W>,
    session: &S,
    text: &[u8],
) -> Result<(), ServeFault>
    requires { has_failed writer.old ≡ false }
    ensures ok { OnOk result (Writes W.contents (S.moment session.now) writer.old writer.new (text.now ++ 10 ∷ [])) }
    ensures err { IfErr result (WritesPrefix W.contents (S.moment session.now) writer.old writer.new (text.now ++ 10 ∷ [])) }
    ensures flushed { OnOk result (is_flushed writer.new ≡ true) }
{
    write_whole(writer, session, text)?;
    write_out(writer, session, b"\n")
}

/// Writes the bytes, and flushes them.
pub(crate) fn write_out<W: Write, S: Session>(
    writer: &mut Tap<W>,
    session: &S,
    bytes: &[u8],
) -> Result<(), ServeFault>
    requires { has_failed writer.old ≡ false }
    ensures ok { OnOk result (Writes W.contents (S.moment session.now) writer.old writer.new bytes.now) }
    ensures err { IfErr result (WritesPrefix W.contents (S.moment session.now) writer.old writer.new bytes.now) }
    ensures flushed { OnOk result (is_flushed writer.new ≡ true) }
{
    write_whole(writer, session, bytes)?;
    match writer.flush() {
        Ok(()) => Ok(()),
        Err(_) => Err(ServeFault::Write),
    }
}

/// Writes the bytes.
pub(crate) fn write_whole<W: Write, S: Session>(
    writer: &mut Tap<W>,
    session: &S,
    bytes: &[u8],
) -> Result<(), ServeFault>
    requires { has_failed writer.old ≡ false }
    ensures ok { OnOk result (Writes W.contents (S.moment session.now) writer.old writer.new bytes.now) }
    ensures err { IfErr result (WritesPrefix W.contents (S.moment session.now) writer.old writer.new bytes.now) }
{
    let mut rest = bytes;
    while !rest.is_empty() {
        match writer.write(session, rest) {
            Ok(0) => return Err(ServeFault::Write),
            Ok(taken) => rest = &rest[taken..],
            Err(_) => return Err(ServeFault::Write),
        }
    }
    Ok(())
}
