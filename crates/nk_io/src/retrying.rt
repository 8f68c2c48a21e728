//! One read and one write of std, made again where a signal interrupted them.
ghost use Rattle.std.specs.Prelude.{◌≡◌, ◌≢◌, ◌<◌, length, take, IfOk, IfErr, OnErr};
ghost use Rattle.std.specs.Io.{ReadsAtMost, WritesAtMost};
ghost use Rattle.std.specs.Io.KnownBytes.{Consumes, Keeps, IsAtEnd, Appends};
ghost use Rattle.std.specs.IoError.{error_kind};

use std::io::{Error, ErrorKind, Read, Result, Write};

/// How often a call is made before an interrupt counts as a fault. It bounds each call.
const TRIES: u32 = 65_536;

/// Reads once, and again where a signal interrupted the read.
///
/// It never fails by `Interrupted`: a reader that is always interrupted has timed out (`TimedOut`).
pub fn read_again<R: Read>(reader: &mut R, buffer: &mut [u8]) -> Result<usize>
    ensures bound { ReadsAtMost result buffer.new }
    ensures given { IfOk result (λ n. Consumes (R.remaining reader.old) (R.remaining reader.new) (take n buffer.new)) }
    ensures end { IfOk result (λ n. n ≡ 0 → 0 < length buffer.old → IsAtEnd (R.remaining reader.new)) }
    ensures failed { OnErr result (Keeps (R.remaining reader.old) (R.remaining reader.new)) }
    ensures retried { IfErr result (λ e. error_kind e ≢ ErrorKind.Interrupted) }
{
    for _ in 0..TRIES {
        match reader.read(buffer) {
            Ok(count) => return Ok(count),
            Err(error) => {
                if error.kind() != ErrorKind::Interrupted {
                    return Err(error);
                }
            }
        }
    }
    Err(Error::from(ErrorKind::TimedOut))
}

/// Writes once, and again where a signal interrupted the write.
///
/// It never fails by `Interrupted`: a writer that is always interrupted has timed out (`TimedOut`).
pub fn write_again<W: Write>(writer: &mut W, bytes: &[u8]) -> Result<usize>
    ensures bound { WritesAtMost result bytes.now }
    ensures taken { IfOk result (λ n. Appends (W.contents writer.old) (W.contents writer.new) (take n bytes.now)) }
    ensures failed { OnErr result (Keeps (W.contents writer.old) (W.contents writer.new)) }
    ensures retried { IfErr result (λ e. error_kind e ≢ ErrorKind.Interrupted) }
{
    for _ in 0..TRIES {
        match writer.write(bytes) {
            Ok(count) => return Ok(count),
            Err(error) => {
                if error.kind() != ErrorKind::Interrupted {
                    return Err(error);
                }
            }
        }
    }
    Err(Error::from(ErrorKind::TimedOut))
}
