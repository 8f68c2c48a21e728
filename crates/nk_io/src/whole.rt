//! The two calls over a whole source and a whole sink: each goes on from call to call until all is
//! read or written, or until a fault.
ghost use Rattle.std.specs.Prelude.{◌≡◌, ◌+◌, ◌^◌, ◌<◌, ◌≤◌, List, [], length, vec_len, IfOk, IfErr, IsErr, IfSome, OnOk, OnErr, IsOkUnless};
ghost use Rattle.nk_io.specs.Faults.{Rose, Quiet};
ghost use Rattle.nk_io.specs.Given.{GivesAll, GivesBefore, FitsIn, Exceeds};
ghost use Rattle.nk_io.specs.Got.{Gains, GainsPart};

use crate::sink::{Put, Sink};
use crate::source::{Source, Take};
use std::alloc::{AllocError, Global};
use thiserror::Error;

/// How many bytes [`read_all`] asks for at once.
const CHUNK: usize = 65_536;

/// Why [`read_all`] stopped before the end (this project's own).
#[derive(Clone, Copy, Debug, PartialEq, Eq, Error)]
pub enum ReadError {
    /// The source gave one byte more than the limit.
    #[error("input too large")]
    TooLarge,
    /// The source failed.
    #[error("read fault")]
    Fault,
    /// Memory was wanting. Some bytes may have been taken.
    #[error("out of memory")]
    Memory,
}

impl From<AllocError> for ReadError {
    ghost use Rattle.std.specs.Prelude.{◌≡◌};
    ghost use Rattle.nk_io.specs.declared.whole.ReadError.TheVariants.{Memory};

    ghost from_gives = { λ _ e. e ≡ Memory };

    fn from(_error: AllocError) -> Self {
        ReadError::Memory
    }
}

/// The sink failed before all was written (this project's own).
#[derive(Clone, Copy, Debug, PartialEq, Eq, Error)]
#[error("write fault")]
pub struct WriteFault;

/// Reads the source to its end, at most `limit` bytes. It never takes more than `limit + 1`.
///
/// `TooLarge`: the source gave `limit + 1` bytes. `Fault`: it failed. `Memory`: some bytes may have
/// been taken.
pub fn read_all<I: Source>(alloc: Global, input: &mut I, limit: u32) -> Result<Vec<u8>, ReadError>
    requires { limit < 2 ^ 31 }
    ensures within { IfOk result (λ bytes. vec_len bytes ≤ limit) }
    ensures all { IfOk result (λ bytes. GivesAll (I.left input.old) (I.left input.new) bytes.items) }
    ensures given { IfErr result (λ e. GivesBefore e (I.left input.old) (I.left input.new) limit) }
    ensures fault { result ≡ Err ReadError.Fault → Rose (I.faults input.old) (I.faults input.new) }
    ensures never_falls { I.faults input.old ≤ I.faults input.new }

    // With no fault, what fits is read. What does not fit is refused.
    ensures fits { FitsIn limit (I.left input.old)
        → Quiet (I.faults input.old) (I.faults input.new) → IsOkUnless result ReadError.Memory }
    ensures overlong { Exceeds limit (I.left input.old) → IsErr result }
{
    let most = limit as usize;
    let mut bytes = Vec::new(alloc);
    let mut chunk = zeroed(alloc, CHUNK)?;
    'turns: loop {
        let room = (most + 1 - bytes.len()).min(CHUNK);
        let front = &mut chunk[..room];
        match input.take(front) {
            Take::Took(count) => {
                if count > most - bytes.len() {
                    return Err(ReadError::TooLarge);
                }
                let Ok(()) = bytes.extend_from_slice(&front[..count]) else {
                    return Err(ReadError::Memory);
                };
            }
            Take::End => return Ok(bytes),
            Take::Failed => return Err(ReadError::Fault),
        }
    }
}

// A buffer of so many bytes.
fn zeroed(alloc: Global, len: usize) -> Result<Vec<u8>, AllocError>
    ensures { IfOk result (λ buffer. vec_len buffer ≡ len) }
{
    vec![in alloc; 0u8; len]
}

/// Writes all bytes to the sink, each time the whole rest. With no bytes it makes no call of the sink.
///
/// `WriteFault`: the sink failed, and got a proper prefix.
pub fn write_all<O: Sink>(out: &mut O, bytes: &[u8]) -> Result<(), WriteFault>
    ensures all { OnOk result (Gains (O.got out.old) (O.got out.new) bytes.now) }
    ensures part { OnErr result (GainsPart (O.got out.old) (O.got out.new) bytes.now) }
    ensures fault { OnErr result (Rose (O.faults out.old) (O.faults out.new)) }
    ensures never_falls { O.faults out.old ≤ O.faults out.new }
    ensures nothing { bytes.now ≡ [] → out.new ≡ out.old }
{
    let mut rest = bytes;
    while !rest.is_empty() {
        match out.put(rest) {
            Put::Put(count) => rest = &rest[count..],
            Put::Failed => return Err(WriteFault),
        }
    }
    Ok(())
}
