//! Reads that say how many bytes came, even if they fail.

ghost use Rattle.std.specs.Prelude.{◌≡◌, ◌<◌, ◌≤◌, ℕ, List, false, length, take, IfOk, IfErr, OnOk, OnErr};
ghost use Rattle.std.specs.Io.{ReadsAtMost};
ghost use Rattle.std.specs.Io.KnownBytes.{Consumes, IsAtEnd, Keeps};
ghost use Rattle.history.specs.Receiving.{Gave, HasRead, WasShort};

use history::Fault;
use std::alloc::Global;
use std::io::{ErrorKind, Read};

/// The reader failed.
#[derive(Clone, Copy, Debug, PartialEq, Eq)]
pub struct ReaderFailed;

/// Makes one read, and makes it again if a signal interrupts it.
pub fn read_some<R: Read>(reader: &mut R, buf: &mut [u8]) -> Result<usize, ReaderFailed>
    ensures bound { ReadsAtMost result buf.new }
    ensures ok { IfOk result (λ n. Consumes (R.remaining reader.old) (R.remaining reader.new) (take n buf.new)) }
    ensures end { IfOk result (λ n. n ≡ 0 → 0 < length buf.old → IsAtEnd (R.remaining reader.new)) }
    ensures err { OnErr result (Keeps (R.remaining reader.old) (R.remaining reader.new)) }
{
    for _ in 0..u64::MAX {
        match reader.read(buf) {
            Ok(n) => return Ok(n),
            Err(e) => {
                if e.kind() != ErrorKind::Interrupted {
                    return Err(ReaderFailed);
                }
            }
        }
    }
    Err(ReaderFailed)
}

/// Fills the buffer as far as the input goes, and says how many bytes came.
pub fn fill<R: Read>(reader: &mut R, buf: &mut [u8]) -> Result<usize, ReaderFailed>
    ensures within { IfOk result (λ n. n ≤ length buf.new) }
    ensures same { length buf.new ≡ length buf.old }
    ensures ok { IfOk result (λ n. Consumes (R.remaining reader.old) (R.remaining reader.new) (take n buf.new)) }
    ensures end { IfOk result (λ n. n < length buf.new → IsAtEnd (R.remaining reader.new)) }
    ensures err { OnErr result ((n : ℕ) × (n < length buf.new) × Consumes (R.remaining reader.old) (R.remaining reader.new) (take n buf.new)) }
{
    let mut at = 0;
    while at < buf.len() {
        let count = read_some(reader, &mut buf[at..])?;
        if count == 0 {
            return Ok(at);
        }
        at += count;
    }
    Ok(at)
}

/// Reads as many bytes as the buffer has, and throws them away.
fn skip_some<R: Read>(reader: &mut R, buffer: &mut [u8]) -> Result<(), Fault>
    ensures same { length buffer.new ≡ length buffer.old }
    ensures ok { OnOk result (Consumes (R.remaining reader.old) (R.remaining reader.new) buffer.new) }
    ensures refused { IfErr result (WasShort (R.remaining reader.old) (R.remaining reader.new) (length buffer.old)) }
{
    match fill(reader, buffer) {
        Err(_) => Err(Fault::ReaderFailed),
        Ok(count) => {
            if count < buffer.len() {
                return Err(Fault::Ended);
            }
            Ok(())
        }
    }
}

/// Reads `whole` bytes, and throws them away.
pub fn skip<R: Read>(reader: &mut R, whole: usize) -> Result<(), Fault>
    ensures ok { OnOk result ((body : List ℕ) × Gave (R.remaining reader.old) (R.remaining reader.new) whole body) }
    ensures refused { IfErr result (WasShort (R.remaining reader.old) (R.remaining reader.new) whole) }
{
    let mut buffer = [0u8; 1024];
    let mut left = whole;
    while left > 0 {
        let size = left.min(1024);
        skip_some(reader, &mut buffer[..size])?;
        left -= size;
    }
    Ok(())
}

/// Reads a body of this size into memory.
pub fn collect<R: Read>(alloc: Global, reader: &mut R, whole: usize) -> Result<Vec<u8>, Fault>
    ensures gave { IfOk result (λ body. Gave (R.remaining reader.old) (R.remaining reader.new) whole body.items) }
    ensures refused { IfErr result (HasRead false (R.remaining reader.old) (R.remaining reader.new) whole) }
{
    let Ok(mut body) = vec![in alloc; 0u8; whole] else {
        return Err(Fault::OutOfMemory);
    };
    match fill(reader, body.as_mut_slice()) {
        Err(_) => Err(Fault::ReaderFailed),
        Ok(count) => {
            if count < whole {
                return Err(Fault::Ended);
            }
            Ok(body)
        }
    }
}
