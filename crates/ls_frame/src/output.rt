//! Writing all bytes of a slice, and joining texts in a buffer before they are written.
ghost use Rattle.std.specs.Prelude.{◌≡◌, ◌+◌, ◌<◌, ◌≤◌, ◌++◌, OnOk, IfErr, is_err, length, take};
ghost use Rattle.std.specs.Io.KnownBytes.{Appends};
ghost use Rattle.ls_frame.specs.View.Devices.{count_after};

use crate::device::Outlet;
use thiserror::Error;

/// A write failed after exactly the first `written` bytes had been written.
#[derive(Clone, Copy, Debug, Drop, PartialEq, Eq, Error)]
#[error("output failed after {written} bytes")]
pub struct WriteFault {
    pub written: usize,
}

/// Writes all of `bytes`, in as many calls of `give` as needed. Fails at the first call that fails: exactly the first
/// `written` bytes have then been written, and not all.
pub fn write_bytes<W: Outlet>(writer: &mut W, bytes: &[u8]) -> Result<(), WriteFault>
    ensures ok { OnOk result (Appends (W.contents writer.old) (W.contents writer.new) bytes.now) }
    ensures fault { IfErr result
        (λ fault. Appends (W.contents writer.old) (W.contents writer.new) (take fault.written bytes.now)) }
    ensures part { IfErr result (λ fault. fault.written < length bytes.now) }
    ensures failures { W.failed_writes writer.new ≡ count_after (is_err result) (W.failed_writes writer.old) }
{
    let mut written = 0;
    while written < bytes.len() {
        match writer.give(&bytes[written..]) {
            Ok(taken) => written += taken,
            Err(_) => return Err(WriteFault { written }),
        }
    }
    Ok(())
}

/// Copies `text` into `buffer` after its first `filled` bytes, and returns where `text` ends, `filled` plus its length.
/// Requires that `buffer` is long enough.
pub fn lay(buffer: &mut [u8], filled: usize, text: &[u8]) -> usize
    requires { filled + length text.now ≤ length buffer.old }
    ensures laid { take result buffer.new ≡ take filled buffer.old ++ text.now }
    ensures end { result ≡ filled + length text.now }
{
    let end = filled + text.len();
    buffer[filled..end].copy_from_slice(text);
    end
}
