//! The lengths of the next codestreams, and a bound on the length of one of a given form.
ghost use Rattle.std.specs.Prelude.{◌≡◌, ◌^◌, ◌<◌, ◌≤◌, List, ℕ, length};
ghost use Rattle.ls_frame.specs.Picture.{Picture, IsFrame};
ghost use Rattle.ls_frame.specs.Parameters.{Parameters, IsLegal};
ghost use Rattle.ls_stream.specs.Layout.{codestream};
ghost use Rattle.ls_c.specs.Calls.{IsExtent, IsExtents};
ghost use Rattle.ls_c.specs.Forms.{bound_of, IsOfForm};
ghost use Rattle.ls_c.specs.Refusals.{status_of};

use crate::form::{JlsrecFault, JlsrecForm, details_of, no_details};
use crate::refusal::{NO_MEMORY, Refusal};
use crate::request::{after, picture_form};
use ls_frame::{Buffered, Presets};
use ls_inspect::extent_of;
use ls_stream::{NextFault, StreamFault, next_stream};
use std::alloc::Global;

/// Sets `extent` to the number of bytes of the next codestream, found by its markers alone; 0 if there are no bytes, or
/// on a refusal, which is `TooLarge` or `NoMemory`.
pub fn next_extent(alloc: Global, bytes: &[u8], extent: &mut usize) -> Result<(), Refusal>
    ensures { IsExtent bytes.now extent.new (status_of result) }
{
    *extent = 0;
    if bytes.is_empty() {
        return Ok(());
    }
    let Ok(mut reader) = Buffered::new(alloc, bytes) else {
        return Err(NO_MEMORY);
    };
    match next_stream(alloc, &mut reader) {
        Ok(Some(codestream)) => {
            *extent = codestream.len();
            Ok(())
        }
        Ok(None) => Ok(()),
        Err(NextFault::NoMemory) => Err(NO_MEMORY),
        Err(NextFault::TooLarge) => Err(Refusal::Stream(StreamFault::TooLarge)),
        Err(NextFault::Io) => unreachable!(),
    }
}

/// Sets the first `extents` to the numbers of bytes of the codestreams that stand one after the other at the front of
/// `bytes`, found by their markers alone, and `found` to how many there are. Allocates nothing.
///
/// Succeeds if no bytes are left after them. Otherwise fails with `NoRoom` if there is no room for a further size; or
/// the bytes that are left don't get to EOI: with the fault of `ls_inspect::extent_of`, whose details are in `fault`.
pub fn next_extents(
    bytes: &[u8],
    extents: &mut [usize],
    found: &mut usize,
    fault: &mut JlsrecFault,
) -> Result<(), Refusal>
    ensures { IsExtents bytes.now extents.old extents.new found.new fault.new (status_of result) }
{
    *fault = no_details();
    let mut rest = bytes;
    let mut count = 0;
    *found = 0;
    while !rest.is_empty() {
        if count >= extents.len() {
            return Err(Refusal::NoRoom);
        }
        let size = match extent_of(rest) {
            Ok(size) => size,
            Err(first) => {
                *fault = details_of(first);
                return Err(Refusal::Stream(first));
            }
        };
        extents[count] = size;
        count += 1;
        *found = count;
        rest = after(rest, size);
    }
    Ok(())
}

/// Returns an upper bound on the bytes of a codestream of this form, with any coding parameters, which is less than
/// 2^32; 0 if there is no picture of it.
pub fn bound(form: &JlsrecForm) -> u64
    ensures value { result ≡ bound_of form.now }
    ensures small { result < 2 ^ 32 }
    ensures enough { (f : Picture) (p : Parameters) → IsFrame f → IsLegal p → p.maxval ≡ f.maxval → IsOfForm f form.now
        → length (codestream f p) ≤ result }
{
    let Ok(form) = picture_form(form) else {
        return 0;
    };
    let count = u64::from(form.kind.components());
    let pixels = u64::from(form.width) * u64::from(form.height);
    let limit = u64::from(Presets::default_of(form.maxval).limit());
    29 + 13 * count + count * (limit * pixels / 7 + 1)
}
