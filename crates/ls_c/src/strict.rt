//! Whether the data of a codestream's scans are exactly those that encoding gives.
ghost use Rattle.std.specs.Prelude.{◌≡◌};
ghost use Rattle.ls_c.specs.Calls.{IsStrictness};

use crate::form::{JlsrecFault, details, details_of, no_details};
use crate::refusal::fault_number;
use ls_inspect::inspect;
use std::alloc::Global;

/// The status of a codestream of which a scan has other data than encoding gives.
const NOT_STRICT: u32 = 15;

/// Decodes the codestream at the front of `bytes`, and compares the data of its scans with those that encoding gives.
/// Sets `used` to its number of bytes, and `fault` to the first component that has other data, or to the details of the
/// first fault. Returns the status.
pub fn check_strict(alloc: Global, bytes: &[u8], used: &mut usize, fault: &mut JlsrecFault) -> u32
    ensures { IsStrictness bytes.now used.new fault.new result }
{
    *used = 0;
    let found = match inspect(alloc, bytes) {
        Ok(found) => found,
        Err(first) => {
            *fault = details_of(first);
            return fault_number(first);
        }
    };
    *used = found.used;
    match found.loose {
        None => {
            *fault = no_details();
            0
        }
        Some(component) => {
            *fault = details(u32::from(component), 0, 0);
            NOT_STRICT
        }
    }
}
