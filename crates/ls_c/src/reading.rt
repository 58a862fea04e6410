//! Reading the form of a picture from its codestream, without the samples.
ghost use Rattle.std.specs.Prelude.{◌≡◌};
ghost use Rattle.ls_c.specs.Calls.{IsReading};
ghost use Rattle.ls_c.specs.Refusals.{status_of};

use crate::form::{JlsrecFault, JlsrecForm, details_of, form_by, no_details, no_form};
use crate::refusal::Refusal;
use ls_stream::Opening;

/// Sets `form` to the one that the headers at the front of `bytes` give, or `fault` to the details of the first fault.
pub fn read_form(
    bytes: &[u8],
    form: &mut JlsrecForm,
    fault: &mut JlsrecFault,
) -> Result<(), Refusal>
    ensures { IsReading bytes.now form.new fault.new (status_of result) }
{
    *form = no_form();
    *fault = no_details();
    match Opening::read(bytes) {
        Ok(opening) => {
            *form = form_by(&opening);
            Ok(())
        }
        Err(first) => {
            *fault = details_of(first);
            Err(Refusal::Stream(first))
        }
    }
}
