//! The structs shared with C: the form of a picture, and the details of a fault.
ghost use Rattle.std.specs.Prelude.{◌≡◌};
ghost use Rattle.ls_c.specs.Calls.{form_by};
ghost use Rattle.ls_c.specs.Forms.{no_form, plain_form};
ghost use Rattle.ls_c.specs.Refusals.{details_of, no_details};

use ls_stream::{Opening, StreamFault, What};

/// The form of a picture: `jlsrec_form` of `jlsrec.h`.
#[repr(C)]
#[derive(Clone, Copy)]
pub struct JlsrecForm {
    /// Samples per pixel, 1 or 3.
    pub components: u32,
    /// Pixels per row, 1 to 65535.
    pub width: u32,
    /// Rows, 1 to 65535.
    pub height: u32,
    /// The greatest value that a sample may have, 1 to 65535.
    pub maxval: u32,
    /// T1, T2, T3 and RESET of T.87; 0 means the default for maxval (C.2.4.1.1).
    pub t1: u32,
    pub t2: u32,
    pub t3: u32,
    pub reset: u32,
}

/// The details of a fault that its status doesn't give: `jlsrec_fault` of `jlsrec.h`. Those that a fault doesn't have
/// are 0.
#[repr(C)]
#[derive(Clone, Copy)]
pub struct JlsrecFault {
    /// The component, from 0, whose data is at fault.
    pub component: u32,
    /// The code of a marker that isn't supported.
    pub marker: u32,
    /// The number of components of a frame header, or the ID of an LSE segment, if that isn't supported.
    pub number: u32,
}

/// Returns the form that an opening gives, with the coding parameters in force.
pub fn form_by(opening: &Opening) -> JlsrecForm
    ensures { result ≡ form_by opening.now }
{
    let form = opening.form();
    let presets = opening.presets();
    JlsrecForm {
        components: u32::from(form.kind.components()),
        width: u32::from(form.width),
        height: u32::from(form.height),
        maxval: u32::from(form.maxval),
        t1: u32::from(presets.t1()),
        t2: u32::from(presets.t2()),
        t3: u32::from(presets.t3()),
        reset: u32::from(presets.reset()),
    }
}

/// Returns no form: zeros.
pub fn no_form() -> JlsrecForm
    ensures { result ≡ no_form }
{
    plain_form(0, 0, 0, 0)
}

/// Returns a form with default coding parameters.
pub fn plain_form(components: u32, width: u32, height: u32, maxval: u32) -> JlsrecForm
    ensures { result ≡ plain_form components width height maxval }
{
    JlsrecForm {
        components,
        width,
        height,
        maxval,
        t1: 0,
        t2: 0,
        t3: 0,
        reset: 0,
    }
}

/// Returns no details: zeros.
pub fn no_details() -> JlsrecFault
    ensures { result ≡ no_details }
{
    details(0, 0, 0)
}

/// Returns the details of a fault, beside its status.
pub fn details_of(fault: StreamFault) -> JlsrecFault
    ensures { result ≡ details_of fault }
{
    match fault {
        StreamFault::BadCode(component) => details(u32::from(component), 0, 0),
        StreamFault::LeftoverBits(component) => details(u32::from(component), 0, 0),
        StreamFault::Unsupported(What::Marker(code)) => details(0, u32::from(code), 0),
        StreamFault::Unsupported(What::Components(count)) => details(0, 0, u32::from(count)),
        StreamFault::Unsupported(What::LseId(id)) => details(0, 0, u32::from(id)),
        _ => no_details(),
    }
}

/// Returns these details.
pub fn details(component: u32, marker: u32, number: u32) -> JlsrecFault
    ensures component { result.component ≡ component }
    ensures marker { result.marker ≡ marker }
    ensures number { result.number ≡ number }
{
    JlsrecFault {
        component,
        marker,
        number,
    }
}
