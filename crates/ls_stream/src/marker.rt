//! Markers (T.87 Table C.1; T.81 Table B.1).
ghost use Rattle.std.specs.Prelude.{◌≡◌};
ghost use Rattle.ls_stream.specs.Markers.{code_of, is_application, marker_of};

/// A marker: the byte 0xFF and a code. Those that a reader of codestreams tells apart have names.
#[derive(Clone, Copy, PartialEq, Eq)]
pub enum Marker {
    /// SOI: code `0xD8`.
    StartOfImage,
    /// EOI: code `0xD9`.
    EndOfImage,
    /// SOS: code `0xDA`.
    StartOfScan,
    /// SOF55, the frame header of JPEG-LS: code `0xF7`.
    StartOfFrame,
    /// LSE: code `0xF8`.
    PresetParameters,
    /// APP0 to APP15, with the code, `0xE0` to `0xEF`.
    Application(u8),
    /// COM: code `0xFE`.
    Comment,
    /// Any other marker, with its code.
    Other(u8),
}

impl Marker {
    /// The code: the byte after 0xFF.
    pub fn code(self) -> u8
        ensures { result ≡ code_of self }
    {
        match self {
            Marker::StartOfImage => 0xD8,
            Marker::EndOfImage => 0xD9,
            Marker::StartOfScan => 0xDA,
            Marker::StartOfFrame => 0xF7,
            Marker::PresetParameters => 0xF8,
            Marker::Application(code) => code,
            Marker::Comment => 0xFE,
            Marker::Other(code) => code,
        }
    }

    /// The marker with this code, the byte after 0xFF.
    pub fn of_code(code: u8) -> Marker
        ensures marker { result ≡ marker_of code }
        ensures code { code_of result ≡ code }
    {
        match code {
            0xD8 => Marker::StartOfImage,
            0xD9 => Marker::EndOfImage,
            0xDA => Marker::StartOfScan,
            0xF7 => Marker::StartOfFrame,
            0xF8 => Marker::PresetParameters,
            0xFE => Marker::Comment,
            code if is_application(code) => Marker::Application(code),
            code => Marker::Other(code),
        }
    }
}

/// Whether this is the code of one of APP0 to APP15.
fn is_application(code: u8) -> bool
    ensures { result ≡ is_application code }
{
    0xE0 <= code && code <= 0xEF
}
