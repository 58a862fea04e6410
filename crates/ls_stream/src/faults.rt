//! Why bytes can't be decoded, and the message for each reason.
use ls_frame::PresetFault;
use std::alloc::AllocError;
use thiserror::Error;

/// Why no frame can be decoded: the first fault of the bytes from left to right, or a failed allocation.
#[derive(Clone, Copy, Debug, Drop, PartialEq, Eq, Error)]
pub enum StreamFault {
    /// The bytes end before the codestream does.
    #[error("truncated")]
    Truncated,
    /// The first two bytes aren't 0xFF and 0xD8: there is no SOI (T.81 B.2.1).
    #[error("no SOI")]
    NotSoi,
    /// No marker where one is due; a marker where another is due; a segment whose length doesn't fit its contents; or a
    /// number in a segment that T.87 doesn't allow (Annex C; T.81 B.1.1).
    #[error("bad segment")]
    BadSegment,
    /// A feature of T.87 or T.81 that this decoder doesn't support.
    #[error("unsupported: {0}")]
    Unsupported(What),
    /// Preset coding parameters out of their ranges (T.87 C.2.4.1.1).
    #[error("bad presets: {0}")]
    BadPresets(PresetFault),
    /// The frame has more than 2^28 samples, or a byte is needed after the 4,294,967,295 that a codestream may have.
    #[error("too large")]
    TooLarge,
    /// The scan data of this component, counted from 0, isn't what an encoder writes for any plane (T.87 Annex A), or
    /// ends at a marker before its plane does.
    #[error("bad code in component {0}")]
    BadCode(u8),
    /// The scan data of this component, counted from 0, has 16 bits or more after those of its plane.
    #[error("leftover bits in component {0}")]
    LeftoverBits(u8),
    /// An allocation failed. The bytes begin with a complete legal opening, up to and including the header of the first
    /// scan.
    #[error("no memory")]
    NoMemory,
}

/// A feature of T.87 or T.81 that isn't supported.
#[derive(Clone, Copy, Debug, Drop, PartialEq, Eq, Error)]
pub enum What {
    /// A marker with this code. Supported are SOI at the start, SOF55, LSE, SOS, EOI, APPn and COM (T.87 Table C.1;
    /// T.81 Table B.1).
    #[error("marker {0:02x}")]
    Marker(u8),
    /// This number of components, neither 1 nor 3 (Nf; T.87 C.2.2).
    #[error("{0} components")]
    Components(u8),
    /// A height of 0, which leaves the height to a later segment (Y; T.87 C.2.2).
    #[error("height 0")]
    HeightZero,
    /// Sampling factors other than 1 (Hi, Vi; T.87 C.2.2).
    #[error("sampling")]
    Sampling,
    /// A mapping table for a component's samples (Tmi; T.87 C.2.3).
    #[error("mapping table")]
    Mapping,
    /// Near-lossless coding: NEAR isn't 0 (T.87 C.2.3).
    #[error("near-lossless")]
    Near,
    /// Several components in one scan (Ns, ILV; T.87 C.2.3).
    #[error("interleave")]
    Interleave,
    /// A point transform (Pt; T.87 C.2.3).
    #[error("point transform")]
    PointTransform,
    /// An LSE segment with this ID, which isn't 1 (T.87 C.2.4.1).
    #[error("LSE {0}")]
    LseId(u8),
    /// An LSE segment after the header of the first scan.
    #[error("LSE after a scan")]
    LseLate,
    /// A scan of a component other than the next one of the frame header (Cs; T.87 C.2.3).
    #[error("scan order")]
    ScanOrder,
}

impl From<AllocError> for StreamFault {
    ghost use Rattle.std.specs.Prelude.{◌≡◌};
    ghost use Rattle.ls_stream.specs.declared.faults.StreamFault.TheVariants.{NoMemory};

    ghost from_gives = { λ _ fault. fault ≡ NoMemory };

    fn from(_refused: AllocError) -> StreamFault {
        StreamFault::NoMemory
    }
}
