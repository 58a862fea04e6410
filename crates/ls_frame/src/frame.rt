//! Frames: pictures within the limits of this recorder.
ghost use Rattle.std.specs.Prelude.{◌≡◌, ◌<◌, ◌↔◌, ℕ, List, length, IsTrue, None, Some, IfOk, IfErr, MatchResult};
ghost use Rattle.ls_frame.specs.Picture.{IsFormed, picture_of, form_of, frame_fault, sample_count};
ghost use Rattle.ls_frame.specs.View.Numbers.{numbers};

use crate::samples::{Samples, are_same};
use std::marker::Model;
use thiserror::Error;

/// The maximum number of samples of a frame, in all components together.
pub const MOST_SAMPLES: u64 = 1 << 28;

/// Gray pixels have one sample, colour pixels three: red, green, blue.
#[derive(Clone, Copy, Debug, PartialEq, Eq)]
pub enum Kind {
    Gray,
    Color,
}

impl Kind {
    ghost use Rattle.ls_frame.specs.Picture.{components};

    /// The number of samples per pixel.
    pub fn components(self) -> u8
        ensures { result ≡ components self }
    {
        match self {
            Kind::Gray => 1,
            Kind::Color => 3,
        }
    }
}

/// The form of a picture: kind, size in pixels, greatest sample value.
#[derive(Clone, Copy, Debug, PartialEq, Eq)]
pub struct Form {
    pub kind: Kind,
    /// Pixels in a row.
    pub width: u16,
    /// Rows.
    pub height: u16,
    pub maxval: u16,
}

impl Form {
    /// The number of samples of a picture of this form, in all components together.
    pub fn sample_count(self) -> u64
        ensures { result ≡ sample_count self.kind self.width self.height }
    {
        u64::from(self.width) * u64::from(self.height) * u64::from(self.kind.components())
    }

    /// Checks whether a picture of this form with this number of samples is a frame, whatever the samples are; if
    /// only their values can keep it from being one, this passes. Otherwise returns the first fault in `FrameFault`'s
    /// order.
    pub fn check(self, samples: usize) -> Result<(), FrameFault>
        ensures exactly { (items : List ℕ) → length items ≡ samples → MatchResult result
            (λ _. IsFormed (picture_of self items))
            (λ fault. (IsFormed (picture_of self items) → ⊥) × (frame_fault (picture_of self items) ≡ Some fault)) }
    {
        if self.width == 0 || self.height == 0 {
            return Err(FrameFault::ZeroSize);
        }
        let count = self.sample_count();
        if count > MOST_SAMPLES {
            return Err(FrameFault::TooManySamples);
        }
        if samples as u64 != count {
            return Err(FrameFault::WrongCount);
        }
        if self.maxval == 0 {
            return Err(FrameFault::ZeroMaxval);
        }
        Ok(())
    }
}

/// Why a picture isn't a frame. `Frame::new` checks in this order.
#[derive(Clone, Copy, Debug, Drop, PartialEq, Eq, Error)]
pub enum FrameFault {
    #[error("a side is 0")]
    ZeroSize,
    #[error("over 2^28 samples")]
    TooManySamples,
    #[error("another number of samples than the size asks for")]
    WrongCount,
    #[error("maxval is 0")]
    ZeroMaxval,
    /// The index of the first sample over maxval.
    #[error("sample {0} is over maxval")]
    SampleTooLarge(usize),
}

/// A picture of 1 to 65535 pixels a side and at most 2^28 samples, each at most maxval, which is 1 to 65535.
///
/// Samples are ordered from the top row down, from left to right in a row, and by component in a pixel.
#[derive(Debug, Drop)]
pub struct Frame {
    form: Form,
    samples: Vec<u16>,
}

impl Model for Frame {
    ghost use Rattle.ls_frame.specs.Picture.{Picture, IsFrame, picture_of};

    ghost Value = { Picture };

    ghost view = { λ f. picture_of f.form f.samples.items };

    ghost invariant = { λ f. IsFrame (picture_of f.form f.samples.items) };
}

impl Frame {
    ghost use Rattle.ls_frame.specs.Picture.{Picture, IsFrame};

    /// Makes a frame of this kind, size and maxval with these samples, row by row from the top, pixel by pixel,
    /// component by component. If they don't make a frame, returns the first fault in `FrameFault`'s order, and the
    /// samples.
    pub fn new(
        kind: Kind,
        width: u16,
        height: u16,
        maxval: u16,
        samples: Vec<u16>,
    ) -> Result<Frame, (FrameFault, Vec<u16>)>
        ensures exactly { let picture : Picture = record {
          kind = kind;
          width = width;
          height = height;
          maxval = maxval;
          samples = samples.items;
        } in
            MatchResult result
            (λ f. (frame_fault picture ≡ None) × (f ≡ picture))
            (λ refused. frame_fault picture ≡ Some refused.0) }
        ensures returned { IfErr result (λ refused. refused.1 ≡ samples) }
    {
        let form = Form {
            kind,
            width,
            height,
            maxval,
        };
        match FrameView::new(form, Samples::Words(&samples)) {
            Ok(_) => Ok(Frame::from_parts(form, samples)),
            Err(fault) => Err((fault, samples)),
        }
    }

    /// Makes a frame without checks. Requires parts that `Frame::new` accepts.
    pub fn from_parts(form: Form, samples: Vec<u16>) -> Frame
        requires { IsFrame (picture_of form samples.items) }
        ensures { result ≡ picture_of form samples.items }
    {
        Frame { form, samples }
    }

    /// Kind, size and maxval.
    pub fn form(&self) -> Form
        ensures value { result ≡ form_of self.now }
        ensures lawful { IsFrame self.now }
    {
        self.form
    }

    /// Gray or colour.
    pub fn kind(&self) -> Kind
        ensures value { result ≡ self.now.kind }
        ensures lawful { IsFrame self.now }
    {
        self.form.kind
    }

    /// Pixels in a row, 1 to 65535.
    pub fn width(&self) -> u16
        ensures value { result ≡ self.now.width }
        ensures lawful { IsFrame self.now }
    {
        self.form.width
    }

    /// Rows, 1 to 65535.
    pub fn height(&self) -> u16
        ensures value { result ≡ self.now.height }
        ensures lawful { IsFrame self.now }
    {
        self.form.height
    }

    /// The greatest value that a sample may have, 1 to 65535.
    pub fn maxval(&self) -> u16
        ensures value { result ≡ self.now.maxval }
        ensures some { 0 < result }
        ensures lawful { IsFrame self.now }
    {
        self.form.maxval
    }

    /// The samples, from the top row down, from left to right in a row, by component in a pixel.
    pub fn samples(&self) -> &[u16]
        ensures value { result.now ≡ self.now.samples }
        ensures lawful { IsFrame self.now }
    {
        self.samples.as_slice()
    }

    /// Borrows this frame as a view of its samples.
    pub fn view(&self) -> FrameView<'_>
        ensures { result ≡ self.now }
    {
        FrameView {
            picture: PictureView::from_parts(self.form, Samples::Words(self.samples.as_slice())),
        }
    }
}

/// A picture over borrowed samples, which may be over maxval. In all else it is within the limits of a `Frame`.
///
/// Samples are ordered as in a `Frame`.
#[derive(Debug, Drop)]
pub struct PictureView<'a> {
    form: Form,
    samples: Samples<'a>,
}

impl<'a> Model for PictureView<'a> {
    ghost use Rattle.ls_frame.specs.Picture.{Picture, IsFormed, picture_of};
    ghost use Rattle.ls_frame.specs.View.Numbers.{numbers};

    ghost Value = { Picture };

    ghost view = { λ f. picture_of f.form (numbers f.samples) };

    ghost invariant = { λ f. IsFormed (picture_of f.form (numbers f.samples)) };
}

impl<'a> PictureView<'a> {
    /// Makes a picture of this form over these samples, whose values it doesn't check. If anything but a sample over
    /// maxval keeps it from being a frame, returns the first fault in `FrameFault`'s order.
    pub fn new(form: Form, samples: Samples<'a>) -> Result<PictureView<'a>, FrameFault>
        ensures exactly { let picture = picture_of form (numbers samples.entry) in
            MatchResult result
            (λ f. IsFormed picture × (f ≡ picture))
            (λ fault. (IsFormed picture → ⊥) × (frame_fault picture ≡ Some fault)) }
    {
        match form.check(samples.len()) {
            Ok(()) => Ok(PictureView::from_parts(form, samples)),
            Err(fault) => Err(fault),
        }
    }

    /// Makes a picture without checks. Requires parts that `PictureView::new` accepts.
    pub fn from_parts(form: Form, samples: Samples<'a>) -> PictureView<'a>
        requires { IsFormed (picture_of form (numbers samples)) }
        ensures { result ≡ picture_of form (numbers samples.entry) }
    {
        PictureView { form, samples }
    }

    /// Kind, size, and the greatest value that a sample of a frame may have. Samples of this picture may be over it.
    pub fn form(&self) -> Form
        ensures value { result ≡ form_of self.now }
        ensures lawful { IsFormed self.now }
    {
        self.form
    }

    /// The samples, ordered as in a `Frame`.
    pub fn samples(&self) -> Samples<'a>
        ensures value { numbers result ≡ self.now.samples }
        ensures lawful { IsFormed self.now }
    {
        self.samples
    }
}

/// A frame over borrowed samples: a `PictureView` with no sample over maxval.
#[derive(Debug, Drop)]
pub struct FrameView<'a> {
    picture: PictureView<'a>,
}

impl<'a> Model for FrameView<'a> {
    ghost use Rattle.ls_frame.specs.Picture.{Picture, IsFrame};

    ghost Value = { Picture };

    ghost view = { λ f. f.picture };

    ghost invariant = { λ f. IsFrame f.picture };
}

impl<'a> FrameView<'a> {
    ghost use Rattle.ls_frame.specs.Picture.{IsFrame};

    /// Makes a frame of this form over these samples. Accepts exactly what `Frame::new` accepts; otherwise returns the
    /// first fault in `FrameFault`'s order.
    pub fn new(form: Form, samples: Samples<'a>) -> Result<FrameView<'a>, FrameFault>
        ensures exactly { let picture = picture_of form (numbers samples.entry) in
            MatchResult result
            (λ f. (frame_fault picture ≡ None) × (f ≡ picture))
            (λ fault. frame_fault picture ≡ Some fault) }
        ensures lawful { IfOk result (λ f. IsFrame f) }
    {
        let picture = match PictureView::new(form, samples) {
            Ok(picture) => picture,
            Err(fault) => return Err(fault),
        };
        match samples.first_above(form.maxval) {
            Some(place) => Err(FrameFault::SampleTooLarge(place)),
            None => Ok(FrameView { picture }),
        }
    }

    /// Kind, size and maxval.
    pub fn form(&self) -> Form
        ensures value { result ≡ form_of self.now }
        ensures lawful { IsFrame self.now }
    {
        self.picture.form
    }

    /// The samples, ordered as in a `Frame`.
    pub fn samples(&self) -> Samples<'a>
        ensures value { numbers result ≡ self.now.samples }
        ensures lawful { IsFrame self.now }
    {
        self.picture.samples
    }

    /// Returns the same frame as a picture, for calls that take one.
    pub fn picture(&self) -> &PictureView<'a>
        ensures value { result.now ≡ self.now }
        ensures lawful { IsFrame self.now }
    {
        &self.picture
    }
}

impl PartialEq for Frame {
    ghost use Rattle.ls_frame.specs.Picture.{same_picture};
    ghost use Rattle.ls_frame.specs.View.Alike.{same_picture-laws};

    ghost eq = { same_picture };

    ghost laws = { same_picture-laws };

    fn eq(&self, other: &Frame) -> bool
        ensures value { result ≡ same_picture self.now other.now }
        ensures same { IsTrue result ↔ (self.now ≡ other.now) }
    {
        self.form == other.form && are_same(&self.samples, &other.samples)
    }
}
