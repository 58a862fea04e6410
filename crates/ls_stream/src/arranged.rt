//! Pictures over a caller's samples, which may be in the order of pixels or plane by plane.
ghost use Rattle.std.specs.Prelude.{◌≡◌, ◌*◌, ◌^◌, ◌<◌};
ghost use Rattle.ls_stream.specs.View.Arrangements.{area_of};

use crate::shape::{Shape, shape_of};
use ls_frame::{Form, PictureView, Samples};
use std::marker::Model;

/// How the samples of a picture follow one another in memory. Rows come from the top, and pixels from the left, in
/// either arrangement.
#[derive(Clone, Copy, Debug, Drop, PartialEq, Eq)]
pub enum Arrangement {
    /// Row by row, pixel by pixel, component by component: as in a `Frame`.
    Pixels,
    /// All samples of a component, row by row, before those of the next one.
    Planes,
}

/// Where the samples of a component are among those of a picture.
#[derive(Clone, Copy)]
pub struct Area {
    /// They are among the `count` samples from index `start` on.
    pub start: usize,
    pub count: usize,
    /// Of how many components these samples are, pixel by pixel.
    pub components: usize,
    /// Which of these the component is, from 0.
    pub component: usize,
}

/// Returns where the samples of a component are, in a picture of this shape.
pub fn area_of(arrangement: Arrangement, shape: Shape, component: usize) -> Area
    requires component { component < shape.components }
    requires few { shape.height * shape.width * shape.components < 2 ^ 32 }
    ensures { result ≡ area_of arrangement shape component }
{
    match arrangement {
        Arrangement::Pixels => Area {
            start: 0,
            count: shape.height * shape.width * shape.components,
            components: shape.components,
            component,
        },
        Arrangement::Planes => Area {
            start: component * (shape.height * shape.width),
            count: shape.height * shape.width,
            components: 1,
            component: 0,
        },
    }
}

/// The samples of a component: in samples that are pixel by pixel those of a picture of this shape, this component of
/// it.
#[derive(Clone, Copy, Drop)]
pub struct ComponentView<'a> {
    pub samples: Samples<'a>,
    pub shape: Shape,
    pub component: usize,
}

/// A picture over borrowed samples in either arrangement. They may be over maxval; in all else it is within the limits
/// of a `Frame`.
#[derive(Debug, Drop)]
pub struct ArrangedView<'a> {
    form: Form,
    samples: Samples<'a>,
    arrangement: Arrangement,
}

impl<'a> Model for ArrangedView<'a> {
    ghost use Rattle.ls_frame.specs.Picture.{Picture, IsFormed, picture_of, components};
    ghost use Rattle.ls_frame.specs.View.Numbers.{numbers};
    ghost use Rattle.ls_stream.specs.Components.{arranged};

    ghost Value = { Picture };

    ghost view = { λ f. picture_of f.form (arranged f.arrangement (components f.form.kind) (numbers f.samples)) };

    ghost invariant = { λ f. IsFormed (picture_of f.form (numbers f.samples)) };
}

impl<'a> ArrangedView<'a> {
    ghost use Rattle.std.specs.Prelude.{true, false};
    ghost use Rattle.ls_frame.specs.Picture.{IsFormed, IsFrame, picture_of, form_of, components};
    ghost use Rattle.ls_stream.specs.Components.{arranged};
    ghost use Rattle.ls_stream.specs.View.Arrangements.{IsComponentOf};

    /// Takes the samples of a picture, in their sequence in memory, as arranged so.
    pub fn new(picture: &PictureView<'a>, arrangement: Arrangement) -> ArrangedView<'a>
        ensures { result ≡ picture_of (form_of picture.now) (arranged arrangement (components picture.now.kind) picture.now.samples) }
    {
        ArrangedView {
            form: picture.form(),
            samples: picture.samples(),
            arrangement,
        }
    }

    /// Kind, size, and the greatest value that a sample of a frame may have. Samples of this picture may be over it.
    pub fn form(&self) -> Form
        ensures value { result ≡ form_of self.now }
        ensures lawful { IsFormed self.now }
    {
        self.form
    }

    /// Whether it is a frame: no sample is over maxval.
    pub fn is_frame(&self) -> bool
        ensures within { result ≡ true → IsFrame self.now }
        ensures over { result ≡ false → IsFrame self.now → ⊥ }
        ensures lawful { IsFormed self.now }
    {
        self.samples.first_above(self.form.maxval).is_none()
    }

    /// The samples of a component.
    pub fn component(&self, component: usize) -> ComponentView<'a>
        requires { component < components self.now.kind }
        ensures { IsComponentOf self.now component result }
    {
        let form = self.form;
        let shape = shape_of(form.kind, form.width, form.height);
        let area = area_of(self.arrangement, shape, component);
        ComponentView {
            samples: self.samples.part(area.start, area.count),
            shape: Shape {
                width: shape.width,
                height: shape.height,
                components: area.components,
            },
            component: area.component,
        }
    }
}
