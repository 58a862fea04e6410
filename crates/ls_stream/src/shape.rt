//! The shape of a picture. Its samples are in rows from the top, and within a row pixel by pixel.
ghost use Rattle.std.specs.Prelude.{◌≡◌};
ghost use Rattle.ls_frame.specs.Picture.{components};

use ls_frame::Kind;

/// The number of pixels in a row, of rows, and of components.
#[derive(Clone, Copy)]
pub struct Shape {
    pub width: usize,
    pub height: usize,
    pub components: usize,
}

/// The shape of a picture of this kind and size.
pub fn shape_of(kind: Kind, width: u16, height: u16) -> Shape
    ensures width { result.width ≡ width }
    ensures height { result.height ≡ height }
    ensures count { result.components ≡ components kind }
{
    Shape {
        width: usize::from(width),
        height: usize::from(height),
        components: usize::from(kind.components()),
    }
}
