//! Orders: frames with the parameters to code them with.
ghost use Rattle.std.specs.Prelude.{◌≡◌, ◌↔◌, IsTrue, IfOk};
ghost use Rattle.std.specs.Arc.{arc_value};
ghost use Rattle.ls_pieces.specs.Orders.{IsOrder, same_order};

use ls_frame::{Frame, Presets};
use std::alloc::AllocError;
use std::marker::Model;
use std::sync::Arc;

/// A frame, which others may share, and parameters for its maxval.
///
/// The contracts see it as the frame's picture and the parameters.
#[derive(Drop)]
pub struct Order {
    frame: Arc<Frame>,
    presets: Presets,
}

impl Model for Order {
    ghost use Rattle.std.specs.Arc.{arc_value};
    ghost use Rattle.ls_pieces.specs.Orders.{Ordered, IsOrder};

    ghost Value = { Ordered };

    ghost view = { λ o. (arc_value o.frame, o.presets) };

    ghost invariant = { λ o. IsOrder (arc_value o.frame, o.presets) };
}

impl Order {
    /// Makes an order for a frame. Requires that the parameters are for the frame's maxval.
    ///
    /// Allocates nothing and can't fail.
    pub fn new(frame: Arc<Frame>, presets: Presets) -> Order
        requires { presets.maxval ≡ (arc_value frame).maxval }
        ensures { result ≡ (arc_value frame, presets) }
    {
        Order { frame, presets }
    }

    /// The frame.
    pub fn frame(&self) -> &Arc<Frame>
        ensures value { arc_value result.now ≡ self.now.0 }
        ensures lawful { IsOrder self.now }
    {
        &self.frame
    }

    /// The parameters, which are for the frame's maxval.
    pub fn presets(&self) -> &Presets
        ensures value { result.now ≡ self.now.1 }
        ensures lawful { IsOrder self.now }
    {
        &self.presets
    }
}

impl Clone for Order {
    ghost use Rattle.std.specs.Prelude.{◌≡◌};

    ghost is_clone = { λ order copy. copy ≡ order };

    /// Copies the order; both share the frame. Its only error is `AllocError`: the frame's reference count can't grow.
    fn clone(&self) -> Result<Order, AllocError>
        ensures { IfOk result (λ copy. copy ≡ self.now) }
    {
        let frame = self.frame.clone()?;
        Ok(Order {
            frame,
            presets: self.presets,
        })
    }
}

impl PartialEq for Order {
    ghost use Rattle.ls_pieces.specs.Orders.{same_order};
    ghost use Rattle.ls_pieces.specs.View.Alike.{same_order-laws};

    ghost eq = { same_order };

    ghost laws = { same_order-laws };

    /// Whether both orders have equal frames and equal parameters. Allocates nothing.
    fn eq(&self, other: &Order) -> bool
        ensures value { result ≡ same_order self.now other.now }
        ensures same { IsTrue result ↔ (self.now ≡ other.now) }
    {
        *self.frame == *other.frame && self.presets == other.presets
    }
}
