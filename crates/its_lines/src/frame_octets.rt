//! Octets that are known to be a frame.

ghost use Rattle.std.specs.Prelude.{◌≡◌};
ghost use Rattle.its_linkframe.specs.Frames.{EncodesFrame, IsFrame, transmission_of};

use its_linkframe::FrameView;
use std::marker::Model;

/// Octets that are a frame: they were read, and nothing is checked again.
#[derive(Debug, Drop)]
pub struct FrameOctets {
    octets: Vec<u8>,
}

impl Model for FrameOctets {
    ghost use Rattle.std.specs.Prelude.{List, ℕ};
    ghost use Rattle.its_linkframe.specs.Frames.{IsFrame};

    ghost Value = { List ℕ };

    ghost view = { λ frame. frame.octets.items };

    ghost invariant = { λ frame. IsFrame frame.octets.items };
}

impl FrameOctets {
    /// Wraps octets, which have to be a frame.
    pub(crate) fn new(octets: Vec<u8>) -> FrameOctets
        requires { IsFrame octets.items }
        ensures { result ≡ octets.items }
    {
        FrameOctets { octets }
    }

    /// Returns the frame.
    pub fn view(&self) -> FrameView<'_>
        ensures { EncodesFrame (transmission_of result) self.now }
    {
        FrameView::of_frame(self.octets.as_slice())
    }
}
