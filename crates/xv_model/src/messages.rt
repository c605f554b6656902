//! The messages between an END and what it notifies.

ghost use Rattle.std.specs.Prelude.{◌≡◌};
ghost use Rattle.xv_model.specs.route.Flight.{source_of};

use crate::operations::EndFlags;

/// A message in flight. It keeps the fields of its END as they were when it was made, and the source
/// that it comes from.
#[derive(Clone, Copy)]
pub enum Message {
    Present {
        e: u32,
        flags: EndFlags,
        vp: u32,
        priority: u8,
        esc: u32,
        esc_eisn: u32,
        origin: u32,
    },
    Escalate {
        e: u32,
        flags: EndFlags,
        esc: u32,
        esc_eisn: u32,
        origin: u32,
    },
}

impl Message {
    /// The source that it comes from.
    pub fn origin(&self) -> u32
        ensures { result ≡ source_of self.now }
    {
        match *self {
            Message::Present { origin, .. } => origin,
            Message::Escalate { origin, .. } => origin,
        }
    }
}
