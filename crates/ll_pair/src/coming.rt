//! The messages that come for one origin.
ghost use Rattle.std.specs.Prelude.{List, Option, IfOk};
ghost use Rattle.ll_announce.specs.Messages.{MessageValue};
ghost use Rattle.ll_pair.specs.Coming.{IsFirst, IsKept, IsLetGo};

use crate::shared::Shared;
use std::alloc::AllocError;

/// What comes first for an origin.
#[derive(Drop)]
pub enum First {
    /// This message.
    Message(Shared),
    /// Nothing: all messages were let go of, and no more come.
    End,
    /// Nothing: the origin is left, and gets no more.
    Left,
}

/// The messages that come for one origin, in order.
pub trait Coming {
    /// The messages that come and weren't let go of, if they are known.
    ghost coming: { Self → Option (List MessageValue) };

    /// Returns the first message, for which it waits. It stays the first until it is let go of.
    fn first(&mut self) -> Result<First, AllocError>
        ensures first { IfOk result (IsFirst (coming self.old)) }
        ensures kept { IsKept (coming self.old) (coming self.new) };

    /// Lets go of the first message, which the origin has accepted.
    fn let_go(&mut self)
        ensures { IsLetGo (coming self.old) (coming self.new) };
}
