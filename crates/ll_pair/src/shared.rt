//! A message that several origins are sent, as one block of bytes.
ghost use Rattle.std.specs.Prelude.{◌≡◌, IfOk};
ghost use Rattle.std.specs.Arc.{arc_value};

use ll_announce::Message;
use std::alloc::{AllocError, Global};
use std::marker::Model;
use std::sync::Arc;

/// A message that several origins are sent, as one block of bytes. It is freed once none of them needs it.
pub struct Shared(Arc<Message, Global>);

impl Drop for Shared {
    fn drop(self) {
        let Shared(_all) = self;
    }
}

impl Model for Shared {
    ghost use Rattle.std.specs.Arc.{arc_value};
    ghost use Rattle.ll_announce.specs.Messages.{MessageValue};

    ghost Value = { MessageValue };

    ghost view = { λ s. arc_value s.0 };
}

impl Shared {
    /// Returns `message` as one that can be shared.
    pub fn new(alloc: Global, message: Message) -> Result<Shared, AllocError>
        ensures { IfOk result (λ shared. shared ≡ message) }
    {
        match Arc::new(alloc, message) {
            Ok(message) => Ok(Shared(message)),
            Err(_) => Err(AllocError),
        }
    }

    /// Returns the same message once more, with the same block of bytes.
    pub fn again(&self) -> Result<Shared, AllocError>
        ensures { IfOk result (λ shared. shared ≡ self.now) }
    {
        Ok(Shared(Arc::try_clone(&self.0)?))
    }

    /// Returns the message.
    pub fn message(&self) -> &Message
        ensures { result.now ≡ self.now }
    {
        &self.0
    }
}
