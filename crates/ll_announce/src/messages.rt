//! A queue of messages that are to be sent.
ghost use Rattle.std.specs.Prelude.{◌≡◌, ◌++◌, ◌∷◌, [], IfOk, MatchOption};

use crate::message::Message;
use std::alloc::{AllocError, Global};
use std::collections::VecDeque;
use std::marker::Model;

/// Messages that are to be sent, the first at the front.
pub struct Messages(VecDeque<Message>);

impl Drop for Messages {
    fn drop(self) {
        let Messages(_all) = self;
    }
}

impl Model for Messages {
    ghost use Rattle.std.specs.Prelude.{List};
    ghost use Rattle.ll_announce.specs.Messages.{MessageValue};

    ghost Value = { List MessageValue };

    ghost view = { λ m. m.0.items };
}

impl Messages {
    /// Returns an empty queue.
    pub fn new(alloc: Global) -> Messages
        ensures { result ≡ [] }
    {
        Messages(VecDeque::new(alloc))
    }

    /// Adds `message` as the last.
    pub fn push(&mut self, message: Message) -> Result<(), AllocError>
        ensures { IfOk result (λ _. self.new ≡ self.old ++ message ∷ []) }
    {
        match self.0.push_back(message) {
            Ok(()) => Ok(()),
            Err(_) => Err(AllocError),
        }
    }

    /// Takes the first message, or returns `None` if there is none.
    pub fn pop(&mut self) -> Option<Message>
        ensures { MatchOption result ((self.old ≡ []) × (self.new ≡ [])) (λ message. self.old ≡ message ∷ self.new) }
    {
        self.0.pop_front()
    }

    /// Puts `message` before the first.
    pub fn put_back(&mut self, message: Message) -> Result<(), AllocError>
        ensures { IfOk result (λ _. self.new ≡ message ∷ self.old) }
    {
        match self.0.push_front(message) {
            Ok(()) => Ok(()),
            Err(_) => Err(AllocError),
        }
    }
}
