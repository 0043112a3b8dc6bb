//! Messages that are listed, those that come for an origin and those that origins are given.
ghost use Rattle.std.specs.Prelude.{◌≡◌, [], Some};

use ll_announce::Message;
use ll_pair::{Coming, First, Outlets, Shared};
use std::alloc::{AllocError, Global};
use std::collections::VecDeque;

/// The messages that come for an origin, all at once.
#[derive(Drop)]
pub struct ListedMessages {
    messages: VecDeque<Shared>,
}

impl ListedMessages {
    /// Returns `messages` as those that come.
    pub fn new(messages: VecDeque<Shared>) -> ListedMessages
        ensures { result.messages ≡ messages }
    {
        ListedMessages { messages }
    }
}

impl Coming for ListedMessages {
    ghost coming = { λ m. Some m.messages.items };

    fn first(&mut self) -> Result<First, AllocError> {
        match self.messages.front() {
            Some(message) => Ok(First::Message(message.again()?)),
            None => Ok(First::End),
        }
    }

    fn let_go(&mut self) {
        let _ = self.messages.pop_front();
    }
}

/// The messages that origins were given.
#[derive(Drop)]
pub struct MessageList {
    given: Vec<Message>,
}

impl MessageList {
    /// Returns a list of no messages.
    pub fn new(alloc: Global) -> MessageList
        ensures { result.given.items ≡ [] }
    {
        MessageList {
            given: Vec::new(alloc),
        }
    }
}

impl Outlets for MessageList {
    ghost given = { λ m. Some m.given.items };

    fn give(&mut self, message: Message) -> Result<bool, AllocError> {
        self.given.push(message)?;
        Ok(true)
    }
}
