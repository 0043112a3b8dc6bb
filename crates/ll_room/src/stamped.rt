//! Values with the room and the event that they come from.
ghost use Rattle.std.specs.Prelude.{◌≡◌};

use ll_directive::Want;
use ll_item::Item;
use std::marker::Model;

/// The event of a channel that a value comes from.
pub enum Stamp {
    /// An item was accepted.
    Publish(Item),
    /// A request was made: its number, from 1, and what it wants.
    Ask(u64, Want),
    /// The reply to the request of this number was collected.
    Collect(u64),
}

impl Drop for Stamp {
    fn drop(self) {
        match self {
            Stamp::Publish(_item) => {}
            Stamp::Ask(_, _want) => {}
            Stamp::Collect(_) => {}
        }
    }
}

/// A value with the room and the event that it comes from. Only a room makes one.
pub struct Stamped<T> {
    room: u64,
    stamp: Stamp,
    value: T,
}

impl<T: Drop> Drop for Stamped<T> {
    fn drop(self) {
        let Stamped {
            room: _,
            stamp: _stamp,
            value: _value,
        } = self;
    }
}

impl<T> Model for Stamped<T> {
    ghost use Rattle.ll_room.specs.StampedValue.{StampedValue};

    ghost Value = { StampedValue T };

    ghost view = { λ s. record { room = s.room; stamp = s.stamp; value = s.value } };
}

impl<T> Stamped<T> {
    /// Returns `value` as that of the event `stamp` of room `room`.
    pub(crate) fn new(room: u64, stamp: Stamp, value: T) -> Stamped<T>
        ensures { result ≡ record { room = room; stamp = stamp; value = value } }
    {
        Stamped { room, stamp, value }
    }

    /// Returns the value.
    pub fn get(&self) -> &T
        ensures { result.now ≡ self.now.value }
    {
        &self.value
    }

    /// Returns the event that the value comes from.
    pub fn stamp(&self) -> &Stamp
        ensures { result.now ≡ self.now.stamp }
    {
        &self.stamp
    }

    /// Returns the value, without its stamp.
    pub fn into_inner(self) -> T
        ensures { result ≡ self.value }
    {
        let Stamped {
            room: _,
            stamp: _,
            value,
        } = self;
        value
    }
}
