//! Places in an order in which elements with the same key stand together, sorted by number.
ghost use Rattle.std.specs.Prelude.{◌≡◌, ◌<◌, ℕ, false, IfNone, IfSome};
ghost use Rattle.ll_book.specs.Places.{IsNext, stands};
ghost use Rattle.ll_script_rooms.specs.Spots.{spot};

use ll_book::{Order, OrderKey};

/// Returns the place of element `number` among those with the key (`group`, `rank`).
pub(crate) fn spot(group: u64, rank: u64, number: u64) -> OrderKey
    ensures { result ≡ spot group rank number }
{
    OrderKey {
        group,
        kind: 0,
        rank,
        subrank: 0,
        number,
    }
}

/// Returns the least number, from 1, of an element of `order` with the key (`group`, `rank`).
pub(crate) fn first_of(order: &Order, group: u64, rank: u64) -> Option<u64>
    ensures some { IfSome result (λ n. IsNext (spot group rank 0) (spot group rank n) order.now) }
    ensures none { IfNone result ((n : ℕ) → 0 < n → stands order.now (spot group rank n) ≡ false) }
{
    // An order counts how often it is read; the count isn't needed here.
    let mut looked = 0;
    let next = order.first_after(spot(group, rank, 0), &mut looked)?;
    if next == spot(group, rank, next.number) {
        Some(next.number)
    } else {
        None
    }
}
