//! Accepted items are kept in their channel's spool before they are answered.
ghost use Rattle.std.specs.Prelude.{◌≡◌, IfErr, IfOk, OnOk, Some};
ghost use Rattle.std.specs.Io.KnownBytes.{Appends};
ghost use Rattle.ll_item.specs.declared.item.Item.{Item};
ghost use Rattle.ll_publisher.specs.Kept.{HasItem, HasToken, IsSettled, OnAccepted};
ghost use Rattle.ll_room.specs.declared.stamped.Stamp.TheVariants as stamp;
ghost use Rattle.ll_service.specs.Turns.{OfSpool};
ghost use Rattle.ll_spool.specs.Spooled.{spooled_line};

use ll_publish::{Refusal, Success};
use ll_room::{Stamp, Stamped};
use ll_service::{Settled, Turn};
use ll_spool::{Disk, NotKept};

/// The answer to an item: how many items its channel has accepted with it, or why it is refused.
pub(crate) type Published = Result<Stamped<u64>, Refusal>;

/// The answer to a publisher's line.
pub(crate) type Told = Result<Success, Refusal>;

/// What the answer to an item that its channel has accepted is sent with.
#[derive(Drop)]
pub(crate) enum Token {
    /// The item was kept, or its channel has no spool.
    Settled(Settled),
    /// It wasn't kept.
    NotKept(NotKept),
}

/// Keeps the item that was accepted in the turn `turn`, if it was. Returns the answer to its line, which accepts the item if it was kept or
/// the channel has no spool, and what the answer is sent with.
pub(crate) fn settle<D: Disk>(turn: &mut Turn<'_, D>, answer: Published) -> (Told, Option<Token>)
    requires item { IfOk answer HasItem }
    ensures answer { IsSettled answer result.0 }
    ensures kept { HasToken turn.old.spools (Some turn.old.place) result.0 result.1 }
    ensures line { IfOk answer (λ mark. (item : Item) → mark.stamp ≡ stamp.Publish item → OnAccepted result.0
        (OfSpool (λ old new. Appends (D.lines old.disk) (D.lines new.disk) (spooled_line old.settings mark.value item)) turn.old.spool turn.new.spool)) }
    ensures unchanged { IfErr answer (λ reason. turn.new ≡ turn.old) }
{
    match answer {
        Ok(mark) => match keep(turn, &mark) {
            Ok(settled) => (
                Ok(Success::Accepted(mark.into_inner())),
                Some(Token::Settled(settled)),
            ),
            Err(unkept) => (
                Ok(Success::NotKept(mark.into_inner())),
                Some(Token::NotKept(unkept)),
            ),
        },
        Err(reason) => (Err(reason), None),
    }
}

/// Keeps the item that was accepted with the number `mark` in the turn `turn`.
fn keep<D: Disk>(turn: &mut Turn<'_, D>, mark: &Stamped<u64>) -> Result<Settled, NotKept>
    requires { HasItem mark.now }
    ensures token { IfOk result (λ settled. settled ≡ record { spools = turn.old.spools; place = turn.old.place; count = mark.now.value }) }
    ensures line { (item : Item) → mark.now.stamp ≡ stamp.Publish item → OnOk result
        (OfSpool (λ old new. Appends (D.lines old.disk) (D.lines new.disk) (spooled_line old.settings mark.now.value item)) turn.old.spool turn.new.spool) }
{
    match mark.stamp() {
        Stamp::Publish(item) => turn.keep(*mark.get(), item),
        Stamp::Ask(..) | Stamp::Collect(_) => unreachable!(),
    }
}
