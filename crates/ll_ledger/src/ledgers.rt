//! The ledgers in which a hub counts.
ghost use Rattle.std.specs.Prelude.{◌≡◌, ℕ, []};
ghost use Rattle.ll_ledger.specs.Ledgers.{all_parts, blank};

use crate::counts::Counts;
use crate::tally::Tally;
use ll_history::{BlankHistory, Named, Past, Places};
use std::marker::{Brand, Model, PhantomData};
use std::sync::ledger::{Blank, Ledger};

/// The most passes that a hub gives.
pub const PASSES: u64 = 65_536;

/// The number of parts of each ledger.
const PARTS: u64 = PASSES + 1;

/// A type parameter `L: Ledgers` stands for one hub: for its history, for the ledgers in which it counts, and for its number of channels.
///
/// Who makes a hub picks what `L` stands for. Write a function over `L` that takes the channels and the blanks, returns no value of a type
/// that names `L`, and has no `&str` in its signature:
///
/// ```rust
/// fn serve<L: Ledgers, R: Wait>(rt: &R, channels: Vec<Settings>, blanks: Blanks)
///     requires names { blanks ≡ L.names }
///     requires channels { L.channels ≡ length channels.items }
/// ```
///
/// Call it, outside of closures, as `serve::<Brand, R>(rt, channels, Blanks::new())`, with [`std::marker::Brand`], and let the
/// `Invariants.antt` of the caller, which is generic in `R` too, pick:
///
/// ```antt
/// abbrev pub ghosts-serve-L-Named : goal.ghosts-serve-L-Named
/// ghosts-serve-L-Named g a = record { names = a.blanks }
///
/// abbrev pub ghosts-serve-L-Ledgers : goal.ghosts-serve-L-Ledgers
/// ghosts-serve-L-Ledgers g a = record { channels = length a.channels.items }
/// ```
pub trait Ledgers: Named {
    ghost channels: { ℕ };
}

impl Ledgers for Brand {
    ghost channels = { 0 };
}

/// The ledger of the items that each channel has accepted.
#[derive(Drop)]
pub struct ChannelPublishes<L: Named>(PhantomData<L>);

impl<L: Named> Ledger for ChannelPublishes<L> {
    ghost name = { L.names.channel_publishes };

    ghost parts = { all_parts };
}

/// The ledger of the requests that each channel took.
#[derive(Drop)]
pub struct ChannelAsks<L: Named>(PhantomData<L>);

impl<L: Named> Ledger for ChannelAsks<L> {
    ghost name = { L.names.channel_asks };

    ghost parts = { all_parts };
}

/// The ledger of the items that were published with each pass.
#[derive(Drop)]
pub struct PassPublishes<L: Named>(PhantomData<L>);

impl<L: Named> Ledger for PassPublishes<L> {
    ghost name = { L.names.pass_publishes };

    ghost parts = { all_parts };
}

/// The ledger of the requests that were made with each pass.
#[derive(Drop)]
pub struct PassAsks<L: Named>(PhantomData<L>);

impl<L: Named> Ledger for PassAsks<L> {
    ghost name = { L.names.pass_asks };

    ghost parts = { all_parts };
}

/// The shares of a channel.
pub type ChannelCounts<L> = Counts<ChannelPublishes<L>, ChannelAsks<L>>;

/// The shares of a pass.
pub type PassCounts<L> = Counts<PassPublishes<L>, PassAsks<L>>;

/// The total of published items.
pub type Publishes<L> = Tally<ChannelPublishes<L>, PassPublishes<L>>;

/// The total of requests.
pub type Asks<L> = Tally<ChannelAsks<L>, PassAsks<L>>;

/// A new history and new ledgers for one hub, for which no type stands yet.
#[derive(Drop)]
pub struct Blanks {
    history: BlankHistory,
    channel_publishes: Blank,
    channel_asks: Blank,
    pass_publishes: Blank,
    pass_asks: Blank,
}

impl Model for Blanks {
    ghost use Rattle.std.specs.Prelude.{◌≡◌};
    ghost use Rattle.ll_history.specs.Names.{Names};
    ghost use Rattle.ll_ledger.specs.Ledgers.{all_parts};

    ghost Value = { Names };

    ghost view = { λ b. record {
      book = b.history;
      channel_publishes = b.channel_publishes.name;
      channel_asks = b.channel_asks.name;
      pass_publishes = b.pass_publishes.name;
      pass_asks = b.pass_asks.name;
    } };

    ghost invariant = { λ b. (b.channel_publishes.parts ≡ all_parts) × (b.channel_asks.parts ≡ all_parts)
        × (b.pass_publishes.parts ≡ all_parts) × (b.pass_asks.parts ≡ all_parts) };
}

/// A hub's history and ledgers before anything was done and counted: what was seen of the history, the places of its channels, the shares, with all
/// parts, and the totals.
pub struct Opened<L: Ledgers> {
    pub past: Past<L>,
    pub places: Places<L>,
    pub channels: ChannelCounts<L>,
    pub passes: PassCounts<L>,
    pub publishes: Publishes<L>,
    pub asks: Asks<L>,
}

impl Blanks {
    /// Returns a new history and new ledgers.
    pub fn new() -> Blanks {
        Blanks {
            history: BlankHistory::new(),
            channel_publishes: Blank::new(PARTS),
            channel_asks: Blank::new(PARTS),
            pass_publishes: Blank::new(PARTS),
            pass_asks: Blank::new(PARTS),
        }
    }

    /// Opens them as those for which `L` stands.
    pub fn open<L: Ledgers>(self) -> Opened<L>
        requires { self ≡ L.names }
        ensures past { result.past ≡ [] }
        ensures places { result.places ≡ 0 }
        ensures channels { result.channels ≡ blank all_parts }
        ensures passes { result.passes ≡ blank all_parts }
        ensures totals { (result.publishes ≡ 0) × (result.asks ≡ 0) }
    {
        let Blanks {
            history,
            channel_publishes,
            channel_asks,
            pass_publishes,
            pass_asks,
        } = self;
        let (past, places) = history.open::<L>();
        let (channel_publishes, accepted) = channel_publishes.open::<ChannelPublishes<L>>();
        let (channel_asks, asked) = channel_asks.open::<ChannelAsks<L>>();
        let (pass_publishes, published) = pass_publishes.open::<PassPublishes<L>>();
        let (pass_asks, asking) = pass_asks.open::<PassAsks<L>>();
        Opened {
            past,
            places,
            channels: Counts::new(accepted, asked),
            passes: Counts::new(published, asking),
            publishes: Tally::new(channel_publishes, pass_publishes),
            asks: Tally::new(channel_asks, pass_asks),
        }
    }
}
