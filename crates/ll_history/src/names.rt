//! The names of a hub's history and ledgers.
ghost use Rattle.ll_history.specs.Names.{Names};

use std::marker::Brand;

/// A type that names the history and the ledgers of one hub.
pub trait Named {
    ghost names: { Names };
}

impl Named for Brand {
    ghost names = { record {
      book = record { number = 0; log_name = 0; cells_name = 0 };
      channel_publishes = 0;
      channel_asks = 0;
      pass_publishes = 0;
      pass_asks = 0;
    } };
}
