//! Laws of players' connections, each the contract of an empty function.
ghost use Rattle.std.specs.Prelude.{List};
ghost use Rattle.ll_player.specs.Laws.{BeginsToConverse, Converses, ConversesInSteps, HangsUp, Opens, Shares, Shuts, Stops};
ghost use Rattle.ll_settings.specs.Settings.{Configuration};

use ll_hub::Clock;

/// States what leads a connection from one step to the next: a new one plays; it goes on to play if others use its pass meanwhile, and if
/// its player hangs up while a request is held; why its session has shut, if it has; and what it has come to wherever it is left off. The
/// requests of all read `clock`.
pub fn connection_law<C: Clock>(clock: &C)
    ensures opens { (hub : List Configuration) → Opens (C.shows clock.now) hub }
    ensures shares { (hub : List Configuration) → Shares (C.shows clock.now) hub }
    ensures hangs_up { (hub : List Configuration) → HangsUp (C.shows clock.now) hub }
    ensures shuts { (hub : List Configuration) → Shuts (C.shows clock.now) hub }
    ensures stops { (hub : List Configuration) → Stops (C.shows clock.now) hub }
{}

/// States what was sent on a connection, whose requests read `clock`: what a script's connection sends for the same bytes, if it gets the
/// same replies. If the connection was played to its end, or has sent all and waits for nothing but bytes, and its player didn't hang up while a
/// request was held, all of that was sent, and each request that came has its answer, unless too many bytes came after the last one that was
/// taken; else a prefix.
pub fn conversation_law<C: Clock>(clock: &C)
    ensures whole { (hub : List Configuration) → Converses (C.shows clock.now) hub }
    ensures steps { (hub : List Configuration) → ConversesInSteps (C.shows clock.now) hub }
    ensures prefix { (hub : List Configuration) → BeginsToConverse (C.shows clock.now) hub }
{}
