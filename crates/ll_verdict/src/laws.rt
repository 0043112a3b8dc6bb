//! Laws of every list of events and its requests. Each is proved once, as the contract of an empty function that does nothing.
ghost use Rattle.ll_verdict.specs.Laws.{FirstStateLaw, NewerMediaLaw, NewerTextLaw, OneVerdictLaw};
ghost use Rattle.ll_verdict.specs.State.{StateLaw};

/// The plain step from the state of a list of events gives the state with one more event, for every list and every event.
pub fn state_law()
    ensures { StateLaw }
{}

/// Each request has one verdict: once an event has decided it, no later one changes that.
pub fn one_verdict_law()
    ensures { OneVerdictLaw }
{}

/// A held request is decided by the first event after which what it awaits is there or its rendition has ended, or that reaches its deadline, or that
/// closes it.
pub fn first_state_law()
    ensures { FirstStateLaw }
{}

/// A playlist that a held request gets is newer than the request: the channel has accepted more items by then, and with them what the request awaited
/// is there, or its rendition has ended.
pub fn newer_text_law()
    ensures { NewerTextLaw }
{}

/// Media that a held request gets is newer than the request: the channel has accepted more items by then, and with them the awaited part is there.
pub fn newer_media_law()
    ensures { NewerMediaLaw }
{}
