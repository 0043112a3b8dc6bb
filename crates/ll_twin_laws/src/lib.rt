//! Laws of two origins of one channel, each the contract of an empty function: what one gives, the other gives.
#![tactic(auto)]

ghost use Rattle.ll_twin_laws.specs.Laws.{BeginningLaw, ReportsLaw, SameReplyLaw, TwinMediaLaw, TwinTextLaw};
ghost use Rattle.ll_twin_laws.specs.Own.{OwnMomentLaw, OwnReplyLaw};
ghost use Rattle.ll_twin_laws.specs.Worked.{WorkedOrders, WorkedTwins};

/// States that two origins with the same settings, the same items of a rendition and the same last part of each rendition give the same texts of it, full
/// playlists and delta updates of both kinds, and the same media, whatever the order in which the renditions' items came. If other renditions' last parts
/// differ, no more than the EXT-X-RENDITION-REPORT lines do.
pub fn twin_law()
    ensures text { TwinTextLaw }
    ensures media { TwinMediaLaw }
    ensures reports { ReportsLaw }
{}

/// States that a request that waits at two origins gets the same reply of both, unless it times out or is closed at one of them, if the items that one has
/// accepted are those of the other, or their beginning: whatever the clocks show, and whatever else is asked, collected and closed there.
pub fn same_reply_law()
    ensures { SameReplyLaw }
{}

/// States that if the items that an origin has accepted are the beginning of another's, each text and each media that it gave is what the other would
/// have given at some moment.
pub fn beginning_law()
    ensures { BeginningLaw }
{}

/// States of one rendition what [`same_reply_law`] does of all, whatever items of others have come in between, and in whatever order: if of the rendition of a
/// request that waits at two origins the items that one has accepted are those of the other, or their beginning, both answer with a playlist or delta update,
/// the same but for EXT-X-RENDITION-REPORT lines, or with the same media, or both with NotFound, unless it times out or is closed at one of them.
pub fn own_reply_law()
    ensures { OwnReplyLaw }
{}

/// States that if of one rendition the items that an origin has accepted are the beginning of another's, each text of it that the first gave is, but for
/// EXT-X-RENDITION-REPORT lines, what the other would have given at some moment, and each media is.
pub fn own_moment_law()
    ensures { OwnMomentLaw }
{}

/// States the values of the definitions at a worked example: items of two renditions in two orders, and the reply to a request at two origins.
pub fn worked_twins()
    ensures { WorkedTwins }
{}

/// States the values at another one: two origins that get the items of two renditions in two orders, and their replies to two requests.
pub fn worked_orders()
    ensures { WorkedOrders }
{}
