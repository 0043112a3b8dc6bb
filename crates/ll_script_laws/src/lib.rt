//! Laws of whole scripts: what the channels of a script have accepted, what the playlists that their requests get are good for, that no
//! reply is lost, and what each connection is sent. They hold however much memory there is: for all lists of lines, each marked with
//! what there is memory for. Each is the contract of an empty function. Sections are those of draft-pantos-hls-rfc8216bis.
#![tactic(auto)]

ghost use Rattle.ll_script_laws.specs.Laws.{AtOnceLaw, DueLaw, LaterLaw, LeastReadyLaw, NoneLeftLaw, OpenOrderLaw, PiecesLaw, PlayersLaw, PublishedLaw, VerdictLaw, WaitsLaw};
ghost use Rattle.ll_script_laws.specs.Standing.{StandingLaw};
ghost use Rattle.ll_script_laws.specs.Talks.{AnswersLaw, IdleLaw, TalksLaw};

/// States for every input of `ll_replay::run`, at each moment of each of its channels, that the settings are within their limits, and that
/// the items accepted by then meet the premises of the laws of `ll_laws`. A moment is a prefix of the channel's events. An item or a
/// request that is out of memory is no event.
pub fn published_law()
    ensures { PublishedLaw }
{}

/// States the promise to players, for every script: take a rendition of one of its channels, its full playlist of some moment, and a delta
/// update of that moment or a later one. If the parts accepted in between last no longer than the Skip Boundary, the update's text,
/// applied to the playlist's text, gives the text of the full playlist of the update's own moment (section 6.2.5.1).
/// `ll_apply::apply` returns this text, unless it is out of memory.
pub fn players_law()
    ensures { PlayersLaw }
{}

/// States that each text that a request of a channel gets is a playlist that `players_law` is about: in the form that the request asks
/// for, of the rendition that it names, after all events of the channel up to some moment. `at_once` is about replies without waiting,
/// whose moment is that of the request; `later` is about replies to requests that had to wait. `verdicts` is about either, in the form in
/// which `talks_law` says what a connection's requests get.
pub fn replies_law()
    ensures at_once { AtOnceLaw }
    ensures later { LaterLaw }
    ensures verdicts { VerdictLaw }
{}

/// States that a line that asks where a rendition stands is answered by all items that the channel has accepted, and changes nothing: a
/// script with the line has the same channels, waiting requests, connections and replies as without it, and the same text except for the
/// answer. The premise is that the other lines have, or lack, the same memory in both scripts.
pub fn standing_law()
    ensures { StandingLaw }
{}

/// States that scripts that differ only in how the bytes of neighbouring `bytes` lines of one connection are cut have the same text: two
/// such lines may be replaced by one, and so may any number of them. The premise is that there is memory for all that these lines make
/// happen, and that the other lines have, or lack, the same memory in both scripts.
pub fn pieces_law()
    ensures { PiecesLaw }
{}

/// States that no reply is lost in a script. At each moment, a reply that is due finds the request that waits for it and its owner: if that
/// is a connection, its session is open and has a want out; and each connection has as many waiting requests as its session has wants
/// out, one or none (`finds`). The requests that wait at a channel are its open requests, in their order (`waits`). And after each line no
/// reply is due: each is written, or put out on its connection, or that was out of memory and the connection has ended (`left`).
pub fn due_law()
    ensures finds { DueLaw }
    ensures waits { WaitsLaw }
    ensures left { NoneLeftLaw }
{}

/// States that each connection of a script is sent the answers to the requests in its bytes, in their order, and nothing else, and that each
/// answer is right for the request at the same place: the channel's verdict of it, or that the channel was full of events, or that no channel
/// had the name, or that the request was out of memory (`answers`). At most one request has no answer: the one that the session has out, or
/// one that was closed, or one whose answer was out of memory; in the last two cases the connection ends. All bytes that came and were sent
/// are those of calls on one session, which `session_law` of `ll_session` is about (`calls`). And after each line no request is left over: if
/// a session goes on and has no want out, its unread bytes hold no whole request (`idle`).
pub fn talks_law()
    ensures calls { TalksLaw }
    ensures answers { AnswersLaw }
    ensures idle { IdleLaw }
{}

/// States that the open requests of a channel are always in the order of their tickets, so the first whose reply is there is the one of
/// them that was made first.
pub fn least_ready_law()
    ensures order { OpenOrderLaw }
    ensures least { LeastReadyLaw }
{}
