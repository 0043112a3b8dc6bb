//! Laws of a script's connections and rooms, each the contract of an empty function.
ghost use Rattle.ll_connection.specs.Laws.{PiecesLaw, TurnsLaw};
ghost use Rattle.ll_connection.specs.Talks.{TalkLaw};

/// States that the bytes of a connection have the same effect wherever they are cut in two, if there is enough memory: on its session and
/// the channels (`visits`), and on all connections, the text that is written and the number of answers (`turns`).
pub fn pieces_law()
    ensures visits { PiecesLaw }
    ensures turns { TurnsLaw }
{}

/// States that what comes to a connection results in calls on its session, which `session_law` of `ll_session` is about: the bytes that come
/// are taken, and what is written is all answers that were put out, in order, and whether the session has shut.
pub fn talk_law()
    ensures { TalkLaw }
{}
