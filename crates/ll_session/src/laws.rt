//! Laws of connections, each the contract of an empty function.
ghost use Rattle.ll_session.specs.Laws.{NoneIsLeft, RequestsExtend, UnmutedConnections, WholeConnections};

/// States that more bytes only add requests: those in a prefix of some bytes are a prefix of those in all.
pub fn requests_stay_law()
    ensures { RequestsExtend }
{}

/// States what holds after any calls, in any order. The wants that were returned and the requests that were refused are, in
/// order, the first of the requests in the bytes that were fed. The output, sent or not, is the answers to them in that order,
/// and nothing else; if too many bytes came while a want was out, HeadTooLarge stands in place of its answer. And if no want is
/// out and `next_want` returns none, no request is left, or the session has shut. One that was never muted has shut because too many bytes
/// came while a want was out, or because the last of the requests in its bytes doesn't keep the connection and was answered.
pub fn session_law()
    ensures talk { WholeConnections }
    ensures none_left { NoneIsLeft }
    ensures unmuted { UnmutedConnections }
{}
