//! Takes requests from the front of a connection's bytes.
ghost use Rattle.std.specs.Prelude.{◌≡◌, ◌≢◌, ◌≤◌, ◌++◌, ◌∷◌, [], IfOk, None, Some, OnOk, drop, false, length, true};
ghost use Rattle.ll_wire.specs.Response.{response_bytes};
ghost use Rattle.ll_session.specs.Requests.{wanted};
ghost use Rattle.ll_session.specs.Talk.{entries_of, nothing_in, taking};
ghost use Rattle.ll_session.specs.Told.{AddsUp};

use crate::output::Output;
use ll_directive::{TargetFault, Want, read_target};
use ll_wire::{Answer, Head, next_head, response};
use std::alloc::{AllocError, Global};

/// What was taken: answers to requests that are refused, and then at most one want.
#[derive(Drop)]
pub(crate) struct Taken {
    /// The number of bytes that were taken.
    pub(crate) at: usize,
    /// The answers to what was refused.
    pub(crate) told: Output,
    /// The want, and whether the connection is kept after it.
    pub(crate) want: Option<(Want, bool)>,
    /// Whether a refusal ends the connection.
    pub(crate) ends: bool,
}

/// Returns whether `unread` begins with no whole head, so that nothing can be taken.
#[tactic(auto, using(crate::proofs::TakingLemmas::none_taken, crate::proofs::TakingLemmas::some_taken))]
pub(crate) fn is_unfinished(unread: &[u8]) -> bool
    ensures nothing { result ≡ true → taking unread.now ≡ nothing_in unread.now }
    ensures something { result ≡ false → entries_of (taking unread.now) ≢ [] }
{
    match next_head(unread) {
        Head::Part => true,
        Head::Bad(_) => false,
        Head::Whole(_, _) => false,
    }
}

/// Takes the requests at the front of `unread`, up to the first want.
pub(crate) fn take_front(alloc: Global, unread: &[u8]) -> Result<Taken, AllocError>
    ensures within { IfOk result (λ t. t.at ≤ length unread.now) }
    ensures stands { IfOk result (λ t. AddsUp (taking unread.now) t.told (record {
      passed = [];
      rest = drop t.at unread.now;
      want = t.want;
      ends = t.ends;
    })) }
{
    let mut at = 0;
    let mut told = Output::new(alloc);
    loop {
        let rest = from(unread, at);
        let (len, request) = match next_head(rest) {
            Head::Part => return Ok(nothing(at, told)),
            Head::Bad(fault) => {
                tell(alloc, &mut told, &Answer::Head(fault), false)?;
                return Ok(ending(unread.len(), told));
            }
            Head::Whole(len, request) => (len, request),
        };
        at += len;
        match read_want(alloc, &rest[request.from..request.to])? {
            Ok(want) => return Ok(want_at(at, told, want, request.keep)),
            Err(fault) => tell(alloc, &mut told, &Answer::Target(fault), request.keep)?,
        }
        if !request.keep {
            return Ok(ending(unread.len(), told));
        }
    }
}

/// Returns what was taken if no whole head follows.
fn nothing(at: usize, told: Output) -> Taken
    ensures { result ≡ record { at = at; told = told; want = None; ends = false } }
{
    Taken {
        at,
        told,
        want: None,
        ends: false,
    }
}

/// Returns what was taken if a refusal ends the connection.
fn ending(at: usize, told: Output) -> Taken
    ensures { result ≡ record { at = at; told = told; want = None; ends = true } }
{
    Taken {
        at,
        told,
        want: None,
        ends: true,
    }
}

/// Returns what was taken if a want comes last.
fn want_at(at: usize, told: Output, want: Want, keep: bool) -> Taken
    ensures { result ≡ record { at = at; told = told; want = Some (want, keep); ends = false } }
{
    Taken {
        at,
        told,
        want: Some((want, keep)),
        ends: false,
    }
}

/// Returns what `target` wants, or its first fault. To be out of memory is no fault of the target.
#[tactic(auto, unfolding(crate::specs::Requests::wanted))]
fn read_want(alloc: Global, target: &[u8]) -> Result<Result<Want, TargetFault>, AllocError>
    ensures { IfOk result (λ read. read ≡ wanted target.now) }
{
    match read_target(alloc, target) {
        Err(TargetFault::Memory) => Err(AllocError),
        read => Ok(read),
    }
}

/// Adds the response with `answer` to `told`.
fn tell(alloc: Global, told: &mut Output, answer: &Answer, keep: bool) -> Result<(), AllocError>
    ensures { OnOk result (told.new ≡ told.old ++ response_bytes answer.now keep ∷ []) }
{
    told.push(response(alloc, answer, keep)?)
}

/// Returns the bytes from `at` on.
fn from(bytes: &[u8], at: usize) -> &[u8]
    requires { at ≤ length bytes.now }
    ensures { result.now ≡ drop at bytes.now }
{
    &bytes[at..]
}
