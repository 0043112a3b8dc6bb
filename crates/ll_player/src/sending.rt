//! Sends the answers that a session has put out.
ghost use Rattle.std.specs.Prelude.{◌≡◌, ◌≢◌, ◌<◌, ◌≤◌, ◌++◌, [], IfErr, IfOk, IfSome, None, OnErr, OnOk, false, length, take, true};
ghost use Rattle.std.specs.Io.KnownBytes.{Appends, Keeps};
ghost use Rattle.std.specs.List.{concat};
ghost use Rattle.ll_service.specs.Faults.{IsTrue};
ghost use Rattle.ll_player.specs.Sending.{HasSent, IsFront};

use crate::mode::Mode;
use ll_counts::Gate;
use ll_device::{Failed, Link};
use ll_item::SharedBytes;
use ll_service::LinkFault;
use ll_session::Session;
use ll_wire::Slices;
use std::sync::Wait;

/// How many answers of a connection were begun, and whether the first of those that are left was.
#[derive(Clone, Copy)]
pub(crate) struct Begun {
    pub(crate) answers: u64,
    first: bool,
}

impl Begun {
    /// Returns that none was begun.
    pub(crate) fn none() -> Begun {
        Begun {
            answers: 0,
            first: false,
        }
    }

    /// Begins the first answer that is left, unless that was done: counts it, and calls `gate` before it.
    fn begin<G: Gate>(&mut self, gate: &G) {
        if !self.first {
            self.first = true;
            self.answers = self.answers.saturating_add(1);
            gate.before_answer(self.answers);
        }
    }

    /// Notes that `sent` bytes were sent of the `left` that were left of the first answer.
    fn note(&mut self, sent: usize, left: usize) {
        self.first = sent < left;
    }
}

/// Sends the answers that `session` has put out, as far as `link` takes them in this `mode`. Returns whether all were sent. Each head goes
/// with the first bytes of its body in one write, if the link takes it.
#[tactic(auto, using(crate::proofs::SendLemmas::sent_kept))]
pub(crate) fn send<P: Link, M: Mode<P>, G: Gate, R: Wait>(
    rt: &R,
    gate: &G,
    mode: &M,
    link: &mut P,
    session: &mut Session,
    begun: &mut Begun,
) -> Result<bool, LinkFault>
    ensures faults { IsTrue result (P.failures link.old) (P.failures link.new) }
    ensures unread { P.inward link.new ≡ P.inward link.old }
    ensures other { IfErr result (λ fault. fault ≢ LinkFault.Endless) }
    ensures sent { HasSent (P.written link.old) session.old (P.written link.new) session.new }
    ensures some { IfOk result (λ all. all ≡ false → session.new.answers ≢ []) }
    ensures all { IfOk result (λ all. all ≡ true → session.new.answers ≡ []) }
{
    for _ in rt.forever() {
        let Some(answer) = session.first_answer() else {
            return Ok(true);
        };
        begun.begin(gate);
        let left = answer.len();
        match write_some(mode, link, &answer) {
            Ok(Some(count)) => {
                begun.note(count, left);
                session.sent(count);
            }
            Ok(None) => return Ok(false),
            Err(Failed) => return Err(LinkFault::Write),
        }
    }
    unreachable!()
}

/// Writes the front of `answer` once, and returns how many bytes the link took: 0 only if `answer` is empty. Returns `None` if the write
/// would have to wait and `mode` doesn't.
#[tactic(auto, using(crate::proofs::SendLemmas::front_within, crate::proofs::SendLemmas::front_take))]
fn write_some<P: Link, M: Mode<P>>(
    mode: &M,
    link: &mut P,
    answer: &Slices<'_>,
) -> Result<Option<usize>, Failed>
    ensures count { IfOk result (λ done. IfSome done (λ n. n ≤ length answer.now)) }
    ensures some { IfOk result (λ done. IfSome done (λ n. n ≡ 0 → answer.now ≡ [])) }
    ensures bytes { IfOk result (λ done. IfSome done (λ n. Appends (P.written link.old) (P.written link.new) (take n answer.now))) }
    ensures nothing { IfOk result (λ done. done ≡ None → P.written link.new ≡ P.written link.old) }
    ensures kept { OnErr result (Keeps (P.written link.old) (P.written link.new)) }
    ensures steady { OnOk result (P.failures link.new ≡ P.failures link.old) }
    ensures failed { OnErr result (P.failures link.old < P.failures link.new) }
    ensures unread { P.inward link.new ≡ P.inward link.old }
{
    let (first, second) = front(answer);
    mode.write_two(link, first, second)
}

/// Returns the first bytes of `answer` in two slices, both empty only if `answer` is: its head with its body, or else a block.
#[tactic(auto, using(crate::proofs::SendLemmas::front_head))]
fn front<'a>(answer: &Slices<'a>) -> (&'a [u8], &'a [u8])
    ensures { IsFront (result.0.now ++ result.1.now) answer.now }
{
    let (head, body, blocks) = answer.pieces();
    if !head.is_empty() {
        return (head, body);
    }
    if !body.is_empty() {
        return (body, &[]);
    }
    (first_block(blocks), &[])
}

/// Returns the first of `blocks` that isn't empty; an empty one if there is none.
fn first_block(blocks: &[SharedBytes]) -> &[u8]
    ensures { IsFront result.now (concat blocks.now) }
{
    for block in blocks {
        if !block.as_slice().is_empty() {
            return block.as_slice();
        }
    }
    &[]
}
