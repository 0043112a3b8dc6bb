//! The replies of a record's entries.
ghost use Rattle.std.specs.Prelude.{◌≡◌, ◌≢◌, ◌+◌, ◌++◌, ◌∷◌, ℕ, List, IfErr, IfOk, MatchOption, Ok, Some, Err, true};
ghost use Rattle.ll_attr.specs.Words.{pieces_at};
ghost use Rattle.ll_check.specs.EntryReplies.{Brings, BringsNone, IsBrought, IsLastOf, brought_in};
ghost use Rattle.ll_check.specs.Found.{IsAt, IsOf, so_far};
ghost use Rattle.ll_check.specs.Passing.{IsWrongAt};
ghost use Rattle.ll_entry.specs.Chain as spec;
ghost use Rattle.ll_entry.specs.Chain.{Inside, Position, checked_from, entries, joined, not_before, wrong};
ghost use Rattle.ll_entry.specs.Entries.{entry_in};

use crate::chain::{Chain, is_inside};
use crate::checker::Checker;
use crate::lines::{chunk_line, cut_line};
use ll_attr::Text;
use ll_entry::{CheckFault, CheckKind, Recorded};
use ll_entry_check::bring;
use ll_verdict::Reply;
use std::alloc::Global;

/// An entry's line, and the entry's reply.
#[derive(Drop)]
pub struct EntryReply {
    /// The line.
    pub line: Text,
    /// What a request gets at once, or what is handed out to it; `None` if the entry has no reply.
    pub reply: Option<Reply>,
}

impl Checker {
    /// Returns the line and the reply of the next entry, if it is right; `None` if no line ends in `text`, or no entry comes next: then
    /// nothing changes. What comes after `text` makes no difference. What comes after the entry is for another checker.
    pub(crate) fn reply(&mut self, text: &[u8]) -> Result<Option<EntryReply>, CheckFault>
        ensures right { (p : Position) (more : List ℕ) → IsAt self.old p → IfOk result (λ r. MatchOption r (BringsNone self.old self.new p text.now more)
            (λ b. Brings p b.line b.reply (pieces_at 10 (text.now ++ more)))) }
        ensures wrong { (p : Position) (more : List ℕ) → IsAt self.old p
            → IfErr result (λ f. f.kind ≢ CheckKind.Memory → checked_from p (pieces_at 10 (text.now ++ more)) ≡ Err f) }
        ensures memory { (p : Position) (more : List ℕ) → IsAt self.old p
            → IfErr result (λ f. not_before f.entry (checked_from p (pieces_at 10 (text.now ++ more))) ≡ true) }
        ensures place { (p : Position) → IsAt self.old p → IfErr result (λ f. f.entry ≡ entries (so_far p) + 1) }
    {
        let entry = self.entries() + 1;
        match next_reply(self.alloc, &mut self.chain, text) {
            Ok(brought) => Ok(brought),
            Err(kind) => Err(CheckFault { entry, kind }),
        }
    }
}

/// Returns the line and the reply of the next entry; `None` if no line ends, or no entry comes next.
fn next_reply(
    alloc: Global,
    chain: &mut Option<Chain>,
    text: &[u8],
) -> Result<Option<EntryReply>, CheckKind>
    ensures right { (p : Position) (more : List ℕ) → IsAt chain.old p → IfOk result (λ r. MatchOption r (BringsNone chain.old chain.new p text.now more)
        (λ b. Brings p b.line b.reply (pieces_at 10 (text.now ++ more)))) }
    ensures wrong { (p : Position) (more : List ℕ) → IsAt chain.old p
        → IfErr result (λ k. k ≢ CheckKind.Memory → checked_from p (pieces_at 10 (text.now ++ more)) ≡ wrong (so_far p) k) }
{
    if !is_inside(chain) {
        return Ok(None);
    }
    match chain {
        Some(chain) => reply_of(alloc, chain, text),
        None => unreachable!(),
    }
}

/// Returns the line and the reply of the next entry of a chunk; `None` if no line ends, or at its last line.
fn reply_of(alloc: Global, chain: &mut Chain, text: &[u8]) -> Result<Option<EntryReply>, CheckKind>
    ensures right { (ch : spec.Chain) (more : List ℕ) → IsOf chain.old ch
        → IfOk result (λ r. MatchOption r (BringsNone (Some chain.old) (Some chain.new) (Inside ch) text.now more)
        (λ b. IsBrought ch b.line b.reply (pieces_at 10 (text.now ++ more)))) }
    ensures wrong { (ch : spec.Chain) (more : List ℕ) → IsOf chain.old ch
        → IfErr result (λ k. k ≢ CheckKind.Memory → checked_from (Inside ch) (pieces_at 10 (text.now ++ more)) ≡ wrong (Some ch) k) }
{
    let Some((line, _rest)) = cut_line(text) else {
        return Ok(None);
    };
    reply_in(alloc, chain, line)
}

/// Returns the entry's line and reply if `line` isn't the last one of its chunk; else `None`.
fn reply_in(alloc: Global, chain: &mut Chain, line: &[u8]) -> Result<Option<EntryReply>, CheckKind>
    ensures right { (ch : spec.Chain) (rest : List ℕ) → IsOf chain.old ch → IfOk result (λ r. MatchOption r (IsLastOf chain.old chain.new line.now)
        (λ b. IsBrought ch b.line b.reply (line.now ∷ pieces_at 10 rest))) }
    ensures wrong { (ch : spec.Chain) (rest : List ℕ) → IsOf chain.old ch
        → IfErr result (λ k. k ≢ CheckKind.Memory → checked_from (Inside ch) (line.now ∷ pieces_at 10 rest) ≡ wrong (Some ch) k) }
{
    let text = chunk_line(line)?;
    let Some(text) = text else {
        return Ok(None);
    };
    let line = Text::from_str(alloc, text)?;
    match reply_to(alloc, chain, text) {
        Ok(reply) => Ok(Some(EntryReply { line, reply })),
        Err(kind) => Err(kind),
    }
}

/// Returns the reply of a line's entry.
fn reply_to(alloc: Global, chain: &mut Chain, line: &str) -> Result<Option<Reply>, CheckKind>
    ensures right { (ch : spec.Chain) → IsOf chain.old ch → IfOk result (λ r. ((now : spec.Chain) × (joined ch (entry_in ch.version ch.settings line.now) ≡ Ok now))
        × (r ≡ brought_in ch (entry_in ch.version ch.settings line.now))) }
    ensures wrong { (ch : spec.Chain) → IsOf chain.old ch
        → IfErr result (λ k. k ≢ CheckKind.Memory → joined ch (entry_in ch.version ch.settings line.now) ≡ Err k) }
{
    let Chain {
        replayer,
        version,
        earlier: _,
        inside: _,
    } = chain;
    let entry = Recorded::read(alloc, *version, replayer.room().settings(), line)?;
    bring(replayer, *version, entry)
}
