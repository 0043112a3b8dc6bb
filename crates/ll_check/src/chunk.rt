//! The lines of a chunk after its first three.
ghost use Rattle.std.specs.Prelude.{◌≡◌, ◌≢◌, ◌++◌, ◌∷◌, ℕ, List, IfErr, IfOk, IfSome, MatchOption, Err, Some, option_map};
ghost use Rattle.ll_attr.specs.Words.{pieces_at};
ghost use Rattle.ll_check.specs.Found.{IsAt, IsOf};
ghost use Rattle.ll_check.specs.Joined.{IsJoined};
ghost use Rattle.ll_check.specs.Lines.{IsBehind, IsShort};
ghost use Rattle.ll_check.specs.Steps.{Moves, in_full};
ghost use Rattle.ll_entry_check.specs.Full.{without_item};
ghost use Rattle.ll_entry.specs.Chain as spec;
ghost use Rattle.ll_entry.specs.Chain.{Inside, checked_from, joined, wrong};
ghost use Rattle.ll_entry.specs.Entries.{entry_in};

use crate::chain::Chain;
use crate::lines::{chunk_line, cut_line};
use crate::told::Told;
use ll_entry::{CheckKind, Recorded};
use ll_entry_check::{FullEntry, enter};
use std::alloc::Global;

/// Checks the next line of a chunk, and returns what it says and what follows it; `None` if no line ends.
pub(crate) fn go_on<'a>(
    alloc: Global,
    chain: &mut Chain,
    text: &'a [u8],
) -> Result<Option<(Told<'a>, &'a [u8])>, CheckKind>
    ensures right { (ch : spec.Chain) (more : List ℕ) → IsAt (Some chain.old) (Inside ch)
        → IfOk result (λ r. MatchOption r (IsShort (Some chain.old) (Some chain.new) (Inside ch) text.now)
        (λ s. Moves (Some chain.new) (Inside ch) s.0 (pieces_at 10 (text.now ++ more)) (pieces_at 10 (s.1.now ++ more)))) }
    ensures wrong { (ch : spec.Chain) (more : List ℕ) → IsAt (Some chain.old) (Inside ch)
        → IfErr result (λ k. k ≢ CheckKind.Memory → checked_from (Inside ch) (pieces_at 10 (text.now ++ more)) ≡ wrong (Some ch) k) }
    ensures behind { IfOk result (λ r. IfSome r (λ s. IsBehind s.1.now text.now)) }
{
    let Some((line, rest)) = cut_line(text) else {
        return Ok(None);
    };
    match go_over_line(alloc, chain, line) {
        Ok(told) => Ok(Some((told, rest))),
        Err(kind) => Err(kind),
    }
}

/// Checks a line of a chunk, and returns what it says.
fn go_over_line<'a>(alloc: Global, chain: &mut Chain, line: &'a [u8]) -> Result<Told<'a>, CheckKind>
    ensures right { (ch : spec.Chain) (rest : List (List ℕ)) → IsAt (Some chain.old) (Inside ch)
        → IfOk result (λ t. Moves (Some chain.new) (Inside ch) t (line.now ∷ rest) rest) }
    ensures wrong { (ch : spec.Chain) (rest : List ℕ) → IsAt (Some chain.old) (Inside ch)
        → IfErr result (λ k. k ≢ CheckKind.Memory → checked_from (Inside ch) (line.now ∷ pieces_at 10 rest) ≡ wrong (Some ch) k) }
{
    let text = chunk_line(line)?;
    let Some(text) = text else {
        chain.inside = false;
        return Ok(Told::Ended);
    };
    let version = chain.version;
    match take(alloc, chain, text) {
        Ok(entry) => Ok(Told::Entry(version, text, entry)),
        Err(kind) => Err(kind),
    }
}

/// Takes the event of a line's entry, if the entry is right, and returns the entry in full.
fn take(alloc: Global, chain: &mut Chain, line: &str) -> Result<FullEntry, CheckKind>
    ensures right { (ch : spec.Chain) → IsOf chain.old ch → IfOk result (λ entry. IsJoined chain.new (joined ch (entry_in ch.version ch.settings line.now))
        × (option_map without_item (in_full ch (entry_in ch.version ch.settings line.now)) ≡ Some entry)) }
    ensures wrong { (ch : spec.Chain) → IsOf chain.old ch
        → IfErr result (λ k. k ≢ CheckKind.Memory → joined ch (entry_in ch.version ch.settings line.now) ≡ Err k) }
    ensures inside { chain.new.inside ≡ chain.old.inside }
{
    let Chain {
        replayer,
        version,
        earlier: _,
        inside: _,
    } = chain;
    let entry = Recorded::read(alloc, *version, replayer.room().settings(), line)?;
    enter(replayer, *version, entry)
}
