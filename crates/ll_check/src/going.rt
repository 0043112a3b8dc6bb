//! How a record is read in pieces, and its lines are checked and passed to a visitor, up to an entry or to the end.
ghost use Rattle.std.specs.Prelude.{◌≡◌, ◌<◌, ◌≤◌, ◌+◌, ◌^◌, IfErr, IfOk, List, MatchOption, Ok, OnErr, Option, Some, [], false, true, ℕ};
ghost use Rattle.ll_attr.specs.Words.{pieces_at};
ghost use Rattle.ll_check.specs.Found.{IsAt, so_far};
ghost use Rattle.ll_check.specs.Going.{HasGone, IsEarly, IsElsewhere, IsHere, IsSought};
ghost use Rattle.ll_check.specs.Passing.{HasPassed, HasStayed, IsWrongAt};
ghost use Rattle.ll_check.specs.Unread.{IsFaultOf, IsStopped};
ghost use Rattle.ll_check.specs.Visiting.{HasEnded, HasVisited, StaysWithin, StillHolds};
ghost use Rattle.ll_check.specs.declared.told.Told.{Told};
ghost use Rattle.ll_entry.specs.Chain as spec;
ghost use Rattle.ll_entry.specs.Chain.{Between, Position, checked, entries};

use crate::checker::Checker;
use crate::replies::EntryReply;
use crate::source::RecordFault;
use crate::unread::Unread;
use crate::visitor::Visitor;
use ll_device::Reader;
use ll_entry::{CheckFault, CheckKind};
use std::alloc::Global;

/// Where a record was gone over to.
#[derive(Drop)]
pub enum Reached {
    /// To its end, which comes after this many entries.
    End(u64),
    /// To the entry that was looked for. Its line and what comes after it weren't passed to the visitor.
    Entry(EntryReply),
}

/// Checks the record that is left in `source`, as [`check`](crate::check) does, but reads it in pieces, and passes what its lines say to
/// `visitor` with `sink`. Its memory depends on the channel and the longest line, not on the length of the record. Returns how many entries
/// the record has. A visitor that ends the reading counts as out of memory.
pub fn go_over<R: Reader, S, V: Visitor<S>>(
    alloc: Global,
    source: &mut R,
    visitor: &mut V,
    sink: &mut S,
) -> Result<u64, RecordFault>
    ensures value { (input : List ℕ) → R.left source.old ≡ Some input → IfOk result (λ n. checked input ≡ Ok n) }
    ensures visited { (input : List ℕ) → R.left source.old ≡ Some input → IfOk result (λ n. (before : Option spec.Chain)
        × StillHolds V.holds sink.old visitor.old visitor.new sink.new (pieces_at 10 input) (Between before) (pieces_at 10 [])) }
    ensures held { (input : List ℕ) → R.left source.old ≡ Some input
        → OnErr result (StaysWithin V.holds sink.old visitor.old visitor.new sink.new (pieces_at 10 input)) }
    ensures wrong { (input : List ℕ) → R.left source.old ≡ Some input → IfErr result (IsFaultOf input) }
    ensures stopped { IfErr result (IsStopped (R.failures source.old < R.failures source.new) (R.reads source.new ≡ R.reads source.old + 2 ^ 32)) }
{
    match go_to(alloc, source, 0, visitor, sink)? {
        Reached::End(entries) => Ok(entries),
        Reached::Entry(_) => unreachable!(),
    }
}

/// Does the same up to the entry with the number `entry`, from 1, if the record has one: it is checked too, and nothing after it.
pub fn go_to<R: Reader, S, V: Visitor<S>>(
    alloc: Global,
    source: &mut R,
    entry: u64,
    visitor: &mut V,
    sink: &mut S,
) -> Result<Reached, RecordFault>
    ensures gone { (input : List ℕ) → R.left source.old ≡ Some input
        → IfOk result (HasGone (StillHolds V.holds sink.old visitor.old visitor.new sink.new (pieces_at 10 input)) entry input) }
    ensures held { (input : List ℕ) → R.left source.old ≡ Some input
        → OnErr result (StaysWithin V.holds sink.old visitor.old visitor.new sink.new (pieces_at 10 input)) }
    ensures sought { IfOk result (IsSought entry) }
    ensures wrong { (input : List ℕ) → R.left source.old ≡ Some input → IfErr result (IsFaultOf input) }
    ensures early { (input : List ℕ) → R.left source.old ≡ Some input → IfErr result (IsEarly entry) }
    ensures stopped { IfErr result (IsStopped (R.failures source.old < R.failures source.new) (R.reads source.new ≡ R.reads source.old + 2 ^ 32)) }
{
    let mut checker = Checker::new(alloc);
    let mut unread = Unread::new(alloc);
    'pieces: loop {
        if let Some(found) = reply_at(&mut checker, entry, unread.text())? {
            return Ok(Reached::Entry(found));
        }
        if pass(&mut checker, &mut unread, visitor, sink)? {
            continue;
        }
        if !unread.read(source)? {
            return Ok(Reached::End(checker.end(unread.text())?));
        }
    }
}

/// Returns the line and the reply of the next entry, if its number is `entry` and its line ends in `text`; else `None`, and nothing changes.
fn reply_at(
    checker: &mut Checker,
    entry: u64,
    text: &[u8],
) -> Result<Option<EntryReply>, CheckFault>
    ensures right { (p : Position) (more : List ℕ) → IsAt checker.old p
        → IfOk result (λ r. MatchOption r (IsElsewhere checker.old checker.new p entry text.now more) (λ b. IsHere p entry b text.now more)) }
    ensures sought { IfOk result (λ r. MatchOption r Unit (λ b. 1 ≤ entry)) }
    ensures wrong { IfErr result (IsWrongAt checker.old text.now) }
    ensures place { (p : Position) → IsAt checker.old p → IfErr result (λ f. f.entry ≡ entry) }
{
    if checker.entries() + 1 != entry {
        return Ok(None);
    }
    checker.reply(text)
}

/// Checks the next lines that were read, passes what they say to `visitor`, and drops them; returns whether all of them were there.
fn pass<S, V: Visitor<S>>(
    checker: &mut Checker,
    unread: &mut Unread,
    visitor: &mut V,
    sink: &mut S,
) -> Result<bool, CheckFault>
    ensures passed { IfOk result (λ passed. passed ≡ true → ((t : Told) × HasPassed checker.old checker.new unread.old.text unread.new.text t
        × HasVisited V.holds checker.old visitor.old sink.old t visitor.new sink.new) × (unread.new.reads ≡ unread.old.reads)) }
    ensures stayed { IfOk result (λ passed. passed ≡ false
        → HasStayed checker.old checker.new unread.old unread.new × (visitor.new ≡ visitor.old) × (sink.new ≡ sink.old)) }
    ensures ended { OnErr result (HasEnded V.holds checker.old unread.old.text visitor.old sink.old visitor.new sink.new) }
    ensures wrong { IfErr result (IsWrongAt checker.old unread.old.text) }
    ensures place { (p : Position) → IsAt checker.old p → IfErr result (λ f. f.entry ≡ entries (so_far p) + 1) }
{
    let entry = checker.entries() + 1;
    let left = {
        let Some((told, rest)) = checker.step(unread.text())? else {
            return Ok(false);
        };
        if !visitor.visit(sink, &told) {
            return Err(CheckFault {
                entry,
                kind: CheckKind::Memory,
            });
        }
        rest.len()
    };
    unread.keep(left);
    Ok(true)
}
