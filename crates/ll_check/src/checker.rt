//! The check of a record: the chains of a channel, one after another.
ghost use Rattle.std.specs.Prelude.{◌≡◌, ◌≢◌, ◌+◌, ◌++◌, ◌<◌, ◌≤◌, ◌^◌, IfErr, IfOk, IfSome, MatchOption, OnOk, Option, None, Ok, Err, ℕ, List, length, true};
ghost use Rattle.ll_attr.specs.Words.{pieces_at};
ghost use Rattle.ll_entry.specs.Chain as spec;
ghost use Rattle.ll_entry.specs.Chain.{Between, Position, checked, checked_from, counted, not_before, wrong};
ghost use Rattle.ll_check.specs.Found.{IsAt, so_far};
ghost use Rattle.ll_check.specs.Lines.{IsBehind, IsShort, lines_at};
ghost use Rattle.ll_check.specs.Steps.{IsOver, Moves};

use crate::begin::begin;
use crate::chain::{Chain, entries_of, is_inside};
use crate::chunk::go_on;
use crate::told::Told;
use ll_entry::{CheckFault, CheckKind};
use std::alloc::Global;
use std::marker::Model;

/// Returns how many entries a file of chunks has, if it is a faithful record: one or more chains of one channel, each of chunks in
/// sequence, in which every entry says what can happen after the entries before it in its chain, and has the right reply. Else returns the
/// first entry at which it is wrong, and how.
pub fn check(alloc: Global, bytes: &[u8]) -> Result<u64, CheckFault>
    ensures value { IfOk result (λ n. checked bytes.now ≡ Ok n) }
    ensures wrong { IfErr result (λ f. f.kind ≢ CheckKind.Memory → checked bytes.now ≡ Err f) }
    ensures memory { IfErr result (λ f. f.kind ≡ CheckKind.Memory → not_before f.entry (checked_from (Between None) (pieces_at 10 bytes.now)) ≡ true) }
{
    let mut checker = Checker::new(alloc);
    checker.count_in(bytes)
}

/// A record that is checked as it comes. Its memory depends on the channel, not on the length of the record.
#[derive(Drop)]
pub struct Checker {
    pub(crate) alloc: Global,
    pub(crate) chain: Option<Chain>,
}

impl Model for Checker {
    ghost use Rattle.std.specs.Prelude.{Option};
    ghost use Rattle.ll_check.specs.Found.{ChainValue};

    ghost Value = { Option ChainValue };

    ghost view = { λ c. c.chain };
}

impl Checker {
    /// Returns a checker to which no chunk has come.
    pub fn new(alloc: Global) -> Checker
        ensures { result ≡ None }
    {
        Checker { alloc, chain: None }
    }

    /// Checks the lines that come next, the last of which ends a chunk; there may be none if the checker is between chunks.
    pub fn read(&mut self, bytes: &[u8]) -> Result<(), CheckFault>
        ensures right { (p : Position) → IsAt self.old p
            → OnOk result ((now : Option spec.Chain) × IsAt self.new (Between now) × (checked_from p (pieces_at 10 bytes.now) ≡ Ok now)) }
        ensures wrong { (p : Position) → IsAt self.old p
            → IfErr result (λ f. f.kind ≢ CheckKind.Memory → checked_from p (pieces_at 10 bytes.now) ≡ Err f) }
        ensures memory { (p : Position) → IsAt self.old p → IfErr result (λ f. not_before f.entry (checked_from p (pieces_at 10 bytes.now)) ≡ true) }
    {
        let mut rest = bytes;
        while let Some((_told, more)) = self.next(rest)? {
            rest = more;
        }
        Ok(())
    }

    /// Returns how many entries a file of chunks has, before which nothing came.
    fn count_in(&mut self, bytes: &[u8]) -> Result<u64, CheckFault>
        requires { self.old ≡ None }
        ensures value { IfOk result (λ n. checked bytes.now ≡ Ok n) }
        ensures wrong { IfErr result (λ f. f.kind ≢ CheckKind.Memory → checked bytes.now ≡ Err f) }
        ensures memory { IfErr result (λ f. f.kind ≡ CheckKind.Memory → not_before f.entry (checked_from (Between None) (pieces_at 10 bytes.now)) ≡ true) }
    {
        self.read(bytes)?;
        self.count()
    }

    /// Returns how many entries a record has that ends with `rest`, in which fewer lines end than come next. After the last line of a chunk,
    /// nothing is left: else the record is wrong.
    pub(crate) fn end(&self, rest: &[u8]) -> Result<u64, CheckFault>
        ensures value { (p : Position) → IsAt self.now p → length (pieces_at 10 rest.now) ≤ lines_at p
            → result ≡ counted (checked_from p (pieces_at 10 rest.now)) }
        ensures over { (p : Position) → IsAt self.now p → OnOk result (IsOver self.now self.now p rest.now) }
        ensures place { (p : Position) → IsAt self.now p → IfErr result (λ f. f.entry ≡ spec.entries (so_far p) + 1) }
    {
        if rest.is_empty() && !is_inside(&self.chain) {
            return self.count();
        }
        Err(CheckFault {
            entry: self.entries() + 1,
            kind: CheckKind::BadChunk,
        })
    }

    /// Returns how many entries the chunks have so far. A record has one chunk or more: before the first, it is wrong.
    pub fn count(&self) -> Result<u64, CheckFault>
        ensures { (p : Position) → IsAt self.now p → result ≡ counted (Ok (so_far p)) }
    {
        match &self.chain {
            Some(chain) => Ok(chain.entries()),
            None => Err(CheckFault {
                entry: 1,
                kind: CheckKind::BadChunk,
            }),
        }
    }

    /// Returns how many entries the chunks have so far; 0 before the first chunk.
    pub fn entries(&self) -> u64
        ensures value { (p : Position) → IsAt self.now p → result ≡ spec.entries (so_far p) }
        ensures few { result ≤ 2 ^ 63 }
    {
        entries_of(&self.chain)
    }

    /// Checks the next lines of a record of which only `text` is left: the first three of a chunk or, inside a chunk, one line. Returns what
    /// they say and what follows them, or `None` if no text is left between chunks: then nothing changes.
    pub fn next<'a>(&mut self, text: &'a [u8]) -> Result<Option<(Told<'a>, &'a [u8])>, CheckFault>
        ensures right { (p : Position) → IsAt self.old p → IfOk result (λ r. MatchOption r (IsOver self.old self.new p text.now)
            (λ s. Moves self.new p s.0 (pieces_at 10 text.now) (pieces_at 10 s.1.now))) }
        ensures wrong { (p : Position) → IsAt self.old p
            → IfErr result (λ f. f.kind ≢ CheckKind.Memory → checked_from p (pieces_at 10 text.now) ≡ Err f) }
        ensures memory { (p : Position) → IsAt self.old p → IfErr result (λ f. not_before f.entry (checked_from p (pieces_at 10 text.now)) ≡ true) }
        ensures place { (p : Position) → IsAt self.old p → IfErr result (λ f. f.entry ≡ spec.entries (so_far p) + 1) }
        ensures shorter { IfOk result (λ r. IfSome r (λ s. length s.1.now < length text.now)) }
    {
        if text.is_empty() && !is_inside(&self.chain) {
            return Ok(None);
        }
        let entry = self.entries() + 1;
        match self.step(text)? {
            Some(step) => Ok(Some(step)),
            None => Err(CheckFault {
                entry,
                kind: CheckKind::BadChunk,
            }),
        }
    }

    /// Checks the next lines that end in `text`, and returns what they say and what follows them; `None` if fewer lines end than come next:
    /// then nothing changes. What comes after `text` makes no difference.
    pub(crate) fn step<'a>(
        &mut self,
        text: &'a [u8],
    ) -> Result<Option<(Told<'a>, &'a [u8])>, CheckFault>
        ensures right { (p : Position) (more : List ℕ) → IsAt self.old p → IfOk result (λ r. MatchOption r (IsShort self.old self.new p text.now)
            (λ s. Moves self.new p s.0 (pieces_at 10 (text.now ++ more)) (pieces_at 10 (s.1.now ++ more)))) }
        ensures wrong { (p : Position) (more : List ℕ) → IsAt self.old p
            → IfErr result (λ f. f.kind ≢ CheckKind.Memory → checked_from p (pieces_at 10 (text.now ++ more)) ≡ Err f) }
        ensures memory { (p : Position) (more : List ℕ) → IsAt self.old p
            → IfErr result (λ f. not_before f.entry (checked_from p (pieces_at 10 (text.now ++ more))) ≡ true) }
        ensures place { (p : Position) → IsAt self.old p → IfErr result (λ f. f.entry ≡ spec.entries (so_far p) + 1) }
        ensures behind { IfOk result (λ r. IfSome r (λ s. IsBehind s.1.now text.now)) }
    {
        let entry = self.entries() + 1;
        match go_over(self.alloc, &mut self.chain, text) {
            Ok(step) => Ok(step),
            Err(kind) => Err(CheckFault { entry, kind }),
        }
    }
}

/// Checks the next lines: the first three of a chunk or, inside a chunk, one line. Returns `None` if fewer lines end.
fn go_over<'a>(
    alloc: Global,
    chain: &mut Option<Chain>,
    text: &'a [u8],
) -> Result<Option<(Told<'a>, &'a [u8])>, CheckKind>
    ensures right { (p : Position) (more : List ℕ) → IsAt chain.old p → IfOk result (λ r. MatchOption r (IsShort chain.old chain.new p text.now)
        (λ s. Moves chain.new p s.0 (pieces_at 10 (text.now ++ more)) (pieces_at 10 (s.1.now ++ more)))) }
    ensures wrong { (p : Position) (more : List ℕ) → IsAt chain.old p
        → IfErr result (λ k. k ≢ CheckKind.Memory → checked_from p (pieces_at 10 (text.now ++ more)) ≡ wrong (so_far p) k) }
    ensures behind { IfOk result (λ r. IfSome r (λ s. IsBehind s.1.now text.now)) }
{
    if !is_inside(chain) {
        return begin(alloc, chain, text);
    }
    match chain {
        Some(chain) => go_on(alloc, chain, text),
        None => unreachable!(),
    }
}
