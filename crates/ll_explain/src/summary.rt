//! The summary of each chain of a record: how many entries of each kind it has.
ghost use Rattle.std.specs.Prelude.{◌≡◌, ◌+◌, ◌++◌, ◌∷◌, ◌-◌, ◌^◌, ◌<◌, [], IfErr, IfOk, None, OnErr, OnOk, Ok, List, Some, length, map, ℕ};
ghost use Rattle.ll_check.specs.Unread.{IsFaultOf, IsStopped};
ghost use Rattle.ll_directive.specs.Targets.{WantValue};
ghost use Rattle.ll_entry_check.specs.declared.full.FullEntry.{FullEntry};
ghost use Rattle.ll_entry.specs.Chain.{checked};
ghost use Rattle.ll_explain.specs.Chains.{chains_in};
ghost use Rattle.ll_explain.specs.Counting.{last_chain, one_more, with_kind, with_told};
ghost use Rattle.ll_explain.specs.Summary.{held_now, summary_of};

use ll_check::{RecordFault, Told, Visitor, go_over};
use ll_device::Reader;
use ll_entry_check::FullEntry;
use ll_verdict::Outcome;
use std::alloc::{AllocError, Global};

/// The counts of a chain.
#[derive(Clone, Copy)]
pub struct Summary {
    /// The number of its entries.
    pub entries: u64,
    /// The number of accepted items.
    pub items: u64,
    /// The number of requests that got a playlist or media at once.
    pub at_once: u64,
    /// The number of requests that were held.
    pub held: u64,
    /// The number of held requests that got a reply before their timeout.
    pub answered: u64,
    /// The number of held requests that timed out.
    pub timed_out: u64,
    /// The number of held requests that were closed.
    pub given_up: u64,
    /// The number of requests for what was too far ahead.
    pub too_far: u64,
    /// The number of requests for a rendition or media that there isn't, answered at once.
    pub not_found: u64,
    /// The number of requests that came when the limit of waiting requests was reached.
    pub busy: u64,
    /// The most requests that were held at one time.
    pub most_held: u64,
    /// The first reading of the clock, in milliseconds, if there is one.
    pub first: Option<u64>,
    /// The last reading of the clock, in milliseconds, if there is one.
    pub last: Option<u64>,
}

impl Summary {
    /// Returns the summary of a chain of no entries.
    pub fn new() -> Summary
        ensures { result ≡ summary_of [] }
    {
        Summary {
            entries: 0,
            items: 0,
            at_once: 0,
            held: 0,
            answered: 0,
            timed_out: 0,
            given_up: 0,
            too_far: 0,
            not_found: 0,
            busy: 0,
            most_held: 0,
            first: None,
            last: None,
        }
    }

    /// Counts `entry`, the next one of the chain.
    pub fn add(&mut self, entry: &FullEntry)
        ensures { (before : List FullEntry) → length before < 2 ^ 64 - 1 → self.old ≡ summary_of before → self.new ≡ summary_of (before ++ entry.now ∷ []) }
    {
        count(&mut self.entries);
        self.add_kind(entry);
        self.most_held = self.most_held.max(self.still_held());
    }

    /// Returns how many requests are held at the chain's end: they neither got their reply nor were closed.
    pub fn still_held(&self) -> u64
        ensures { result ≡ held_now self.now }
    {
        let handed_out = self.answered.saturating_add(self.timed_out);
        self.held
            .saturating_sub(handed_out.saturating_add(self.given_up))
    }

    /// Counts `entry` by its kind.
    fn add_kind(&mut self, entry: &FullEntry)
        ensures { self.new ≡ with_kind self.old entry.now }
    {
        match entry {
            FullEntry::Publish => count(&mut self.items),
            FullEntry::Ask(_, _, Some(outcome)) => self.add_answer(*outcome),
            FullEntry::Ask(_, _, None) => count(&mut self.held),
            FullEntry::Clock(ms) => {
                self.first = self.first.or(Some(*ms));
                self.last = Some(*ms);
            }
            FullEntry::Collect(_, outcome) => self.add_reply(*outcome),
            FullEntry::Close(_) => count(&mut self.given_up),
        }
    }

    /// Counts `outcome`, which a request got at once.
    fn add_answer(&mut self, outcome: Outcome)
        ensures { (ask : ℕ) (want : WantValue) → self.new ≡ with_kind self.old (FullEntry.Ask ask want (Some outcome)) }
    {
        match outcome {
            Outcome::Text(..) | Outcome::Media(..) | Outcome::Timeout => count(&mut self.at_once),
            Outcome::NotFound => count(&mut self.not_found),
            Outcome::TooFar => count(&mut self.too_far),
            Outcome::Busy => count(&mut self.busy),
        }
    }

    /// Counts `outcome`, which was handed out to a request that was held.
    fn add_reply(&mut self, outcome: Outcome)
        ensures { (ask : ℕ) → self.new ≡ with_kind self.old (FullEntry.Collect ask outcome) }
    {
        match outcome {
            Outcome::Timeout => count(&mut self.timed_out),
            _ => count(&mut self.answered),
        }
    }
}

/// Adds 1 to `many`, as far as 64 bits go.
fn count(many: &mut u64)
    ensures { many.new ≡ one_more many.old }
{
    *many = many.saturating_add(1);
}

/// Returns the summary of each chain of the record that is left in `source`, which is read in pieces.
///
/// # Errors
///
/// The fault of the record, as [`check_source`](ll_check::check_source) has it; Memory if out of memory.
pub fn summarize<R: Reader>(alloc: Global, source: &mut R) -> Result<Vec<Summary>, RecordFault>
    ensures right { (input : List ℕ) → R.left source.old ≡ Some input → OnOk result ((n : ℕ) × (checked input ≡ Ok n)) }
    ensures counts { (input : List ℕ) → R.left source.old ≡ Some input → IfOk result (λ all. all.items ≡ map summary_of (chains_in input)) }
    ensures wrong { (input : List ℕ) → R.left source.old ≡ Some input → IfErr result (IsFaultOf input) }
    ensures stopped { IfErr result (IsStopped (R.failures source.old < R.failures source.new) (R.reads source.new ≡ R.reads source.old + 2 ^ 32)) }
{
    let mut chains = Vec::new(alloc);
    match go_over(alloc, source, &mut Counting, &mut chains) {
        Ok(_) => Ok(chains),
        Err(fault) => Err(fault),
    }
}

/// A visitor that counts what lines say in the summaries of their chains.
#[derive(Drop)]
struct Counting;

impl Visitor<Vec<Summary>> for Counting {
    ghost use Rattle.ll_explain.specs.Counting.{AreCounted};

    ghost holds = { λ first counting chains p lines rest. AreCounted chains.items p lines rest };

    fn visit(&mut self, chains: &mut Vec<Summary>, told: &Told<'_>) -> bool {
        add(chains, told).is_ok()
    }
}

/// Counts `told`, what the next lines say: a chain begins with a chunk that has no entries before it.
fn add(chains: &mut Vec<Summary>, told: &Told<'_>) -> Result<(), AllocError>
    ensures counted { (before : List (List FullEntry)) → length (last_chain before) < 2 ^ 64 - 1 → chains.old.items ≡ map summary_of before
        → OnOk result (chains.new.items ≡ map summary_of (with_told before told.now)) }
    ensures same { OnErr result (chains.new.items ≡ chains.old.items) }
{
    match told {
        Told::Begun(_, 0) => chains.push(Summary::new())?,
        Told::Entry(_, _, entry) => {
            if let Some(chain) = chains.last_mut() {
                chain.add(entry);
            }
        }
        _ => {}
    }
    Ok(())
}
