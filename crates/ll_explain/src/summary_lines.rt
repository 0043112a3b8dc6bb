//! The lines of the summaries of chains.
ghost use Rattle.std.specs.Prelude.{◌≡◌, ◌++◌, IfOk, OnOk, string_bytes};
ghost use Rattle.ll_explain.specs.SummaryLines as spec;

use crate::summary::Summary;
use std::alloc::{AllocError, Global};

/// Returns the lines of `chains`, numbered from 1.
pub fn summary_text(alloc: Global, chains: &[Summary]) -> Result<String, AllocError>
    ensures { IfOk result (λ t. string_bytes t ≡ spec.chains_text 0 chains.now) }
{
    let mut text = String::new(alloc);
    for (before, chain) in chains.iter().enumerate() {
        push_chain(alloc, &mut text, before as u64 + 1, chain)?;
    }
    Ok(text)
}

/// Appends the lines of `chain`, whose number is `number`, to `text`.
fn push_chain(
    alloc: Global,
    text: &mut String,
    number: u64,
    chain: &Summary,
) -> Result<(), AllocError>
    ensures { OnOk result (string_bytes text.new ≡ string_bytes text.old ++ spec.chain_text number chain.now) }
{
    text.push_str(events_text(alloc, number, chain)?.as_str())?;
    text.push_str(answered_text(alloc, chain)?.as_str())?;
    text.push_str(held_text(alloc, chain)?.as_str())?;
    text.push_str(refused_text(alloc, chain)?.as_str())
}

/// Returns the lines of the number, entries, items and readings of `chain`.
#[tactic(auto, unfolding(crate::specs::SummaryLines::events_text))]
fn events_text(alloc: Global, number: u64, chain: &Summary) -> Result<String, AllocError>
    ensures { IfOk result (λ t. string_bytes t ≡ spec.events_text number chain.now) }
{
    let (entries, items) = (chain.entries, chain.items);
    let (first, last) = (chain.first.unwrap_or(0), chain.last.unwrap_or(0));
    format!(in alloc;
        "chain {number}\nentries {entries}\nitems {items}\nfirst reading {first}\nlast reading {last}\n"
    )
}

/// Returns the lines of the requests of `chain` that were answered, timed out or closed.
#[tactic(auto, unfolding(crate::specs::SummaryLines::answered_text))]
fn answered_text(alloc: Global, chain: &Summary) -> Result<String, AllocError>
    ensures { IfOk result (λ t. string_bytes t ≡ spec.answered_text chain.now) }
{
    let (at_once, answered) = (chain.at_once, chain.answered);
    let (timed_out, given_up) = (chain.timed_out, chain.given_up);
    format!(in alloc;
        "answered at once {at_once}\nheld and answered {answered}\ntimed out {timed_out}\ngiven up {given_up}\n"
    )
}

/// Returns the lines of the requests of `chain` that are held at its end, and of the most that were held.
#[tactic(auto, unfolding(crate::specs::SummaryLines::held_text))]
fn held_text(alloc: Global, chain: &Summary) -> Result<String, AllocError>
    ensures { IfOk result (λ t. string_bytes t ≡ spec.held_text chain.now) }
{
    let (held, most) = (chain.still_held(), chain.most_held);
    format!(in alloc; "still held {held}\nmost held {most}\n")
}

/// Returns the lines of the requests of `chain` that were refused.
#[tactic(auto, unfolding(crate::specs::SummaryLines::refused_text))]
fn refused_text(alloc: Global, chain: &Summary) -> Result<String, AllocError>
    ensures { IfOk result (λ t. string_bytes t ≡ spec.refused_text chain.now) }
{
    let (too_far, not_found, busy) = (chain.too_far, chain.not_found, chain.busy);
    format!(in alloc; "too far {too_far}\nnot found {not_found}\nbusy {busy}\n")
}
