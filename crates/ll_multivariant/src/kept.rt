//! What is kept of the last chain of a record while it is read: its settings, and what its items add to segments.
ghost use Rattle.std.specs.Prelude.{◌≡◌, ◌≢◌, IfErr, IfOk, List, None, OnOk, Ok, Err, Option, Some, true, ℕ};
ghost use Rattle.ll_attr.specs.Words.{pieces_at};
ghost use Rattle.ll_entry.specs.Chain.{Between, Chain, checked, checked_from};
ghost use Rattle.ll_entry.specs.Entered.{event_of};
ghost use Rattle.ll_entry.specs.Entries.{entry_in};
ghost use Rattle.ll_entry.specs.declared.entry.Recorded.{Recorded};
ghost use Rattle.ll_settings.specs.Settings.{Configuration, settings_in};
ghost use Rattle.ll_multivariant.specs.Keeping.{AddsLine, AddsTold, kept_of, addition_list};
ghost use Rattle.ll_multivariant.specs.Additions.{additions_in};

use crate::addition::addition_of;
use ll_check::{Checker, Told};
use ll_entry::{CheckFault, CheckKind, Recorded, Version};
use ll_settings::Settings;
use ll_variants::Addition;
use std::alloc::{AllocError, Global};
use std::marker::Model;

/// What is kept of the last chain of a record.
#[derive(Drop)]
pub(crate) struct Kept {
    /// Its settings; `None` before the first chain.
    pub(crate) settings: Option<Settings>,
    /// What its items add to segments, in their order.
    pub(crate) additions: Vec<Addition>,
}

impl Model for Kept {
    ghost use Rattle.ll_multivariant.specs.Keeping.{KeptValue};

    ghost Value = { KeptValue };

    ghost view = { λ k. record { settings = k.settings; additions = k.additions.items } };
}

/// Returns what is kept of the last chain of the record `chunks`.
///
/// # Errors
///
/// The fault of the record, as [`check`](ll_check::check) has it; Memory if out of memory.
pub(crate) fn last_chain(alloc: Global, chunks: &[u8]) -> Result<Kept, CheckFault>
    ensures right { OnOk result ((n : ℕ) × (checked chunks.now ≡ Ok n)) }
    ensures kept { IfOk result (λ k. (ch : Chain) × (checked_from (Between None) (pieces_at 10 chunks.now) ≡ Ok (Some ch)) × (k ≡ kept_of (Some ch))) }
    ensures wrong { IfErr result (λ f. f.kind ≢ CheckKind.Memory → checked chunks.now ≡ Err f) }
{
    let mut checker = Checker::new(alloc);
    last_chain_by(alloc, &mut checker, chunks)
}

/// Does the same with `checker`, to which no chunk has come.
fn last_chain_by(alloc: Global, checker: &mut Checker, chunks: &[u8]) -> Result<Kept, CheckFault>
    requires { checker.old ≡ None }
    ensures right { OnOk result ((n : ℕ) × (checked chunks.now ≡ Ok n)) }
    ensures kept { IfOk result (λ k. (ch : Chain) × (checked_from (Between None) (pieces_at 10 chunks.now) ≡ Ok (Some ch)) × (k ≡ kept_of (Some ch))) }
    ensures wrong { IfErr result (λ f. f.kind ≢ CheckKind.Memory → checked chunks.now ≡ Err f) }
{
    let mut kept = Kept {
        settings: None,
        additions: Vec::new(alloc),
    };
    let mut rest = chunks;
    'lines: while let Some((told, more)) = checker.next(rest)? {
        if kept.add(alloc, &told).is_err() {
            return Err(CheckFault {
                entry: checker.entries() + 1,
                kind: CheckKind::Memory,
            });
        }
        rest = more;
    }
    checker.count()?;
    Ok(kept)
}

impl Kept {
    /// Keeps what the next lines say, which is `told`: a chain begins with a chunk that has no entries before it.
    fn add(&mut self, alloc: Global, told: &Told<'_>) -> Result<(), AllocError>
        ensures { OnOk result (AddsTold self.old self.new told.now) }
    {
        match told {
            Told::Begun(settings, 0) => {
                self.settings = Some(read_settings(alloc, settings)?);
                self.additions.clear();
                Ok(())
            }
            Told::Entry(version, line, _) => self.add_line(alloc, *version, line),
            _ => Ok(()),
        }
    }

    /// Keeps the entry of `line`, which is in the format `version`.
    fn add_line(&mut self, alloc: Global, version: Version, line: &str) -> Result<(), AllocError>
        ensures { (c : Configuration) → self.old.settings ≡ Some c → OnOk result (AddsLine self.old self.new version line.now c) }
    {
        let Some(settings) = &self.settings else {
            return Ok(());
        };
        if let Some(addition) = read_addition(alloc, version, settings, line)? {
            self.additions.push(addition)?;
        }
        Ok(())
    }
}

/// Reads the settings line `line`, which is right.
fn read_settings(alloc: Global, line: &str) -> Result<Settings, AllocError>
    ensures { IfOk result (λ s. settings_in line.now ≡ Ok s) }
{
    match Settings::read(alloc, line) {
        Ok(settings) => Ok(settings),
        Err(_) => Err(AllocError),
    }
}

/// Reads the entry of `line`, which is right, and returns what its item adds to segments, if it is one.
fn read_addition(
    alloc: Global,
    version: Version,
    settings: &Settings,
    line: &str,
) -> Result<Option<Addition>, AllocError>
    ensures { IfOk result (λ addition. (entry : Recorded) × (entry_in version settings.now line.now ≡ Ok entry) × (addition_list addition ≡ additions_in (event_of entry))) }
{
    match Recorded::read(alloc, version, settings, line) {
        Ok(Recorded::Publish(item)) => Ok(Some(addition_of(&item))),
        Ok(_) => Ok(None),
        Err(_) => Err(AllocError),
    }
}
