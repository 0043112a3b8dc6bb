//! A record that was handed out.
ghost use Rattle.std.specs.Prelude.{◌≡◌, ◌++◌, IfOk, codes, true};
ghost use Rattle.std.specs.Str.{is_utf8};
ghost use Rattle.ll_entry.specs.Leads.{chunk_text};
ghost use Rattle.ll_entry.specs.Frame.{last_line};
ghost use Rattle.ll_entry.specs.SettingsLine.{settings_line};

use ll_entry::{LAST_LINE, Version, header_text, settings_text};
use ll_settings::Settings;
use std::alloc::{AllocError, Global};
use std::marker::Model;

/// A record that was handed out, in the form that `check` reads. The chunks of a channel, in order from its start on, are a faithful chain.
pub struct Chunk {
    text: Vec<u8>,
    entries: u64,
}

impl Drop for Chunk {
    fn drop(self) {
        let Chunk {
            text: _text,
            entries: _,
        } = self;
    }
}

impl Model for Chunk {
    ghost use Rattle.ll_record.specs.Chunk.{ChunkValue};

    ghost Value = { ChunkValue };

    ghost view = { λ k. record { text = k.text.items; entries = k.entries } };
}

impl Chunk {
    /// Returns the chunk of `lines`, which are `entries` entries of a channel that had `at` entries before.
    pub(crate) fn new(
        alloc: Global,
        settings: &Settings,
        at: u64,
        lines: &[u8],
        entries: u64,
    ) -> Result<Chunk, AllocError>
        ensures text { IfOk result (λ k. k ≡ record { text = chunk_text settings.now at lines.now; entries = entries }) }
        ensures settings { IfOk result (λ k. is_utf8 (settings_line settings.now) ≡ true) }
    {
        let settings = settings_text(alloc, settings)?;
        let header = header_text(alloc, Version::Two, settings.as_str(), at)?;
        let text = whole(alloc, header.as_bytes(), lines)?;
        Ok(Chunk { text, entries })
    }

    /// Returns its text: three lines that say whose it is and where it continues, a line for each entry, and the line `#END`.
    pub fn bytes(&self) -> &[u8]
        ensures { result.now ≡ self.now.text }
    {
        &self.text
    }

    /// Returns the number of its entries.
    pub fn entries(&self) -> u64
        ensures { result ≡ self.now.entries }
    {
        self.entries
    }
}

/// Returns the whole text of a chunk whose first three lines are `header`.
fn whole(alloc: Global, header: &[u8], lines: &[u8]) -> Result<Vec<u8>, AllocError>
    ensures { IfOk result (λ t. t.items ≡ header.now ++ (lines.now ++ (last_line ++ codes "\n"))) }
{
    let length = header
        .len()
        .saturating_add(lines.len())
        .saturating_add(LAST_LINE.len() + 1);
    let mut text = Vec::with_capacity(alloc, length)?;
    text.extend_from_slice(header)?;
    text.extend_from_slice(lines)?;
    text.extend_from_slice(LAST_LINE.as_bytes())?;
    text.push(b'\n')?;
    Ok(text)
}
