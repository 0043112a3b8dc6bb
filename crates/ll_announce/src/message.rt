//! The messages to an origin: a line each, which for some items is followed by the item's bytes and LF.
ghost use Rattle.std.specs.Prelude.{◌≡◌, IfOk};
ghost use Rattle.ll_item.specs.ItemLines as lines;
ghost use Rattle.ll_item.specs.ItemLines.{line_text};
ghost use Rattle.ll_item.specs.Items.{flags_text};
ghost use Rattle.ll_announce.specs.Messages as spec;
ghost use Rattle.ll_announce.specs.Meaning.{named};

use crate::names::Names;
use crate::said::Said;
use ll_item::ItemLine;
use ll_parts::{Bytes, MediaPart};
use std::alloc::{AllocError, Global};
use std::marker::Model;

/// What is sent to an origin at once, and answered by one line.
pub struct Message {
    bytes: Vec<u8>,
    said: Said,
}

impl Drop for Message {
    fn drop(self) {
        let Message {
            bytes: _bytes,
            said: _said,
        } = self;
    }
}

impl Model for Message {
    ghost use Rattle.ll_announce.specs.Messages.{MessageValue};

    ghost Value = { MessageValue };

    ghost view = { λ m. record { bytes = m.bytes.items; said = m.said } };
}

impl Message {
    /// Returns the message that announces an initialization section.
    pub(crate) fn init(
        alloc: Global,
        names: &Names<'_>,
        section: &Bytes,
    ) -> Result<Message, AllocError>
        ensures { IfOk result (λ m. m ≡ spec.init_message (named names.now) section.now) }
    {
        let Names { channel, rendition } = *names;
        let line = ItemLine::Init { rendition };
        Ok(Message {
            bytes: item_text(alloc, channel, line, section.as_slice())?,
            said: Said::Init,
        })
    }

    /// Returns the message that announces `part`.
    pub(crate) fn part(
        alloc: Global,
        names: &Names<'_>,
        part: &MediaPart,
    ) -> Result<Message, AllocError>
        ensures { IfOk result (λ m. m ≡ spec.part_message (named names.now) part.now) }
    {
        let Names { channel, rendition } = *names;
        let line = part_line(rendition, part);
        Ok(Message {
            bytes: item_text(alloc, channel, line, part.bytes.as_slice())?,
            said: Said::Part {
                duration: part.duration,
                finishes: part.finishes,
            },
        })
    }

    /// Returns the message that finishes the open segment.
    pub(crate) fn finish(alloc: Global, names: &Names<'_>) -> Result<Message, AllocError>
        ensures { IfOk result (λ m. m ≡ spec.finish_message (named names.now)) }
    {
        let Names { channel, rendition } = *names;
        Ok(Message {
            bytes: bare_text(alloc, channel, ItemLine::Finish { rendition })?,
            said: Said::Finish,
        })
    }

    /// Returns the message that announces a break, and sets the `time`, if one is given, in milliseconds since 1970.
    pub(crate) fn of_break(
        alloc: Global,
        names: &Names<'_>,
        time: Option<u64>,
    ) -> Result<Message, AllocError>
        ensures { IfOk result (λ m. m ≡ spec.break_message (named names.now) time) }
    {
        let Names { channel, rendition } = *names;
        Ok(Message {
            bytes: bare_text(alloc, channel, ItemLine::Break { rendition, time })?,
            said: Said::Break { time },
        })
    }

    /// Returns the message that ends the rendition.
    pub fn end(alloc: Global, names: &Names<'_>) -> Result<Message, AllocError>
        ensures { IfOk result (λ m. m ≡ spec.end_message (named names.now)) }
    {
        let Names { channel, rendition } = *names;
        Ok(Message {
            bytes: bare_text(alloc, channel, ItemLine::End { rendition })?,
            said: Said::End,
        })
    }

    /// Returns its bytes.
    pub fn bytes(&self) -> &[u8]
        ensures { result.now ≡ self.now.bytes }
    {
        &self.bytes
    }

    /// Returns what it announces.
    pub fn said(&self) -> Said
        ensures { result ≡ self.now.said }
    {
        self.said
    }
}

/// Returns the line that asks where the rendition stands, with its LF.
#[tactic(auto, unfolding(crate::specs::Messages::sent_line, crate::specs::Messages::at_line))]
pub fn question(alloc: Global, names: &Names<'_>) -> Result<Vec<u8>, AllocError>
    ensures { IfOk result (λ text. text.items ≡ spec.question (named names.now)) }
{
    let Names { channel, rendition } = *names;
    Ok(format!(in alloc; "{channel} at {rendition}\n")?.into_bytes())
}

/// Returns the text that announces the item `line` for `channel`, followed by its `bytes`.
#[tactic(auto, unfolding(crate::specs::Messages::sent_line))]
fn item_text(
    alloc: Global,
    channel: &str,
    line: ItemLine<'_>,
    bytes: &[u8],
) -> Result<Vec<u8>, AllocError>
    ensures { IfOk result (λ m. m.items ≡ spec.item_text channel.now (line_text line.entry) bytes.now) }
{
    let length = bytes.len();
    let mut message = format!(in alloc; "{channel} {line} {length}\n")?.into_bytes();
    message.reserve(bytes.len() + 1)?;
    message.extend_from_slice(bytes)?;
    message.push(b'\n')?;
    Ok(message)
}

/// Returns the text that announces the item `line` for `channel`, which has no bytes.
#[tactic(auto, unfolding(crate::specs::Messages::sent_line))]
fn bare_text(alloc: Global, channel: &str, line: ItemLine<'_>) -> Result<Vec<u8>, AllocError>
    ensures { IfOk result (λ m. m.items ≡ spec.bare_text channel.now (line_text line.entry)) }
{
    Ok(format!(in alloc; "{channel} {line}\n")?.into_bytes())
}

/// Returns the line of `part`, without the number of its bytes.
fn part_line<'a>(rendition: &'a str, part: &MediaPart) -> ItemLine<'a>
    ensures { line_text result ≡ lines.part_line rendition.now part.now.duration (flags_text part.now.independent part.now.finishes) }
{
    ItemLine::Part {
        rendition,
        duration: part.duration,
        independent: part.independent,
        finish: part.finishes,
    }
}
