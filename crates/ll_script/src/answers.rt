//! The lines that answer the lines of a script, except those of publishers.
ghost use Rattle.std.specs.Prelude.{◌≡◌, ◌++◌, IfOk, OnOk, decimal, length, string_bytes};
ghost use Rattle.std.specs.List.{concat};
ghost use Rattle.ll_script.specs.Answers as spec;

use hex::encode;
use itoa::Buffer;
use ll_directive::TargetFault;
use ll_item::Media;
use ll_publish::refusal_line;
use ll_store::Blocks;
use ll_verdict::{AskFault, ClockFault, Reply};
use ll_wire::{Slices, is_media_response};
use std::alloc::{AllocError, Global};

/// Returns the line that refuses a reading of the clock for `fault`.
pub fn clock_line(alloc: Global, fault: ClockFault) -> Result<String, AllocError>
    ensures { IfOk result (λ t. string_bytes t ≡ spec.clock_line fault) }
{
    refusal_line(alloc, fault.code(), fault.name())
}

/// Returns the reply of its channel to request `id`: a playlist or delta update after its length in bytes, media in hexadecimal digits after
/// its length in bytes, or a status and a name that say why there is none. It fails also if the bytes of media aren't known.
pub fn reply_lines(alloc: Global, id: u64, reply: &Reply) -> Result<String, AllocError>
    ensures { IfOk result (λ t. string_bytes t ≡ spec.reply_lines id reply.now) }
{
    match reply {
        Reply::Text(page) => text_reply(alloc, id, page.text().len() as u64, page.text()),
        Reply::Media(piece) => media_reply(alloc, id, &piece.bytes),
        Reply::NotFound | Reply::TooFar | Reply::Busy | Reply::Timeout => {
            named_reply(alloc, id, reply.status(), reply.name())
        }
    }
}

/// Returns the answer to request `id` whose target is refused for `fault`.
pub fn fault_line(alloc: Global, id: u64, fault: TargetFault) -> Result<String, AllocError>
    ensures { IfOk result (λ t. string_bytes t ≡ spec.fault_line id fault) }
{
    named_reply(alloc, id, fault.status(), fault.name())
}

/// Returns the answer to request `id` that its channel can't take now, so that it is no event of it.
pub fn unasked_line(alloc: Global, id: u64, fault: AskFault) -> Result<String, AllocError>
    ensures { IfOk result (λ t. string_bytes t ≡ spec.unasked_line id fault) }
{
    named_reply(alloc, id, 503, fault.name())
}

/// Appends to `text` an answer of connection `number`, after its length in bytes. If it fails, `text` may have got some of it.
pub fn push_sent(text: &mut Vec<u8>, number: u64, answer: &Slices<'_>) -> Result<(), AllocError>
    ensures { OnOk result (text.new.items ≡ text.old.items ++ spec.sent_line number answer.now) }
{
    text.extend_from_slice(b"sent ")?;
    push_number(text, number)?;
    text.extend_from_slice(b" ")?;
    push_number(text, answer.len() as u64)?;
    text.extend_from_slice(b"\n")?;
    push_ended(text, answer)
}

/// Appends a response, and LF after media.
fn push_ended(text: &mut Vec<u8>, answer: &Slices<'_>) -> Result<(), AllocError>
    ensures { OnOk result (text.new.items ≡ text.old.items ++ spec.ended answer.now) }
{
    let start = text.len();
    answer.copy_to(text)?;
    if !is_media_response(&text[start..]) {
        return Ok(());
    }
    text.extend_from_slice(b"\n")
}

/// Appends to `text` the line that says that connection `number` has shut by itself.
#[tactic(auto, unfolding(crate::specs::Answers::shut_line))]
pub fn push_shut(text: &mut Vec<u8>, number: u64) -> Result<(), AllocError>
    ensures { OnOk result (text.new.items ≡ text.old.items ++ spec.shut_line number) }
{
    text.extend_from_slice(b"shut ")?;
    push_number(text, number)?;
    text.extend_from_slice(b"\n")
}

/// Appends `number` in decimal digits.
fn push_number(text: &mut Vec<u8>, number: u64) -> Result<(), AllocError>
    ensures { OnOk result (text.new.items ≡ text.old.items ++ decimal number) }
{
    let mut digits = Buffer::new();
    text.extend_from_slice(digits.format(number).as_bytes())
}

/// Returns the reply to request `id` with media.
fn media_reply(alloc: Global, id: u64, media: &Blocks) -> Result<String, AllocError>
    ensures { IfOk result (λ t. string_bytes t ≡ spec.text_reply id (length media.now) (spec.media_text media.now)) }
{
    let text = media_text(alloc, media)?;
    text_reply(alloc, id, media.len(), &text)
}

/// Returns the bytes of media in hexadecimal digits, and LF.
fn media_text(alloc: Global, media: &Blocks) -> Result<String, AllocError>
    ensures { IfOk result (λ t. string_bytes t ≡ spec.media_text media.now) }
{
    let mut bytes = Vec::new(alloc);
    push_parts(&mut bytes, media.parts())?;
    let mut text = encode(alloc, &bytes)?;
    text.push_str("\n")?;
    Ok(text)
}

/// Appends the bytes of `parts`. It fails also if only the number of these bytes is known.
fn push_parts(bytes: &mut Vec<u8>, parts: &[Media]) -> Result<(), AllocError>
    ensures { OnOk result (bytes.new.items ≡ bytes.old.items ++ concat parts.now) }
{
    for part in parts {
        match part.bytes() {
            Some(own) => bytes.extend_from_slice(own)?,
            None => return Err(AllocError),
        }
    }
    Ok(())
}

/// Returns the reply to request `id` with a playlist or media of `length` bytes, as spelled by `text`.
#[tactic(auto, unfolding(crate::specs::Answers::text_reply))]
fn text_reply(alloc: Global, id: u64, length: u64, text: &str) -> Result<String, AllocError>
    ensures { IfOk result (λ t. string_bytes t ≡ spec.text_reply id length text.now) }
{
    format!(in alloc; "reply {id} 200 {length}\n{text}")
}

/// Returns the reply to request `id` with a status and a name only, which say why it gets nothing else.
#[tactic(auto, unfolding(crate::specs::Answers::named_reply))]
fn named_reply(alloc: Global, id: u64, status: u16, name: &str) -> Result<String, AllocError>
    ensures { IfOk result (λ t. string_bytes t ≡ spec.named_reply id status name.now) }
{
    format!(in alloc; "reply {id} {status} {name}\n")
}
