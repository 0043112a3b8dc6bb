//! The segments of a playlist to which an update is applied, as text.
ghost use Rattle.std.specs.Prelude.{◌≡◌, ◌++◌, OnOk, string_bytes, map, take, drop};
ghost use Rattle.std.specs.Option.{option_map};
ghost use Rattle.ll_apply.specs.Applied.{or_else, with_map};
ghost use Rattle.ll_apply.specs.Order.{both, both_lines, force_after, lines_from, shown};
ghost use Rattle.ll_line.specs.Text.{text_of};
ghost use Rattle.ll_line.specs.Spelling.{segment_lines};

use ll_attr::Micros;
use ll_line::{DateTime, Line, Uri, push_line};
use ll_read::Finished;
use std::alloc::AllocError;

/// Appends `count` segments of an earlier playlist from the place `from` on, without their parts, and then those of the update, `own`. A MAP line
/// stands at the first of all, and at each broken one.
pub(crate) fn push_segments(
    text: &mut String,
    base: &[Finished],
    from: usize,
    count: usize,
    own: &[Finished],
) -> Result<(), AllocError>
    ensures { OnOk result (string_bytes text.new ≡ string_bytes text.old ++ text_of (both from count base.now own.now)) }
{
    let (gone, kept) = split_kept(base, from, count);
    push_both(text, map_after(None, gone), kept, own)
}

/// Returns the segments before the place `from`, and the `count` segments from there on, or fewer if the list ends.
fn split_kept(segments: &[Finished], from: usize, count: usize) -> (&[Finished], &[Finished])
    ensures gone { result.0.now ≡ take from segments.now }
    ensures kept { result.1.now ≡ take count (drop from segments.now) }
{
    let (gone, rest) = segments.split_at(segments.len().min(from));
    let (kept, _) = rest.split_at(rest.len().min(count));
    (gone, kept)
}

/// Appends `kept` segments, without their parts, and then those of the update. The first of all leads; `before` is the map in force before it.
fn push_both(
    text: &mut String,
    before: Option<&str>,
    kept: &[Finished],
    own: &[Finished],
) -> Result<(), AllocError>
    ensures { OnOk result (string_bytes text.new ≡ string_bytes text.old
        ++ text_of (both_lines (option_map (λ uri. uri.now) before.entry) kept.now own.now)) }
{
    if kept.is_empty() {
        return push_in_order(text, own, None, true, true);
    }
    push_in_order(text, kept, before, true, false)?;
    push_in_order(text, own, map_after(before, kept), false, true)
}

/// Returns the map in force after `segments`; `before` is the one before them.
fn map_after<'a>(before: Option<&'a str>, segments: &'a [Finished]) -> Option<&'a str>
    ensures { option_map (λ uri. uri.now) result ≡ force_after (option_map (λ uri. uri.now) before.entry) segments.now }
{
    let mut map = before;
    for segment in segments {
        map = map_at(map, segment);
    }
    map
}

/// Returns the map in force at a segment; `before` is the one before it.
fn map_at<'a>(before: Option<&'a str>, segment: &'a Finished) -> Option<&'a str>
    ensures { option_map (λ uri. uri.now) result ≡ or_else segment.now.block.map (option_map (λ uri. uri.now) before.entry) }
{
    match &segment.block.map {
        Some(uri) => Some(uri.as_str()),
        None => before,
    }
}

/// Appends segments, with their parts or without them; `before` is the map in force before them. The first one leads the playlist if `leads`.
fn push_in_order(
    text: &mut String,
    segments: &[Finished],
    before: Option<&str>,
    leads: bool,
    with_parts: bool,
) -> Result<(), AllocError>
    ensures { OnOk result (string_bytes text.new ≡ string_bytes text.old
        ++ text_of (lines_from leads (option_map (λ uri. uri.now) before.entry) (map (shown with_parts) segments.now))) }
{
    let (mut map, mut leads) = (before, leads);
    for segment in segments {
        map = map_at(map, segment);
        let has_map = leads || segment.block.broken;
        push_segment(text, segment, if has_map { map } else { None }, with_parts)?;
        leads = false;
    }
    Ok(())
}

/// Appends a segment with a MAP line for `map`, if there is one, and with its parts or without them.
fn push_segment(
    text: &mut String,
    segment: &Finished,
    map: Option<&str>,
    with_parts: bool,
) -> Result<(), AllocError>
    ensures { OnOk result (string_bytes text.new ≡ string_bytes text.old
        ++ text_of (segment_lines (with_map (option_map (λ uri. uri.now) map.entry) (shown with_parts segment.now)))) }
{
    if segment.block.broken {
        push_line(text, &Line::Discontinuity)?;
    }
    if let Some(uri) = map {
        push_line(text, &Line::Map(Uri::Text(uri)))?;
    }
    push_line(
        text,
        &Line::Time(DateTime::Text(segment.block.time.as_str())),
    )?;
    if with_parts {
        segment.block.push_parts(text)?;
    }
    push_line(text, &Line::Duration(Micros(segment.duration)))?;
    push_line(text, &Line::Uri(Uri::Text(segment.uri.as_str())))
}
