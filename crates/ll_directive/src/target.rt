//! The target of a request, parsed.
ghost use Rattle.std.specs.Prelude.{◌≡◌, ◌≢◌, IfOk, IfErr, IsOk, IsErrOf, Ok, Err, None, Some, MatchOption};
ghost use Rattle.std.specs.List.{after_first, list_all};
ghost use Rattle.form_urlencoded.specs.Form.{parse};
ghost use Rattle.ll_directive.specs.Targets.{want_in};
ghost use Rattle.ll_directive.specs.Targets as spec;

use crate::fault::TargetFault;
use crate::path::{names_in, path_of, split};
use crate::query::read_query;
use crate::want::{Awaited, Want, awaits};
use ll_attr::Text;
use ll_item::{SkipKind, What};
use percent_encoding::ascii_str;
use std::alloc::Global;

/// Parses the target of a request (section 6.2.5): `/CHANNEL/RENDITION/FILE`, or that after `http://` or `https://` and an authority, with a query or
/// none. The file is a playlist, `live.m3u8`, or media as playlists name it; the query of media isn't read. Fails with the target's first fault, in
/// the order of [`TargetFault`].
pub fn read_target(alloc: Global, target: &[u8]) -> Result<Want, TargetFault>
    ensures value { IfOk result (λ want. want_in target.now ≡ Ok want) }
    ensures refused { IfErr result (λ fault. fault ≢ TargetFault.Memory → want_in target.now ≡ Err fault) }
    ensures memory { IsErrOf result TargetFault.Memory → IsOk (want_in target.now) }
{
    let Some((path, query)) = parts_of(target) else {
        return Err(TargetFault::BadTarget);
    };
    let Some((channel, rendition, what)) = names_in(path) else {
        return Err(TargetFault::NotFound);
    };
    let (awaited, skip) = directives_for(what, query)?;
    let channel = Text::from_str(alloc, channel)?;
    let rendition = Text::from_str(alloc, rendition)?;
    Ok(Want::of(channel, rendition, what, awaited, skip))
}

/// Returns what a request asks of the file `what` by its query: that of media isn't read.
fn directives_for(what: What, query: &str) -> Result<(Awaited, Option<SkipKind>), TargetFault>
    ensures value { result ≡ spec.directives_for what (parse query.now) }
    ensures not_memory { IfErr result (λ fault. fault ≢ TargetFault.Memory) }
{
    match what {
        What::Playlist => read_query(query.as_bytes()),
        what => Ok((awaits(what), None)),
    }
}

/// Returns the name of the channel in a target that [`read_target`] accepts. It takes no memory, so that an unknown channel can be reported even when
/// out of memory.
pub fn named_channel(target: &[u8]) -> Option<&str>
    ensures { (want : spec.WantValue) → want_in target.now ≡ Ok want → MatchOption result ⊥ (λ name. name.now ≡ want.channel) }
{
    let (path, _) = parts_of(target)?;
    let (channel, _, _) = names_in(path)?;
    Some(channel)
}

/// Returns the path without its first slash, and the query, or `None` if the target hasn't the form of one.
fn parts_of(target: &[u8]) -> Option<(&str, &str)>
    ensures path { MatchOption result (spec.path_in target.now ≡ None) (λ parts. spec.path_in target.now ≡ Some parts.0.now) }
    ensures query { MatchOption result (spec.path_in target.now ≡ None) (λ parts. parts.1.now ≡ after_first spec.is_question target.now) }
{
    if !is_target_text(target) {
        return None;
    }
    let (front, query) = split(ascii_str(target), '?');
    Some((path_of(front)?, query))
}

/// Returns whether a target can have these bytes.
fn is_target_text(bytes: &[u8]) -> bool
    ensures { result ≡ list_all spec.is_target_byte bytes.now }
{
    bytes.iter().all(|b| is_target_byte(*b))
}

/// Returns whether a byte is 0x21 to 0x7E, but no `#`.
fn is_target_byte(b: u8) -> bool
    ensures { result ≡ spec.is_target_byte b }
{
    b.is_ascii_graphic() && b != b'#'
}
