//! The Multivariant Playlist of the channel with the record in a file.
use crate::commands::read_file;
use crate::failing::wrong_usage;
use ll_attr::{Text, cut};
use ll_command::{Fault, Topic, write_multivariant};
use ll_device::Writer;
use ll_multivariant::NamedSection;
use ll_reasons::Failure;
use std::alloc::AllocError;

/// Writes the Multivariant Playlist of the channel with the record in the file `record`, or how the record isn't right. Each of `words` is the
/// name of a rendition, `=` and the name of the file of its Media Initialization Section. Returns whether the record is right.
pub(crate) fn multivariant<W: Writer>(
    rt: &HostRuntime,
    record: &str,
    words: &[Text],
    out: &mut W,
) -> Result<bool, Failure> {
    let record = read_file(rt, record)?;
    let mut sources = Vec::new(rt.alloc());
    for word in words {
        let source = read_source(rt, word.as_str())?;
        if sources.push(source).is_err() {
            return Err(Failure::from(Fault::Memory));
        }
    }
    match write_multivariant(rt.alloc(), &record, &sources, out) {
        Ok(right) => Ok(right),
        Err(fault) => Err(named(rt, fault, words)),
    }
}

/// Returns the failure with `fault`, and the one of `words` that it is of, if it is of one.
fn named(rt: &HostRuntime, fault: Fault, words: &[Text]) -> Failure {
    let (Fault::NoRendition(number) | Fault::BadInit(number) | Fault::NoSegment(number)) = fault
    else {
        return Failure::from(fault);
    };
    match words.get(number.saturating_sub(1) as usize) {
        Some(word) => Failure::new(rt.alloc(), fault, word),
        None => Failure::from(fault),
    }
}

/// Reads the file that `word` names for a rendition. A word without `=` is wrong usage.
fn read_source(rt: &HostRuntime, word: &str) -> Result<NamedSection, Failure> {
    let Some((name, path)) = cut(word, '=') else {
        return Err(wrong_usage(
            rt.alloc(),
            format_args!("`{word}` has no `=` between a rendition's name and a file"),
            Topic::Multivariant,
        ));
    };
    let init = read_file(rt, path)?;
    match Text::from_str(rt.alloc(), name) {
        Ok(name) => Ok(NamedSection { name, init }),
        Err(AllocError) => Err(Failure::from(Fault::Memory)),
    }
}
