//! Writing of EXT-X-SKIP lines with a list of ids.
ghost use Rattle.std.specs.Prelude.{◌≡◌, ◌++◌, ◌∷◌, IfOk, OnOk, flat_map, string_bytes};
ghost use Rattle.std.specs.List.{join_with_byte};
ghost use Rattle.std.specs.Option.{option_map};
ghost use Rattle.ll_line.specs.Line as says;
ghost use Rattle.ll_line.specs.Text.{line_text};

use crate::line::{Line, Skip};
use crate::writing::push_line;
use ll_attr::Text;
use std::alloc::{AllocError, Global};

/// Appends the EXT-X-SKIP line (section 4.4.5.2) that skips `count` segments. `removed` are the ids of its RECENTLY-REMOVED-DATERANGES,
/// or `None` for a line without.
#[tactic(auto, using(crate::proofs::SkipLemmas::ids_told))]
pub fn push_skip(
    alloc: Global,
    text: &mut String,
    count: u64,
    removed: Option<&[Text]>,
) -> Result<(), AllocError>
    ensures { OnOk result (string_bytes text.new ≡ string_bytes text.old
        ++ line_text (says.Skipped (record { count = count; removed = option_map (λ ids. ids.now) removed.entry }))) }
{
    match removed {
        Some(ids) => {
            let ids = joined(alloc, ids)?;
            let removed = Some(ids.as_str());
            push_line(text, &Line::Skipped(Skip { count, removed }))
        }
        None => {
            let removed = None;
            push_line(text, &Line::Skipped(Skip { count, removed }))
        }
    }
}

/// Returns `ids` separated by tabs.
fn joined(alloc: Global, ids: &[Text]) -> Result<Text, AllocError>
    ensures { IfOk result (λ text. text ≡ join_with_byte 9 ids.now) }
{
    let mut text = String::new(alloc);
    push_ids(&mut text, ids)?;
    Ok(Text::from_string(text))
}

/// Appends `ids` separated by tabs.
fn push_ids(text: &mut String, ids: &[Text]) -> Result<(), AllocError>
    ensures { OnOk result (string_bytes text.new ≡ string_bytes text.old ++ join_with_byte 9 ids.now) }
{
    match ids.split_first() {
        Some((first, more)) => {
            text.push_str(first.as_str())?;
            push_after_tabs(text, more)
        }
        None => Ok(()),
    }
}

/// Appends `ids` with a tab before each.
fn push_after_tabs(text: &mut String, ids: &[Text]) -> Result<(), AllocError>
    ensures { OnOk result (string_bytes text.new ≡ string_bytes text.old ++ flat_map (λ id. 9 ∷ id) ids.now) }
{
    for id in ids {
        text.push('\t')?;
        text.push_str(id.as_str())?;
    }
    Ok(())
}
