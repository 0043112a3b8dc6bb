//! How settings are written.
ghost use Rattle.std.specs.Prelude.{◌≡◌, ◌++◌, ◌∷◌, IfOk, OnOk, codes, decimal, flat_map, string_bytes};
ghost use Rattle.ll_entry.specs.SettingsLine.{names_text, settings_line};

use ll_attr::Text;
use ll_settings::Settings;
use std::alloc::{AllocError, Global};

/// Returns the line that spells `settings`.
#[tactic(auto, unfolding(crate::specs::SettingsLine::settings_line))]
pub fn settings_text(alloc: Global, settings: &Settings) -> Result<String, AllocError>
    ensures { IfOk result (λ text. string_bytes text ≡ settings_line settings.now) }
{
    let names = joined_names(alloc, settings.renditions())?;
    let end = end_text(
        alloc,
        settings.window(),
        names.as_str(),
        settings.first(),
        settings.start(),
    )?;
    let (target, part, skip) = (settings.target(), settings.part_target(), settings.skip());
    whole_text(alloc, settings.channel(), target, part, skip, end.as_str())
}

/// Returns a settings line with these fields up to the window, and with `end` after them.
fn whole_text(
    alloc: Global,
    channel: &str,
    target: u64,
    part: u64,
    skip: u64,
    end: &str,
) -> Result<String, AllocError>
    ensures { IfOk result (λ text. string_bytes text ≡ codes "channel " ++ (channel.now ++ (codes " target=" ++ (decimal target
        ++ (codes " part=" ++ (decimal part ++ (codes " skip=" ++ (decimal skip ++ end.now)))))))) }
{
    format!(in alloc; "channel {channel} target={target} part={part} skip={skip}{end}")
}

/// Returns the end of a settings line, from the window on.
fn end_text(
    alloc: Global,
    window: u64,
    names: &str,
    first: u64,
    start: u64,
) -> Result<String, AllocError>
    ensures { IfOk result (λ text. string_bytes text ≡ codes " window=" ++ (decimal window ++ (codes " renditions=" ++ (names.now
        ++ (codes " first=" ++ (decimal first ++ (codes " start=" ++ decimal start))))))) }
{
    format!(in alloc; " window={window} renditions={names} first={first} start={start}")
}

/// Returns `names`, joined by commas.
fn joined_names(alloc: Global, names: &[Text]) -> Result<Text, AllocError>
    ensures { IfOk result (λ text. text ≡ names_text names.now) }
{
    let mut text = String::new(alloc);
    if let Some((first, more)) = names.split_first() {
        text.push_str(first.as_str())?;
        push_after_commas(&mut text, more)?;
    }
    Ok(Text::from_string(text))
}

/// Appends `names` to `text`, with a comma before each.
fn push_after_commas(text: &mut String, names: &[Text]) -> Result<(), AllocError>
    ensures { OnOk result (string_bytes text.new ≡ string_bytes text.old ++ flat_map (λ name. 44 ∷ name) names.now) }
{
    for name in names {
        text.push(',')?;
        text.push_str(name.as_str())?;
    }
    Ok(())
}
