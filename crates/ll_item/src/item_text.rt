//! Writing of item lines.
ghost use Rattle.std.specs.Prelude.{◌≡◌, ◌≢◌, ◌++◌, [], Ok, OnOk, Some, string_bytes};
ghost use Rattle.ll_attr.specs.Attributes.{attributes_in, spelling};
ghost use Rattle.ll_item.specs.Items.{flags_text};
ghost use Rattle.ll_item.specs.ItemLines as spec;
ghost use Rattle.ll_item.specs.ItemLines.{HasAttributes, IsTyped, item_line, line_text, published_line};

use crate::item::{Item, PartItem};
use ll_attr::AttrList;
use ll_settings::Settings;
use std::alloc::AllocError;
use std::fmt;

/// The line of an item, without the number of its bytes: [`Item::read`] reads what this displays.
#[derive(Clone, Copy)]
pub enum ItemLine<'a> {
    /// `part RENDITION MICROSECONDS FLAGS`
    Part {
        /// The rendition's name.
        rendition: &'a str,
        /// The duration in microseconds.
        duration: u64,
        /// Whether the part can be played without one before it.
        independent: bool,
        /// Whether the part is the last of its segment.
        finish: bool,
    },
    /// `init RENDITION`
    Init {
        /// The rendition's name.
        rendition: &'a str,
    },
    /// `finish RENDITION`
    Finish {
        /// The rendition's name.
        rendition: &'a str,
    },
    /// `break RENDITION`, or `break RENDITION MILLISECONDS`
    Break {
        /// The rendition's name.
        rendition: &'a str,
        /// The time at which the next segment begins, if the break sets one: milliseconds since 1970-01-01T00:00:00Z.
        time: Option<u64>,
    },
    /// `end RENDITION`
    End {
        /// The rendition's name.
        rendition: &'a str,
    },
    /// `range RENDITION ID="ID",ATTRIBUTES`
    Range {
        /// The rendition's name.
        rendition: &'a str,
        /// The ID, without quotation marks.
        id: &'a str,
        /// The text of the other attributes, empty if there are none.
        attributes: &'a str,
    },
    /// `unrange RENDITION ID`
    Unrange {
        /// The rendition's name.
        rendition: &'a str,
        /// The ID.
        id: &'a str,
    },
}

#[tactic(auto, unfolding(crate::specs::ItemLines::part_line, crate::specs::ItemLines::init_line, crate::specs::ItemLines::finish_line, crate::specs::ItemLines::break_line, crate::specs::ItemLines::timed_break_line, crate::specs::ItemLines::end_line, crate::specs::ItemLines::range_line, crate::specs::ItemLines::unrange_line))]
impl fmt::Display for ItemLine<'_> {
    ghost output = { λ line. Some (line_text line) };

    fn fmt<W: fmt::Write>(&self, f: &mut fmt::Formatter<W>) -> fmt::Result {
        match *self {
            ItemLine::Part {
                rendition,
                duration,
                independent,
                finish,
            } => {
                let flags = flags_text(independent, finish);
                write!(f, "part {rendition} {duration} {flags}")
            }
            ItemLine::Init { rendition } => write!(f, "init {rendition}"),
            ItemLine::Finish { rendition } => write!(f, "finish {rendition}"),
            ItemLine::Break {
                rendition,
                time: None,
            } => write!(f, "break {rendition}"),
            ItemLine::Break {
                rendition,
                time: Some(ms),
            } => write!(f, "break {rendition} {ms}"),
            ItemLine::End { rendition } => write!(f, "end {rendition}"),
            ItemLine::Range {
                rendition,
                id,
                attributes,
            } => {
                let comma = comma_before(attributes);
                write!(f, "range {rendition} ID=\"{id}\"{comma}{attributes}")
            }
            ItemLine::Unrange { rendition, id } => write!(f, "unrange {rendition} {id}"),
        }
    }
}

/// Returns the flags of a part.
fn flags_text(independent: bool, finish: bool) -> &'static str
    ensures { result.now ≡ flags_text independent finish }
{
    match (independent, finish) {
        (false, false) => "-",
        (true, false) => "i",
        (false, true) => "f",
        (true, true) => "if",
    }
}

/// Returns the comma that separates the ID of a date range from the text of its other `attributes`, empty if there are none.
fn comma_before(attributes: &str) -> &'static str
    ensures { result.now ++ attributes.now ≡ spec.after_comma attributes.now }
{
    if attributes.is_empty() { "" } else { "," }
}

impl Item {
    /// Appends the line that spells the item in a channel of `settings`, without the number of its bytes.
    pub fn push_line(&self, settings: &Settings, text: &mut String) -> Result<(), AllocError>
        ensures line { OnOk result (string_bytes text.new ≡ string_bytes text.old ++ item_line settings.now self.now) }
        ensures spelled { OnOk result (HasAttributes self.now) }
    {
        let rendition = rendition_name(settings, self.rendition());
        let line = match self {
            Item::Part(part) => part_line(rendition, part),
            Item::Init { .. } => ItemLine::Init { rendition },
            Item::Finish { .. } => ItemLine::Finish { rendition },
            Item::Break { time, .. } => ItemLine::Break {
                rendition,
                time: *time,
            },
            Item::End { .. } => ItemLine::End { rendition },
            Item::Unrange { id, .. } => ItemLine::Unrange {
                rendition,
                id: id.as_str(),
            },
            Item::Range { id, attributes, .. } => return push_range(
                text,
                rendition,
                id.as_str(),
                attributes,
            ),
        };
        push(text, line)
    }

    /// Appends the line that announces the item in a channel of `settings`. That of a part or an initialization section ends with the number
    /// of its bytes.
    pub fn push_published_line(
        &self,
        settings: &Settings,
        text: &mut String,
    ) -> Result<(), AllocError>
        ensures line { OnOk result (string_bytes text.new ≡ string_bytes text.old ++ published_line settings.now self.now) }
        ensures spelled { OnOk result (IsTyped self.now) }
    {
        self.push_line(settings, text)?;
        match self {
            Item::Part(PartItem { media, .. }) | Item::Init { media, .. } => {
                let length = media.len();
                write!(text, " {length}")
            }
            Item::Finish { .. }
            | Item::Break { .. }
            | Item::End { .. }
            | Item::Range { .. }
            | Item::Unrange { .. } => Ok(()),
        }
    }
}

/// Returns the line of `part` in the rendition called `rendition`.
fn part_line<'a>(rendition: &'a str, part: &PartItem) -> ItemLine<'a>
    ensures { line_text result ≡ spec.part_line rendition.now part.now.duration (flags_text part.now.independent part.now.finish) }
{
    ItemLine::Part {
        rendition,
        duration: part.duration,
        independent: part.independent,
        finish: part.finish,
    }
}

/// Appends the line of a date range of the rendition called `rendition`.
fn push_range(
    text: &mut String,
    rendition: &str,
    id: &str,
    attributes: &AttrList,
) -> Result<(), AllocError>
    ensures line { OnOk result (string_bytes text.new ≡ string_bytes text.old
        ++ spec.range_line rendition.now (spelling (spec.with_id id.now attributes.now))) }
    ensures spelled { OnOk result (attributes.now ≢ [] → attributes_in (spelling attributes.now) ≡ Ok attributes.now) }
{
    let attributes = attributes.write()?;
    push(
        text,
        ItemLine::Range {
            rendition,
            id,
            attributes: attributes.as_str(),
        },
    )?;
    Ok(())
}

/// Appends `line`.
fn push(text: &mut String, line: ItemLine<'_>) -> Result<(), AllocError>
    ensures { OnOk result (string_bytes text.new ≡ string_bytes text.old ++ line_text line.entry) }
{
    write!(text, "{line}")
}

/// Returns the name of the rendition with the index `rendition`, empty if there is none.
fn rendition_name(settings: &Settings, rendition: usize) -> &str
    ensures { result.now ≡ spec.name_of settings.now rendition }
{
    match settings.renditions().get(rendition) {
        Some(name) => name.as_str(),
        None => "",
    }
}
