//! Playlists, as values of what their lines say.
ghost use Rattle.std.specs.Prelude.{◌≡◌, ◌≤◌, Some, MatchOption, length, map, slice_get};
ghost use Rattle.ll_read.specs.Ranges.{has_id, range_at};

use indexmap::IndexMap;
use ll_attr::Text;
use ll_line::DateRange;
use std::marker::Model;

/// An EXT-X-PART line (section 4.4.4.9).
pub struct PartLine {
    /// The duration of the part, in microseconds.
    pub duration: u64,
    pub uri: Text,
    pub independent: bool,
}

impl Drop for PartLine {
    fn drop(self) {
        let PartLine {
            duration: _,
            uri: _uri,
            independent: _,
        } = self;
    }
}

impl Model for PartLine {
    ghost use Rattle.ll_line.specs.Line.{PartLine};

    ghost Value = { PartLine };

    ghost view = { λ p. record { duration = p.duration; uri = p.uri; independent = p.independent } };
}

/// The lines of a segment before its EXTINF line.
pub struct Block {
    /// Whether the segment begins with a discontinuity (section 4.4.4.3).
    pub broken: bool,
    /// The URI of the Media Initialization Section in its EXT-X-MAP line, if it has one (section 4.4.4.5).
    pub map: Option<Text>,
    /// The time of its first sample (section 4.4.4.6).
    pub time: Text,
    pub parts: Vec<PartLine>,
}

impl Drop for Block {
    fn drop(self) {
        let Block {
            broken: _,
            map: _map,
            time: _time,
            parts: _parts,
        } = self;
    }
}

impl Model for Block {
    ghost use Rattle.ll_line.specs.Playlist.{Block};

    ghost Value = { Block };

    ghost view = { λ b. record { broken = b.broken; map = b.map; time = b.time; parts = b.parts.items } };
}

/// A segment with its EXTINF line and its URI.
pub struct Finished {
    pub block: Block,
    /// The duration of the segment, in microseconds (section 4.4.4.1).
    pub duration: u64,
    pub uri: Text,
}

impl Drop for Finished {
    fn drop(self) {
        let Finished {
            block: _block,
            duration: _,
            uri: _uri,
        } = self;
    }
}

impl Model for Finished {
    ghost use Rattle.ll_line.specs.Playlist.{Finished};

    ghost Value = { Finished };

    ghost view = { λ f. record { block = f.block; duration = f.duration; uri = f.uri } };
}

/// An EXT-X-SKIP line (section 4.4.5.2).
#[derive(Drop)]
pub struct Skip {
    /// The number of segments that it stands for.
    pub count: u64,
    /// The ids of recently removed date ranges, if it lists them.
    pub removed: Option<Vec<Text>>,
}

impl Model for Skip {
    ghost use Rattle.std.specs.Option.{option_map};
    ghost use Rattle.ll_line.specs.Line.{Skip};

    ghost Value = { Skip };

    ghost view = { λ s. record { count = s.count; removed = option_map (λ ids. ids.items) s.removed } };
}

/// The position of another rendition (EXT-X-RENDITION-REPORT, section 4.4.5.4).
pub struct Report {
    pub uri: Text,
    /// The Media Sequence Number of its last segment with a part.
    pub number: u64,
    /// The Part Index of that segment's last part.
    pub index: u64,
}

impl Drop for Report {
    fn drop(self) {
        let Report {
            uri: _uri,
            number: _,
            index: _,
        } = self;
    }
}

impl Model for Report {
    ghost use Rattle.ll_line.specs.Line.{Report};

    ghost Value = { Report };

    ghost view = { λ r. record { uri = r.uri; number = r.number; index = r.index } };
}

/// What stays the same while the stream goes on.
pub struct Header {
    /// The protocol version (section 4.4.1.2).
    pub version: u64,
    /// The target duration, in seconds (section 4.4.3.1).
    pub target: u64,
    /// The distance from the end that players keep, in microseconds (PART-HOLD-BACK, section 4.4.3.8).
    pub hold_back: u64,
    /// The Skip Boundary, in microseconds (CAN-SKIP-UNTIL, section 4.4.3.8).
    pub skip_until: u64,
    /// Whether a delta update can skip date ranges (section 4.4.3.8).
    pub skips_date_ranges: bool,
    /// The part target duration, in microseconds (section 4.4.3.7).
    pub part_target: u64,
}

impl Drop for Header {
    fn drop(self) {
        let Header {
            version: _,
            target: _,
            hold_back: _,
            skip_until: _,
            skips_date_ranges: _,
            part_target: _,
        } = self;
    }
}

impl Model for Header {
    ghost use Rattle.ll_line.specs.Playlist.{Header};

    ghost Value = { Header };

    ghost view = { λ h. record {
      version = h.version;
      target = h.target;
      hold_back = h.hold_back;
      skip_until = h.skip_until;
      skips_date_ranges = h.skips_date_ranges;
      part_target = h.part_target;
    } };
}

/// A Media Playlist or a Playlist Delta Update.
pub struct Playlist {
    pub header: Header,
    /// The Media Sequence Number of the first segment (section 4.4.3.2).
    pub sequence: u64,
    /// The Discontinuity Sequence Number (section 4.4.3.3).
    pub discontinuity: u64,
    pub(crate) ranges: IndexMap<String, Text>,
    /// The line that stands for the segments before those listed, in a delta update.
    pub skipped: Option<Skip>,
    pub segments: Vec<Finished>,
    /// The lines of the open segment, if it has a part.
    pub open_block: Option<Block>,
    pub reports: Vec<Report>,
    /// The URI of the next part (section 4.4.5.3), or `None` if the rendition has ended.
    pub hint: Option<Text>,
}

impl Drop for Playlist {
    fn drop(self) {
        let Playlist {
            header: _header,
            sequence: _,
            discontinuity: _,
            ranges: _ranges,
            skipped: _skipped,
            segments: _segments,
            open_block: _open_block,
            reports: _reports,
            hint: _hint,
        } = self;
    }
}

impl Model for Playlist {
    ghost use Rattle.std.specs.Prelude.{map};
    ghost use Rattle.ll_line.specs.Playlist.{Playlist};
    ghost use Rattle.ll_read.specs.Ranges.{range_at};

    ghost Value = { Playlist };

    ghost view = { λ p. record {
      header = p.header;
      sequence = p.sequence;
      discontinuity = p.discontinuity;
      ranges = map range_at p.ranges.entries;
      skipped = p.skipped;
      segments = p.segments.items;
      open_block = p.open_block;
      reports = p.reports.items;
      hint = p.hint;
    } };
}

impl Playlist {
    /// Returns how many date ranges are listed.
    pub fn ranges(&self) -> usize
        ensures { result ≡ length self.now.ranges }
    {
        self.ranges.len()
    }

    /// Returns the date range at `place`, from 0, or `None` after the last.
    pub fn range(&self, place: usize) -> Option<DateRange<'_>>
        ensures { MatchOption result (length self.now.ranges ≤ place)
            (λ r. slice_get self.now.ranges place ≡ Some (record { id = r.id.now; attributes = r.attributes.now })) }
    {
        let (id, attributes) = self.ranges.get_index(place)?;
        Some(DateRange {
            id: id.as_str(),
            attributes: attributes.as_str(),
        })
    }

    /// Returns whether a date range with this id is listed.
    pub fn has_range(&self, id: &str) -> bool
        ensures { result ≡ has_id id.now self.now.ranges }
    {
        has_key(&self.ranges, id)
    }
}

/// Returns whether one of the date ranges has this id.
fn has_key(ranges: &IndexMap<String, Text>, id: &str) -> bool
    ensures { result ≡ has_id id.now (map range_at ranges.now.entries) }
{
    ranges.contains_key(id)
}
