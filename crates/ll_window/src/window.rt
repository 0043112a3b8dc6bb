//! What is kept of the segments and parts of one rendition, and the rules that refuse its next item.
ghost use Rattle.std.specs.Prelude.{◌≡◌, ◌≢◌, ◌≤◌, ◌+◌, ◌-◌, ◌++◌, ◌∷◌, [], List, IfOk, IfErr, IfSome, MatchResult, OnOk, OnErr, IsErrOf, None, Some, length, nat_lt, true};
ghost use Rattle.std.specs.Arc.{arc_value};
ghost use Rattle.std.specs.Option.{option_map};
ghost use Rattle.ll_item.specs.declared.item.Item.{Item};
ghost use Rattle.ll_attr.specs.YearEnd.{last_micro};
ghost use Rattle.ll_window.specs.Compact.{next_start, compact, opens_by, first_map, map_now, unfinished};
ghost use Rattle.ll_window.specs.Compact as kept;
ghost use Rattle.ll_window.specs.Refusal.{refusal, refusal_after, part_refusal, break_refusal, finish_refusal, time_refusal};
ghost use Rattle.ll_window.specs.Segments.{duration};
ghost use Rattle.ll_window.specs.Step.{relisted, with_item, with_part, with_part_by, with_break, with_end, with_finish};
ghost use Rattle.ll_window.specs.Step as step;
ghost use Rattle.ll_window.specs.declared.fault.PushError.TheVariants as error;
ghost use Rattle.ll_window.specs.Window.{segment_at, parts_at};

use crate::fault::{PushError, WindowFault};
use crate::finished::Finished;
use crate::part_position::PartPosition;
use crate::progress::{Progress, one_if};
use crate::segment::Segment;
use ll_item::{Item, Part};
use ll_settings::Settings;
use std::alloc::{AllocError, Global};
use std::marker::Model;
use std::sync::Arc;

/// The largest Media Sequence Number.
const LAST_NUMBER: u64 = 1 << 60;

/// The last microsecond of the year 9999, counted from 1970-01-01T00:00:00Z.
const LAST_MICRO: u64 = 253_402_300_799_999_999;

/// What is kept of the segments and parts of one rendition: the finished segments that a full playlist shows, and the parts of
/// the open one. A segment leaves once those after it last at least as long as the settings say (section 6.2.2).
pub struct Window {
    alloc: Global,
    settings: Arc<Settings>,
    finished: Finished,
    open_parts: Vec<Part>,
    progress: Progress,
}

impl Drop for Window {
    fn drop(self) {
        let Window {
            alloc: _,
            settings: _settings,
            finished: _finished,
            open_parts: _open_parts,
            progress: _,
        } = self;
    }
}

impl Model for Window {
    ghost use Rattle.std.specs.Arc.{arc_value};
    ghost use Rattle.ll_window.specs.Compact.{Compact};
    ghost use Rattle.ll_window.specs.Kept.{IsKept};

    ghost Value = { Compact };

    ghost view = { λ w. record {
      settings = arc_value w.settings;
      window = w.finished.rows.items;
      open_parts = w.open_parts.items;
      next_number = w.progress.next_number;
      maps = w.progress.maps;
      open_time = w.progress.open_time;
      end_time = w.progress.end_time;
      pending = w.progress.pending;
      restart = w.progress.restart;
      discontinuity = w.finished.discontinuity;
      last = w.progress.last;
      ended = w.progress.ended;
    } };

    ghost invariant = { λ w. IsKept (arc_value w.settings) w.finished w.open_parts.items w.progress };
}

impl Window {
    /// Returns the window before the first item, with a copy of `settings`.
    pub fn new(alloc: Global, settings: &Settings) -> Result<Window, AllocError>
        ensures { IfOk result (λ w. w ≡ compact settings.now []) }
    {
        Ok(Window::of(alloc, Arc::new(alloc, settings.copy(alloc)?)?))
    }

    /// Returns the window before the first item, with `settings`, which its copies share.
    pub fn of(alloc: Global, settings: Arc<Settings>) -> Window
        ensures { result ≡ compact (arc_value settings) [] }
    {
        let progress = Progress {
            next_number: settings.first(),
            maps: 0,
            open_time: settings.start() * 1_000,
            open_duration: 0,
            end_time: 0,
            pending: false,
            restart: None,
            last: None,
            ended: false,
        };
        Window {
            alloc,
            settings,
            finished: Finished::new(alloc),
            open_parts: Vec::new(alloc),
            progress,
        }
    }

    /// Adds the next item of the rendition. Which rendition `item` names isn't looked at. An initialization section, a date range and
    /// a removal change nothing here, and are refused only after the end. Fails with `Refused` and the first rule that refuses the item,
    /// or with `Memory`. Nothing changes then.
    pub fn push(&mut self, item: Item) -> Result<(), PushError>
        ensures accepted { (items : List Item) → self.old ≡ compact self.old.settings items
            → OnOk result ((refusal self.old.settings items item ≡ None)
            × (self.new ≡ compact self.old.settings (items ++ item ∷ []))) }
        ensures refused { (items : List Item) → self.old ≡ compact self.old.settings items
            → IfErr result (λ e. e ≢ PushError.Memory → option_map error.Refused (refusal self.old.settings items item) ≡ Some e) }
        ensures memory { (items : List Item) → self.old ≡ compact self.old.settings items
            → IsErrOf result PushError.Memory → refusal self.old.settings items item ≡ None }
        ensures unchanged { OnErr result (self.new ≡ self.old) }
    {
        if let Some(fault) = self.fault(&item) {
            return Err(PushError::Refused(fault));
        }
        match self.accept(item) {
            Ok(()) => Ok(()),
            Err(AllocError) => Err(PushError::Memory),
        }
    }

    /// Returns the first rule that refuses `item` as the next one.
    pub fn test(&self, item: &Item) -> Result<(), WindowFault>
        ensures first { (items : List Item) → self.now ≡ compact self.now.settings items
            → MatchResult result (λ _. refusal self.now.settings items item.now ≡ None) (λ f. refusal self.now.settings items item.now ≡ Some f) }
        ensures by_window { MatchResult result (λ _. refusal_after self.now item.now ≡ None) (λ f. refusal_after self.now item.now ≡ Some f) }
    {
        match self.fault(item) {
            Some(fault) => Err(fault),
            None => Ok(()),
        }
    }

    /// Returns the number of finished segments that a full playlist shows.
    pub fn segment_count(&self) -> usize
        ensures { result ≡ length self.now.window }
    {
        self.finished.rows.len()
    }

    /// Returns the finished segment at `place`, from 0 for the first that a full playlist shows, or `None` after the last.
    #[tactic(auto, using(crate::proofs::ReaderLemmas::ends_before))]
    pub fn segment(&self, place: usize) -> Option<Segment>
        ensures value { result ≡ segment_at self.now.window place }
        ensures time { IfSome result (λ s. s.time ≤ last_micro) }
    {
        match self.finished.row(place) {
            Some(kept) => Some(kept.segment),
            None => None,
        }
    }

    /// Returns the parts that a playlist lists of the finished segment at `place`: all of them while the parts after it last
    /// less than three target durations, and then none (section 4.4.4.9). After the last segment there are none either.
    pub fn shown_parts(&self, place: usize) -> &[Part]
        ensures { result.now ≡ parts_at self.now.window place }
    {
        match self.finished.row(place) {
            Some(kept) => kept.parts(),
            None => &[],
        }
    }

    /// Returns the open segment, if there is one.
    pub fn open_segment(&self) -> Option<Segment>
        ensures value { result ≡ option_map (λ r. r.segment) (unfinished self.now) }
        ensures time { IfSome result (λ s. s.time ≤ last_micro) }
    {
        if self.open_parts.is_empty() {
            None
        } else {
            Some(self.progress.segment(self.open_parts.as_slice()))
        }
    }

    /// Returns the parts of the open segment, none if no segment is open.
    pub fn open_parts(&self) -> &[Part]
        ensures { result.now ≡ self.now.open_parts }
    {
        self.open_parts.as_slice()
    }

    /// Returns the number of the Media Initialization Section of the segment that the next part belongs to: how many segments are broken so far,
    /// and one more if a break came after the last part (EXT-X-MAP, section 4.4.4.5).
    pub fn map_number(&self) -> u64
        ensures { result ≡ map_now self.now }
    {
        self.progress.map_number(self.open_parts.as_slice())
    }

    /// Returns the number of the Media Initialization Section in force at the first segment that a full playlist shows, or if none, at the next one.
    pub fn first_map_number(&self) -> u64
        ensures { result ≡ first_map self.now }
    {
        let broken = match self.finished.row(0) {
            Some(kept) => kept.segment.broken,
            None => self.progress.breaks(self.open_parts.as_slice()),
        };
        self.finished.discontinuity + one_if(broken)
    }

    /// Returns the Media Sequence Number of the open segment, or of the next one if none is open (section 4.4.3.2).
    pub fn next_number(&self) -> u64
        ensures { result ≡ self.now.next_number }
    {
        self.progress.next_number
    }

    /// Returns how many broken segments have left the window (EXT-X-DISCONTINUITY-SEQUENCE, section 4.4.3.3).
    pub fn discontinuity(&self) -> u64
        ensures { result ≡ self.now.discontinuity }
    {
        self.finished.discontinuity
    }

    /// Returns how many segments of the window a delta update skips: those with more than the Skip Boundary after them (section 6.2.5.1).
    pub fn skip_count(&self) -> usize
        ensures { result ≡ kept.skip_count self.now }
    {
        let limit = self.settings.skip() * 1_000_000;
        self.finished.skip_count(limit, self.progress.open_duration)
    }

    /// Returns the position of the last part, whose segment is finished or open, or `None` before the first part.
    pub fn last(&self) -> Option<PartPosition>
        ensures { result ≡ self.now.last }
    {
        self.progress.last
    }

    /// Returns whether the rendition has ended (EXT-X-ENDLIST, section 4.4.3.4).
    pub fn ended(&self) -> bool
        ensures { result ≡ self.now.ended }
    {
        self.progress.ended
    }

    /// Returns the duration of all parts together, in microseconds, including those that playlists no longer show.
    pub fn end_time(&self) -> u64
        ensures { result ≡ self.now.end_time }
    {
        self.progress.end_time
    }

    /// Copies the window. The copy shares its settings and the parts of its finished segments.
    pub fn copy(&self) -> Result<Window, AllocError>
        ensures { IfOk result (λ w. w ≡ self.now) }
    {
        Ok(Window {
            alloc: self.alloc,
            settings: Arc::try_clone(&self.settings)?,
            finished: self.finished.copy()?,
            open_parts: self.open_parts.clone()?,
            progress: self.progress,
        })
    }

    /// Returns the settings of the channel.
    pub(crate) fn settings(&self) -> &Settings
        ensures { result.now ≡ self.now.settings }
    {
        &self.settings
    }

    /// Returns the first rule that refuses `item`.
    fn fault(&self, item: &Item) -> Option<WindowFault>
        ensures { result ≡ refusal_after self.now item.now }
    {
        if self.progress.ended {
            return Some(WindowFault::Ended);
        }
        match item {
            Item::Init { .. } | Item::End { .. } | Item::Range { .. } | Item::Unrange { .. } =>
                None,
            Item::Part(part) => self.part_fault(part.duration),
            Item::Finish { .. } if self.open_parts.is_empty() => Some(WindowFault::NoSegment),
            Item::Finish { .. } => None,
            Item::Break { time, .. } if self.open_parts.is_empty() => self.time_fault(*time),
            Item::Break { .. } => Some(WindowFault::OpenSegment),
        }
    }

    /// Returns the rule that refuses a break between segments which sets `time`, in milliseconds since 1970-01-01T00:00:00Z.
    fn time_fault(&self, time: Option<u64>) -> Option<WindowFault>
        ensures { result ≡ time_refusal (next_start self.now) time }
    {
        match time {
            Some(ms) if ms.saturating_mul(1_000) < self.next_start() => Some(WindowFault::TimeBack),
            Some(ms) if LAST_MICRO < ms.saturating_mul(1_000) => Some(WindowFault::TimeEnd),
            _ => None,
        }
    }

    /// Returns when the next part begins, in microseconds since 1970-01-01T00:00:00Z: when the last one ends, or at the time that a break after it set.
    pub fn next_start(&self) -> u64
        ensures value { result ≡ next_start self.now }
        ensures time { result ≤ last_micro }
    {
        match self.progress.restart {
            Some(ms) if self.open_parts.is_empty() => ms * 1_000,
            _ => self.progress.open_time + self.progress.open_duration,
        }
    }

    /// Returns when the segment of the next part begins, in microseconds since 1970-01-01T00:00:00Z.
    fn begun(&self) -> u64
        ensures { result ≡ opens_by self.now.open_parts self.now.restart self.now.open_time }
    {
        match self.progress.restart {
            Some(ms) if self.open_parts.is_empty() => ms * 1_000,
            _ => self.progress.open_time,
        }
    }

    /// Returns the first rule that refuses a part of `micros` microseconds.
    fn part_fault(&self, micros: u64) -> Option<WindowFault>
        ensures { result ≡ part_refusal self.now.settings self.now.next_number (duration self.now.open_parts) (next_start self.now) micros }
    {
        let (part_target, target) = (self.settings.part_target(), self.settings.target());
        if micros == 0 {
            Some(WindowFault::BadDuration)
        } else if part_target < micros
            || target < (self.progress.open_duration + micros + 500_000) / 1_000_000
        {
            Some(WindowFault::TooLong)
        } else if LAST_NUMBER < self.progress.next_number {
            Some(WindowFault::CountEnd)
        } else if LAST_MICRO < self.next_start() + micros {
            Some(WindowFault::TimeEnd)
        } else {
            None
        }
    }

    /// Adds an item that `test` lets through. If memory runs out, nothing changes.
    pub fn accept(&mut self, item: Item) -> Result<(), AllocError>
        requires { refusal_after self.old item ≡ None }
        ensures accepted { (items : List Item) → self.old ≡ compact self.old.settings items → OnOk result (self.new ≡ compact self.old.settings (items ++ item ∷ [])) }
        ensures unchanged { OnErr result (self.new ≡ self.old) }
    {
        self.add(item)?;
        Ok(())
    }

    /// Adds an item that no rule refuses.
    fn add(&mut self, item: Item) -> Result<(), AllocError>
        requires { refusal_after self.old item ≡ None }
        ensures ok { OnOk result (self.new ≡ with_item self.old item) }
        ensures err { OnErr result (self.new ≡ self.old) }
    {
        match &item {
            Item::Part(part) => self.add_part(Part {
                duration: part.duration,
                independent: part.independent,
                finish: part.finish,
                after_break: self.progress.pending,
                restart: self.progress.restart,
            })?,
            Item::Finish { .. } => self.finish_open()?,
            Item::Break { time, .. } => self.add_break(*time),
            Item::End { .. } => self.end()?,
            Item::Init { .. } | Item::Range { .. } | Item::Unrange { .. } => {}
        }
        Ok(())
    }

    /// Adds a part that no rule refuses.
    fn add_part(&mut self, part: Part) -> Result<(), AllocError>
        requires { part_refusal self.old.settings self.old.next_number (duration self.old.open_parts) (next_start self.old) part.duration ≡ None }
        ensures ok { OnOk result (self.new ≡ with_part self.old part) }
        ensures err { OnErr result (self.new ≡ self.old) }
    {
        if part.finish {
            self.finish(part)?;
        } else {
            let (begun, place) = (self.begun(), self.next_place());
            self.open_parts.push(part)?;
            self.progress = self.progress.with_part(begun, part.duration, place);
            self.hide();
        }
        Ok(())
    }

    /// Adds a part that no rule refuses and that is the last of its segment.
    fn finish(&mut self, part: Part) -> Result<(), AllocError>
        requires { part_refusal self.old.settings self.old.next_number (duration self.old.open_parts) (next_start self.old) part.duration ≡ None }
        ensures ok { OnOk result (self.new ≡ with_part_by true self.old part) }
        ensures err { OnErr result (self.new ≡ self.old) }
    {
        let least = self.settings.window() * 1_000_000;
        let progress = self
            .progress
            .with_part(self.begun(), part.duration, self.next_place());
        self.open_parts.push(part)?;
        let parts = &mut self.open_parts;
        match self.finished.finish(self.alloc, least, progress, parts) {
            Ok(segment) => {
                self.progress = progress.after(segment);
                self.hide();
                Ok(())
            }
            Err(AllocError) => {
                self.open_parts.pop();
                Err(AllocError)
            }
        }
    }

    /// Adds a break that no rule refuses.
    fn add_break(&mut self, time: Option<u64>)
        requires { break_refusal self.old.open_parts (next_start self.old) time ≡ None }
        ensures { self.new ≡ with_break self.old time }
    {
        self.progress.pending = true;
        if time.is_some() {
            self.progress.restart = time;
        }
    }

    /// Finishes the open segment with its last part.
    fn finish_open(&mut self) -> Result<(), AllocError>
        requires { finish_refusal self.old.open_parts ≡ None }
        ensures ok { OnOk result (self.new ≡ with_finish self.old) }
        ensures err { OnErr result (self.new ≡ self.old) }
    {
        let least = self.settings.window() * 1_000_000;
        let progress = self.progress;
        let parts = &mut self.open_parts;
        let Some(last) = parts.pop() else {
            unreachable!();
        };
        parts.push_reserved(Part {
            finish: true,
            ..last
        });
        match self.finished.finish(self.alloc, least, progress, parts) {
            Ok(segment) => {
                self.progress = progress.after(segment);
                self.hide();
                Ok(())
            }
            Err(AllocError) => {
                parts.pop();
                parts.push_reserved(last);
                Err(AllocError)
            }
        }
    }

    /// Ends the rendition, and finishes the open segment if there is one.
    fn end(&mut self) -> Result<(), AllocError>
        ensures ok { OnOk result (self.new ≡ with_end self.old) }
        ensures err { OnErr result (self.new ≡ self.old) }
    {
        if self.open_parts().is_empty() {
            self.progress.ended = true;
            return Ok(());
        }
        let least = self.settings.window() * 1_000_000;
        let mut progress = self.progress;
        progress.ended = true;
        let parts = &mut self.open_parts;
        let segment = self.finished.finish(self.alloc, least, progress, parts)?;
        self.progress = progress.after(segment);
        self.hide();
        Ok(())
    }

    /// Returns the position of the next part.
    fn next_place(&self) -> PartPosition
        ensures { result ≡ step.next_place self.now }
    {
        PartPosition {
            number: self.progress.next_number,
            index: self.open_parts.len() as u64,
        }
    }

    /// Drops the parts that playlists no longer list: those with three target durations or more of parts after their segment (section 4.4.4.9).
    fn hide(&mut self)
        ensures { self.new ≡ relisted self.old }
    {
        let near = 3 * (self.settings.target() * 1_000_000);
        self.finished.hide(near, self.progress.open_duration);
    }
}
