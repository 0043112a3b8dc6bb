//! A channel's spool while it is written.
ghost use Rattle.std.specs.Prelude.{◌≡◌, ◌+◌, ◌++◌, ◌∷◌, [], Err, IfErr, IfOk, List, OnErr, OnOk, Some, false, is_err, length, true, ℕ};
ghost use Rattle.std.specs.Io.KnownBytes.{Appends};
ghost use Rattle.std.specs.Option.{option_map};
ghost use Rattle.ll_device.specs.Written.{AppendsPrefix};
ghost use Rattle.ll_entry.specs.Leads.{with_end};
ghost use Rattle.ll_entry.specs.SettingsLine.{settings_line};
ghost use Rattle.ll_item.specs.Items.{media_of as bytes_of};
ghost use Rattle.ll_item.specs.declared.item.Item.{Item as ItemValue};
ghost use Rattle.ll_layout.specs.Held.{Each};
ghost use Rattle.ll_settings.specs.Settings.{Configuration};
ghost use Rattle.ll_spool.specs.Failures.{HasRisen};
ghost use Rattle.ll_spool.specs.Files.{AreCut, AreHeld, AreStored, IsCutIn, IsInside, cut_to};
ghost use Rattle.ll_spool.specs.Kept.{HasFailed, IsRefused};
ghost use Rattle.ll_spool.specs.Layouts.{layouts_after};
ghost use Rattle.ll_spool.specs.Restored.{IsWhole, begun_text};
ghost use Rattle.ll_spool.specs.Spooled.{spooled_line};

use crate::bytes::keep_bytes;
use crate::disk::{Disk, Lost};
use crate::fault::{KeepFault, NotKept};
use crate::line::push_line;
use crate::restoring::Restored;
use ll_entry::settings_text;
use ll_item::Item;
use ll_layout::{Layout, Side};
use ll_settings::Settings;
use std::alloc::Global;
use std::marker::Model;

/// A channel's spool while it is written. After the first item that isn't kept it keeps none, so that what it has is a prefix of what the
/// channel has accepted.
#[derive(Drop)]
pub struct Spool<D> {
    alloc: Global,
    settings: Settings,
    disk: D,
    /// Where the bytes of each rendition are.
    layouts: Vec<Layout>,
    /// The number of bytes of the text at the start: that of its whole lines.
    whole: u64,
    /// Whether an item wasn't kept.
    failed: bool,
}

/// A token: the channel's item of this number was kept. Only [`Spool::keep`] makes one.
#[derive(Drop)]
pub struct Kept {
    count: u64,
}

impl Model for Kept {
    ghost use Rattle.std.specs.Prelude.{ℕ};

    ghost Value = { ℕ };

    ghost view = { λ k. k.count };
}

impl<D: Disk> Spool<D> {
    /// Returns the spool of a channel of `settings` whose files are `disk`, and of which `restored` is known. It goes on after its items.
    pub fn new(alloc: Global, settings: Settings, disk: D, restored: Restored) -> Spool<D>
        ensures disk { result.disk ≡ disk }
        ensures layouts { result.layouts ≡ restored.layouts }
        ensures settings { result.settings ≡ settings }
        ensures whole { result.whole ≡ restored.whole }
        ensures going { result.failed ≡ false }
    {
        Spool {
            alloc,
            settings,
            disk,
            layouts: restored.layouts,
            whole: restored.whole,
            failed: false,
        }
    }

    /// Makes the files ready for the next item: cuts off what a stop has left of an item whose line isn't whole, and writes the settings
    /// line if there is none.
    ///
    /// # Errors
    ///
    /// `Lost` if a call of the disk fails; `Memory` without such a call.
    pub fn begin(&mut self) -> Result<(), KeepFault>
        ensures text { (text : List ℕ) → D.lines self.old.disk ≡ Some text → IsWhole text self.old.whole
            → OnOk result (D.lines self.new.disk ≡ Some (begun_text self.old.settings text)) }
        ensures held { (of : ℕ → List ℕ) → AreStored of self.old.layouts.items (D.files self.old.disk)
            → OnOk result (AreHeld of self.new.layouts.items (D.files self.new.disk)) }
        ensures settings { self.new.settings ≡ self.old.settings }
        ensures layouts { self.new.layouts ≡ self.old.layouts }
        ensures going { self.new.failed ≡ self.old.failed }
        ensures steady { OnOk result (D.failures self.new.disk ≡ D.failures self.old.disk) }
        ensures fault { IfErr result (HasFailed ⊥ (D.failures self.old.disk) (D.failures self.new.disk)) }
    {
        self.cut()?;
        if self.whole != 0 {
            return Ok(());
        }
        self.write_settings()?;
        Ok(())
    }

    /// Cuts off what a stop has left of an item whose line isn't whole.
    fn cut(&mut self) -> Result<(), Lost>
        ensures text { OnOk result (D.lines self.new.disk ≡ option_map (cut_to self.old.whole) (D.lines self.old.disk)) }
        ensures held { (of : ℕ → List ℕ) → AreStored of self.old.layouts.items (D.files self.old.disk)
            → OnOk result (AreHeld of self.new.layouts.items (D.files self.new.disk)) }
        ensures settings { self.new.settings ≡ self.old.settings }
        ensures layouts { self.new.layouts ≡ self.old.layouts }
        ensures whole { self.new.whole ≡ self.old.whole }
        ensures going { self.new.failed ≡ self.old.failed }
        ensures steady { OnOk result (D.failures self.new.disk ≡ D.failures self.old.disk) }
        ensures failed { OnErr result (HasRisen (D.failures self.old.disk) (D.failures self.new.disk)) }
    {
        self.disk.cut_text(self.whole)?;
        cut_sides(&mut self.disk, &self.layouts)?;
        Ok(())
    }

    /// Appends the settings line.
    fn write_settings(&mut self) -> Result<(), KeepFault>
        ensures text { OnOk result (Appends (D.lines self.old.disk) (D.lines self.new.disk) (with_end (settings_line self.old.settings))) }
        ensures files { D.files self.new.disk ≡ D.files self.old.disk }
        ensures settings { self.new.settings ≡ self.old.settings }
        ensures layouts { self.new.layouts ≡ self.old.layouts }
        ensures going { self.new.failed ≡ self.old.failed }
        ensures steady { OnOk result (D.failures self.new.disk ≡ D.failures self.old.disk) }
        ensures fault { IfErr result (HasFailed ⊥ (D.failures self.old.disk) (D.failures self.new.disk)) }
    {
        let mut line = settings_text(self.alloc, &self.settings)?;
        line.push('\n')?;
        self.disk.append_line(line.as_bytes())?;
        Ok(())
    }

    /// Returns the files.
    pub fn disk(&self) -> &D
        ensures { result.now ≡ self.now.disk }
    {
        &self.disk
    }

    /// Returns the settings of the channel.
    pub fn settings(&self) -> &Settings
        ensures { result.now ≡ self.now.settings }
    {
        &self.settings
    }

    /// Keeps `item`, which the channel has accepted as its item of the number `count`: first its bytes, then its line.
    ///
    /// # Errors
    ///
    /// `Earlier` once an item wasn't kept, and nothing changes then. Else `Lost` if a call of the disk fails, and without such a call `Memory`,
    /// or `Refused` if the item can't be kept. The lines of earlier items stay, and at most a prefix of the item's own follows them.
    #[tactic(auto, using(crate::proofs::LineLemmas::uncut))]
    pub fn keep(&mut self, count: u64, item: &Item) -> Result<Kept, NotKept>
        ensures kept { OnOk result (Appends (D.lines self.old.disk) (D.lines self.new.disk) (spooled_line self.old.settings count item.now)) }
        ensures cut { OnErr result (AppendsPrefix (D.lines self.old.disk) (D.lines self.new.disk) (spooled_line self.old.settings count item.now)) }
        ensures held { (of : ℕ → List ℕ) → AreHeld of self.old.layouts.items (D.files self.old.disk) → of count ≡ bytes_of item.now
            → OnOk result (AreHeld of self.new.layouts.items (D.files self.new.disk)) }
        ensures laid { (items : List ItemValue) → self.old.layouts.items ≡ layouts_after self.old.settings items → count ≡ length items + 1
            → OnOk result (self.new.layouts.items ≡ layouts_after self.old.settings (items ++ item.now ∷ [])) }
        ensures token { IfOk result (λ kept. kept ≡ count) }
        ensures settings { self.new.settings ≡ self.old.settings }
        ensures ended { self.old.failed ≡ true → (result ≡ Err KeepFault.Earlier) × (self.new ≡ self.old) }
        ensures fails { self.new.failed ≡ is_err result }
        ensures steady { OnOk result (D.failures self.new.disk ≡ D.failures self.old.disk) }
        ensures fault { self.old.failed ≡ false
            → IfErr result (HasFailed (IsRefused self.old.layouts.items item.now) (D.failures self.old.disk) (D.failures self.new.disk)) }
    {
        if self.failed {
            return Err(NotKept::new(KeepFault::Earlier));
        }
        match self.write(count, item) {
            Ok(kept) => Ok(kept),
            Err(fault) => {
                self.failed = true;
                Err(NotKept::new(fault))
            }
        }
    }

    /// Writes the bytes of `item`, the channel's item of the number `count`, and then its line.
    #[tactic(auto, using(crate::proofs::LineLemmas::uncut))]
    fn write(&mut self, count: u64, item: &Item) -> Result<Kept, KeepFault>
        ensures kept { OnOk result (Appends (D.lines self.old.disk) (D.lines self.new.disk) (spooled_line self.old.settings count item.now)) }
        ensures cut { OnErr result (AppendsPrefix (D.lines self.old.disk) (D.lines self.new.disk) (spooled_line self.old.settings count item.now)) }
        ensures held { (of : ℕ → List ℕ) → AreHeld of self.old.layouts.items (D.files self.old.disk) → of count ≡ bytes_of item.now
            → OnOk result (AreHeld of self.new.layouts.items (D.files self.new.disk)) }
        ensures laid { (items : List ItemValue) → self.old.layouts.items ≡ layouts_after self.old.settings items → count ≡ length items + 1
            → OnOk result (self.new.layouts.items ≡ layouts_after self.old.settings (items ++ item.now ∷ [])) }
        ensures token { IfOk result (λ kept. kept ≡ count) }
        ensures settings { self.new.settings ≡ self.old.settings }
        ensures going { self.new.failed ≡ self.old.failed }
        ensures steady { OnOk result (D.failures self.new.disk ≡ D.failures self.old.disk) }
        ensures failed { IfErr result (HasFailed (IsRefused self.old.layouts.items item.now) (D.failures self.old.disk) (D.failures self.new.disk)) }
    {
        keep_at(self.alloc, &mut self.disk, &mut self.layouts, count, item)?;
        let mut line = String::new(self.alloc);
        push_line(&self.settings, count, item, &mut line)?;
        self.disk.append_line(line.as_bytes())?;
        Ok(Kept { count })
    }
}

/// Writes the bytes of `item`, the channel's item of the number `count`, to the files of its rendition.
fn keep_at<D: Disk>(
    alloc: Global,
    disk: &mut D,
    layouts: &mut Vec<Layout>,
    count: u64,
    item: &Item,
) -> Result<(), KeepFault>
    ensures text { D.lines disk.new ≡ D.lines disk.old }
    ensures held { (of : ℕ → List ℕ) → AreHeld of layouts.old.items (D.files disk.old) → of count ≡ bytes_of item.now
        → OnOk result (AreHeld of layouts.new.items (D.files disk.new)) }
    ensures laid { (c : Configuration) (items : List ItemValue) → layouts.old.items ≡ layouts_after c items → count ≡ length items + 1
        → OnOk result (layouts.new.items ≡ layouts_after c (items ++ item.now ∷ [])) }
    ensures steady { OnOk result (D.failures disk.new ≡ D.failures disk.old) }
    ensures failed { IfErr result (HasFailed (IsRefused layouts.old.items item.now) (D.failures disk.old) (D.failures disk.new)) }
{
    let rendition = item.rendition();
    match layouts.get_mut(rendition) {
        Some(layout) => keep_bytes(alloc, disk, layout, rendition, count, item),
        None => Err(KeepFault::Refused),
    }
}

/// Cuts the files of each rendition to the bytes that `layouts` needs.
fn cut_sides<D: Disk>(disk: &mut D, layouts: &[Layout]) -> Result<(), Lost>
    ensures text { D.lines disk.new ≡ D.lines disk.old }
    ensures cut { OnOk result (AreCut layouts.now (D.files disk.old) (D.files disk.new)) }
    ensures inside { OnOk result (Each IsInside layouts.now) }
    ensures steady { OnOk result (D.failures disk.new ≡ D.failures disk.old) }
    ensures failed { OnErr result (HasRisen (D.failures disk.old) (D.failures disk.new)) }
{
    for (rendition, layout) in layouts.iter().enumerate() {
        cut_both(disk, rendition, layout)?;
    }
    Ok(())
}

/// Cuts the files of `rendition`, whose layout is `layout`, to the bytes that it needs.
fn cut_both<D: Disk>(disk: &mut D, rendition: usize, layout: &Layout) -> Result<(), Lost>
    ensures text { D.lines disk.new ≡ D.lines disk.old }
    ensures cut { OnOk result (IsCutIn rendition layout.now (D.files disk.old) (D.files disk.new)) }
    ensures inside { OnOk result (IsInside layout.now) }
    ensures steady { OnOk result (D.failures disk.new ≡ D.failures disk.old) }
    ensures failed { OnErr result (HasRisen (D.failures disk.old) (D.failures disk.new)) }
{
    disk.cut(rendition, Side::A, layout.size(Side::A))?;
    disk.cut(rendition, Side::B, layout.size(Side::B))?;
    Ok(())
}
