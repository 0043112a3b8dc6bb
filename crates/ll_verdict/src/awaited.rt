//! What a request awaits of a rendition (blocking playlist reload, section 6.2.5.2).
ghost use Rattle.std.specs.Prelude.{◌≡◌, ◌||◌, List};
ghost use Rattle.ll_item.specs.declared.item.Item.{Item};
ghost use Rattle.ll_verdict.specs.Verdict as verdict;
ghost use Rattle.ll_window.specs.Compact.{compact};
ghost use Rattle.ll_window.specs.Segments.{ended};

use ll_directive::Awaited;
use ll_window::Window;

/// Returns whether what is awaited of a rendition is there, or the rendition has ended. `window` is that of the rendition.
pub fn is_there(window: &Window, awaited: Awaited) -> bool
    ensures { (items : List Item) → window.now ≡ compact window.now.settings items
        → result ≡ (verdict.holds window.now.settings items awaited || ended items) }
{
    holds(window, awaited) || window.ended()
}

/// Returns whether what is awaited of a rendition is there.
fn holds(window: &Window, awaited: Awaited) -> bool
    ensures { (items : List Item) → window.now ≡ compact window.now.settings items
        → result ≡ verdict.holds window.now.settings items awaited }
{
    match awaited {
        Awaited::Nothing => true,
        Awaited::Segment(msn) => window.holds_segment(msn),
        Awaited::Part(msn, part) => window.holds_part(msn, part),
    }
}

/// Returns whether what is awaited of a rendition is too far ahead to be waited for.
pub fn is_far(window: &Window, awaited: Awaited) -> bool
    ensures { (items : List Item) → window.now ≡ compact window.now.settings items
        → result ≡ verdict.far window.now.settings items awaited }
{
    match awaited {
        Awaited::Nothing => false,
        Awaited::Segment(msn) => window.far(msn, None),
        Awaited::Part(msn, part) => window.far(msn, Some(part)),
    }
}

/// Returns whether what is awaited of a rendition is the part that its Preload Hint names: the next one, while the rendition hasn't ended.
pub fn is_hinted(window: &Window, awaited: Awaited) -> bool
    ensures { (items : List Item) → window.now ≡ compact window.now.settings items
        → result ≡ verdict.is_hinted window.now.settings items awaited }
{
    match awaited {
        Awaited::Nothing | Awaited::Segment(_) => false,
        Awaited::Part(msn, part) => {
            !window.ended()
                && (msn == window.next_number() && part == window.open_parts().len() as u64)
        }
    }
}
