//! The boxes in sample entries (ISO/IEC 14496-12, section 12).
ghost use Rattle.std.specs.Prelude.{◌≡◌, MatchResult, Ok, Err};
ghost use Rattle.ll_codecs.specs.Entries as spec;

use crate::fields::from;
use ll_mp4::StreamFault;

/// Returns the boxes after the fields of pictures of the sample entry `entry` (section 12.1.3).
pub(crate) fn video_boxes(entry: &[u8]) -> Result<&[u8], StreamFault>
    ensures { MatchResult result (λ boxes. spec.video_boxes entry.now ≡ Ok boxes.now) (λ fault. spec.video_boxes entry.now ≡ Err fault) }
{
    from(78, entry)
}

/// Returns the boxes after the fields of sound of the sample entry `entry` (section 12.2.3).
pub(crate) fn sound_boxes(entry: &[u8]) -> Result<&[u8], StreamFault>
    ensures { MatchResult result (λ boxes. spec.sound_boxes entry.now ≡ Ok boxes.now) (λ fault. spec.sound_boxes entry.now ≡ Err fault) }
{
    from(28, entry)
}
