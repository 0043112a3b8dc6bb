//! The segments that an earlier playlist lacks.
ghost use Rattle.std.specs.Prelude.{◌≡◌, ◌+◌, ◌<◌, ◌^◌};
ghost use Rattle.ll_apply.specs.Applied as spec;
ghost use Rattle.ll_line.specs.Playlist.{Playlist};
ghost use Rattle.ll_read.specs.Outline.{outline_of};

use ll_read::Outline;

/// Returns the smallest of `count` Media Sequence Numbers, from `from` on, of which the playlist with the outline `base` has no finished segment.
pub(crate) fn missing(base: Outline, from: u64, count: u64) -> Option<u64>
    requires { from + count < 2 ^ 64 }
    ensures { (p : Playlist) → base ≡ outline_of p → result ≡ spec.missing p from count }
{
    let segments = base.segments as u64;
    if count == 0 {
        return None;
    }
    if from < base.sequence || segments <= from - base.sequence {
        return Some(from);
    }
    let left = segments - (from - base.sequence);
    if count <= left {
        None
    } else {
        Some(from + left)
    }
}
