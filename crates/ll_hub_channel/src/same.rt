//! Whether two requests are the same, compared in small steps.
ghost use Rattle.std.specs.Prelude.{◌≡◌, Some};
ghost use Rattle.std.specs.Bool.{Decides};

use ll_directive::Awaited;
use ll_item::{SkipKind, What};
use ll_verdict::{Entry, Wanted};

/// Returns whether `found` is the request `entry`.
pub(crate) fn is_entry(found: Option<Entry>, entry: Entry) -> bool
    ensures { Decides result (found ≡ Some entry) }
{
    match found {
        Some(other) => is_same_entry(other, entry),
        None => false,
    }
}

fn is_same_entry(a: Entry, b: Entry) -> bool
    ensures { Decides result (a ≡ b) }
{
    a.ticket == b.ticket
        && a.seen == b.seen
        && a.deadline == b.deadline
        && is_same_wanted(a.wanted, b.wanted)
}

fn is_same_wanted(a: Wanted, b: Wanted) -> bool
    ensures { Decides result (a ≡ b) }
{
    a.rendition == b.rendition
        && is_same_file(a.what, b.what)
        && is_same_awaited(a.awaited, b.awaited)
        && is_same_form(a.form, b.form)
}

fn is_same_file(a: What, b: What) -> bool
    ensures { Decides result (a ≡ b) }
{
    a == b
}

fn is_same_awaited(a: Awaited, b: Awaited) -> bool
    ensures { Decides result (a ≡ b) }
{
    a == b
}

fn is_same_form(a: Option<SkipKind>, b: Option<SkipKind>) -> bool
    ensures { Decides result (a ≡ b) }
{
    a == b
}
