//! Decides whether bytes end inside a request's target.
ghost use Rattle.std.specs.Prelude.{◌≡◌, if◌then◌else◌};
ghost use Rattle.ll_wire.specs.Reading.{read};
ghost use Rattle.ll_wire.specs.Heads.{is_in_target};
ghost use Rattle.ll_wire.specs.Places.{next_place};
ghost use Rattle.ll_wire.specs.declared.place.Place.TheVariants as Place;

use httparse::{is_method_token, is_uri_token};

/// Where in a request line the bytes read so far end.
#[derive(Clone, Copy)]
pub(crate) enum Place {
    /// In the empty lines before it.
    Blank,
    /// After the CR of such a line.
    BlankReturn,
    Method,
    Target,
    /// After the target, or after a byte that no head has there.
    Past,
}

/// Returns the place one byte after `place`, that byte being `b`.
fn next(place: Place, b: u8) -> Place
    ensures { result ≡ next_place place b }
{
    match place {
        Place::Blank => after_blank(b),
        Place::BlankReturn => go_if(b == b'\n', Place::Blank),
        Place::Method => {
            if is_method_token(b) {
                Place::Method
            } else {
                go_if(b == b' ', Place::Target)
            }
        }
        Place::Target => go_if(is_uri_token(b), Place::Target),
        Place::Past => Place::Past,
    }
}

/// Returns the place after `b`, the first byte of a line: an empty line, or the method's.
fn after_blank(b: u8) -> Place
    ensures { result ≡ next_place Place.Blank b }
{
    if is_method_token(b) {
        Place::Method
    } else if b == b'\r' {
        Place::BlankReturn
    } else {
        go_if(b == b'\n', Place::Blank)
    }
}

fn go_if(fits: bool, place: Place) -> Place
    ensures { result ≡ (if fits then place else Place.Past) }
{
    if fits { place } else { Place::Past }
}

/// Returns whether `bytes` are any empty lines, a method, a space, and bytes that are allowed in a target.
pub(crate) fn ends_in_target(bytes: &[u8]) -> bool
    ensures { result ≡ is_in_target (read bytes.now) }
{
    let mut place = Place::Blank;
    for b in bytes {
        place = next(place, *b);
    }
    matches!(place, Place::Target)
}
