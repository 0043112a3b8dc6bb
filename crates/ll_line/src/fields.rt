//! Parsing of fields at the beginning of a text.
ghost use Rattle.std.specs.Prelude.{◌≡◌, codes};
ghost use Rattle.std.specs.Option.{option_map};
ghost use Rattle.ll_format.specs.Format.{up_to, to_end, optional};
ghost use Rattle.ll_format.specs.Words as words;
ghost use Rattle.ll_line.specs.Formats.{count, removed};

use ll_attr::after;
use ll_format::{is_rest, number, number_at, quoted_at};

/// The largest number in a line.
const LARGEST: u64 = 1 << 61;

/// Parses a number that is the whole text.
pub(crate) fn read_count(text: &str) -> Option<u64>
    ensures { result ≡ count.read text.now }
{
    number(text, LARGEST)
}

/// Parses a number that ends before a comma or with `text`, and returns what follows it.
pub(crate) fn count_at(text: &str) -> Option<(u64, &str)>
    ensures { (up_to 44 count).read text.now ≡ option_map (λ r. (r.0, r.1.now)) result }
{
    number_at(text, LARGEST)
}

/// Parses RECENTLY-REMOVED-DATERANGES, if `text` begins with it, and returns its value, which is ids separated by tabs, and what follows it.
pub(crate) fn removed_at(text: &str) -> Option<(Option<&str>, &str)>
    ensures { removed.read text.now ≡ option_map (λ r. (option_map (λ ids. words.cut_at 9 ids.now) r.0, r.1.now)) result }
{
    match after(text, ",RECENTLY-REMOVED-DATERANGES=\"") {
        Some(ids) => {
            let (ids, rest) = quoted_at(ids)?;
            Some((Some(ids), rest))
        }
        None => Some((None, text)),
    }
}

/// Parses the attributes after a comma, if `text` begins with one. They are the rest of the line.
pub(crate) fn attributes_at(text: &str) -> Option<(Option<&str>, &str)>
    ensures { (optional (codes ",") (to_end words.rest_of_line)).read text.now ≡ option_map (λ r. (option_map (λ more. more.now) r.0, r.1.now)) result }
{
    match after(text, ",") {
        Some(attributes) => {
            if is_rest(attributes) {
                Some((Some(attributes), ""))
            } else {
                None
            }
        }
        None => Some((None, text)),
    }
}
