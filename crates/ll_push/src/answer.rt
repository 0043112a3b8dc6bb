//! Reads the lines that an origin answers.
ghost use Rattle.std.specs.Prelude.{◌≡◌, ◌<◌, ◌≤◌, IfErr, IfOk, MatchOption, MatchResult, None, OnOk, Some, length, take};
ghost use Rattle.std.specs.Char.{is_ascii_alphabetic};
ghost use Rattle.std.specs.List.{list_all};
ghost use Rattle.ll_device.specs.Inward.{looked_at};
ghost use Rattle.ll_push.specs.Answers as spec;
ghost use Rattle.ll_push.specs.Exchanges.{HasStopped, IsAnswered, link_value};

use ll_announce::Standing;
use ll_attr::{Text, after, parse_number};
use ll_device::Link;
use std::alloc::{AllocError, Global};
use std::str;

/// The most bytes of an answer, with its end.
const LIMIT: usize = 128;

/// The answer of an origin.
#[derive(Drop)]
pub(crate) enum Answer {
    /// The message was accepted.
    Accepted {
        /// Whether the origin says that it couldn't keep it on disk.
        unkept: bool,
    },
    /// Where the rendition stands.
    Standing(Standing),
    /// The line that refuses what was sent, without its end.
    Refused(Text),
}

/// Why there is no answer.
#[derive(Clone, Copy)]
pub(crate) enum NoAnswer {
    /// The connection was lost before the answer's end.
    Lost,
    /// What came isn't an answer.
    Bad,
    /// Out of memory.
    Memory,
}

impl From<AllocError> for NoAnswer {
    ghost use Rattle.std.specs.Prelude.{◌≡◌};
    ghost use Rattle.ll_push.specs.declared.answer.NoAnswer.TheVariants.{Memory};

    ghost from_gives = { λ error no. no ≡ Memory };

    fn from(_error: AllocError) -> NoAnswer {
        NoAnswer::Memory
    }
}

/// Reads the line that answers what was sent. Bytes that come after its end in the same read count as its own, so that it isn't an
/// answer.
pub(crate) fn read_answer<P: Link>(alloc: Global, link: &mut P) -> Result<Answer, NoAnswer>
    ensures read { IsAnswered (link_value P.written P.inward P.failures link.old) (link_value P.written P.inward P.failures link.new) result }
    ensures unwritten { P.written link.new ≡ P.written link.old }
{
    let mut line = [0; LIMIT];
    let mut len = 0;
    while len < LIMIT {
        len += read_some(link, &mut line[len..])?;
        if line[len - 1] == b'\n' {
            return answer_of(alloc, &line[..len - 1]);
        }
    }
    Err(NoAnswer::Bad)
}

/// Reads some more of an answer into `buf`, and returns how many bytes came. The connection is lost if it has ended, or if the read fails.
fn read_some<P: Link>(link: &mut P, buf: &mut [u8]) -> Result<usize, NoAnswer>
    requires { 0 < length buf.old }
    ensures count { IfOk result (λ n. (0 < n) × (n ≤ length buf.new)) }
    ensures came { IfOk result (λ n. P.inward link.new ≡ looked_at 1 0 (take n buf.new) (P.inward link.old)) }
    ensures steady { OnOk result (P.failures link.new ≡ P.failures link.old) }
    ensures lost { IfErr result (λ fault. (fault ≡ NoAnswer.Lost) × HasStopped (P.inward link.old) (P.inward link.new) (P.failures link.old) (P.failures link.new)) }
    ensures unwritten { P.written link.new ≡ P.written link.old }
{
    match link.read(buf) {
        Ok(0) => Err(NoAnswer::Lost),
        Ok(count) => Ok(count),
        Err(_) => Err(NoAnswer::Lost),
    }
}

/// Parses the answer `line`, which is without its end.
fn answer_of(alloc: Global, line: &[u8]) -> Result<Answer, NoAnswer>
    ensures said { MatchResult result (spec.IsSaid line.now) (spec.IsUnsaid line.now) }
{
    let Ok(text) = str::from_utf8(line) else {
        return Err(NoAnswer::Bad);
    };
    if accepts(text) {
        let unkept = is_not_kept(text);
        Ok(Answer::Accepted { unkept })
    } else if refuses(text) {
        Ok(Answer::Refused(Text::from_str(alloc, text)?))
    } else if let Some(standing) = Standing::read(text) {
        Ok(Answer::Standing(standing))
    } else {
        Err(NoAnswer::Bad)
    }
}

/// Returns whether `line` accepts what was sent, also if that couldn't be kept on disk.
fn accepts(line: &str) -> bool
    ensures { result ≡ spec.accepts line.now }
{
    is_ok(line) || is_not_kept(line)
}

/// Returns whether `line` says that what was sent is accepted, though it couldn't be kept on disk.
fn is_not_kept(line: &str) -> bool
    ensures { result ≡ spec.is_not_kept line.now }
{
    line == "no 20 NotKept"
}

/// Returns whether `line` is `ok` and a number.
fn is_ok(line: &str) -> bool
    ensures { result ≡ spec.is_ok line.now }
{
    match after(line, "ok ") {
        Some(count) => parse_number(count, 20).is_some(),
        None => false,
    }
}

/// Returns whether `line` refuses what was sent: it gives a reason, and doesn't say that it is accepted, though not kept.
fn refuses(line: &str) -> bool
    ensures { result ≡ spec.refuses line.now }
{
    gives_reason(line) && !is_not_kept(line)
}

/// Returns whether `line` is `no`, a number and a name of letters.
fn gives_reason(line: &str) -> bool
    ensures { result ≡ spec.gives_reason line.now }
{
    match after(line, "no ") {
        Some(reason) => is_reason(reason),
        None => false,
    }
}

/// Returns whether `text` is a number and a name of letters.
fn is_reason(text: &str) -> bool
    ensures { result ≡ spec.is_reason text.now }
{
    match halves(text) {
        Some((code, name)) => parse_number(code, 20).is_some() && is_word(name),
        None => false,
    }
}

/// Returns what stands before the first space and what stands after it, or `None` if there is no space.
fn halves(text: &str) -> Option<(&str, &str)>
    ensures { MatchOption result (spec.halves text.now ≡ None) (λ p. spec.halves text.now ≡ Some (p.0.now, p.1.now)) }
{
    text.split_once(' ')
}

/// Returns whether `text` is one or more letters.
fn is_word(text: &str) -> bool
    ensures { result ≡ spec.is_word text.now }
{
    !text.is_empty() && all_letters(text)
}

/// Returns whether `text` has only letters, as the empty one does.
fn all_letters(text: &str) -> bool
    ensures { result ≡ list_all is_ascii_alphabetic text.now }
{
    text.bytes().all(|b| b.is_ascii_alphabetic())
}
