//! What each fault means, and what helps, whatever its cause.
use ll_apply::ApplyFault;
use ll_command::Fault;
use ll_mp4::{Kind, StreamFault};
use ll_push::PushFault;
use ll_replay::RunFault;
use std::fmt;

/// What is said if standard output takes no more.
const WRITE: &str = "Standard output took no more: its disk is full, or its reader has ended.";

/// What is said if out of memory.
const MEMORY: &str = "The system has no more memory for the program.";

/// What is said of the clock.
const CLOCK: &str = "The system's clock couldn't be read, or shows a time before 1970.";

/// What a fault means: lines that are indented by two spaces, or none if its cause says it all.
#[derive(Clone, Copy)]
pub(crate) struct Advice(pub(crate) Fault);

impl fmt::Display for Advice {
    fn fmt<W: fmt::Write>(&self, f: &mut fmt::Formatter<W>) -> fmt::Result {
        match self.0 {
            Fault::Push(PushFault::Input(fault)) => write!(f, "{}", InputAdvice(fault)),
            fault => match advice_of(fault) {
                "" => Ok(()),
                text => writeln!(f, "  {text}"),
            },
        }
    }
}

/// Returns what `fault` means, or an empty text if its cause says it all. The faults of an encoder's bytes aren't here.
fn advice_of(fault: Fault) -> &'static str {
    match fault {
        Fault::Usage | Fault::Read | Fault::Listen | Fault::NotMp4 => "",
        Fault::Endless => "The record didn't end within 2^32 reads.",
        Fault::Changed => {
            "The record was right, and wasn't when it was read again: something writes to it, or it is a pipe, which can be read only once."
        }
        Fault::Write => WRITE,
        Fault::Memory => MEMORY,
        Fault::BadLine(_) => "FORMATS.md, \"Settings file\", has each line's form.",
        Fault::NoEntry => "`llhls check FILE` says how many entries a record has.",
        Fault::NoRendition(_) => "The record's channel has no rendition of that name.",
        Fault::BadInit(_) => {
            "That file is no Media Initialization Section that can be read; RECORDS.md says which are."
        }
        Fault::NoSegment(_) => {
            "That rendition has no finished segment in the record, from which its rates could be computed."
        }
        Fault::TooLarge => "A rate of the Multivariant Playlist is above 2^64.",
        Fault::Clock => CLOCK,
        Fault::Replay(fault) => replay_advice(fault),
        Fault::Apply(fault) => apply_advice(fault),
        Fault::Push(fault) => push_advice(fault),
    }
}

/// Returns what a fault of a script means.
fn replay_advice(fault: RunFault) -> &'static str {
    match fault {
        RunFault::BadLine { .. } => {
            "No script has this line, counted from 1, in this place; SCRIPTS.md has each line's form."
        }
        RunFault::LineTooLong { .. } => "A line of a script has at most 65,536 bytes.",
        RunFault::Read => "The script couldn't be read from standard input.",
        RunFault::Write => WRITE,
        RunFault::Endless => "The script didn't end within 2^32 reads.",
        RunFault::Memory => MEMORY,
    }
}

/// Returns what a fault of a delta update means.
fn apply_advice(fault: ApplyFault) -> &'static str {
    match fault {
        ApplyFault::BadBase => {
            "The first file has to be a full Media Playlist of the form in PLAYLISTS.md; it is another text, or a Playlist Delta Update itself."
        }
        ApplyFault::BadDelta =>
            "The second file has to be a Media Playlist of the form in PLAYLISTS.md.",
        ApplyFault::NotRecent { .. } => {
            "The Playlist Delta Update skips the segment of this number, which the first file lacks: it applies to a later playlist."
        }
        ApplyFault::Memory => MEMORY,
    }
}

/// Returns what a fault of publishing means, but for those of the encoder's bytes.
fn push_advice(fault: PushFault) -> &'static str {
    match fault {
        PushFault::Input(_) => "",
        PushFault::Read => "The encoder's output couldn't be read from standard input.",
        PushFault::Clock => CLOCK,
        PushFault::Connect => {
            "Is the server up, and is this where it listens for publishers (`publish` in its settings)? PUSH.md, \"Connections\"."
        }
        PushFault::Elsewhere => {
            "The rendition doesn't stand where what was sent leads: someone else publishes it too, or the server has lost what it had (no `spool` in its settings). OPERATING.md, \"Common mistakes\"."
        }
        PushFault::BadAnswer => {
            "What answers is no server's port for publishers; `publish` in the server's settings says which that is."
        }
        PushFault::Memory => MEMORY,
        PushFault::Endless => "There were 2^64 - 1 reads, messages or connections, and no end.",
    }
}

/// What a fault of an encoder's bytes means: a line that is indented by two spaces, and the page that says more.
#[derive(Clone, Copy)]
struct InputAdvice(StreamFault);

impl fmt::Display for InputAdvice {
    fn fmt<W: fmt::Write>(&self, f: &mut fmt::Formatter<W>) -> fmt::Result {
        match self.0 {
            StreamFault::Missing(kind) => writeln!(f, "  {}", missing_advice(kind))?,
            StreamFault::Several(kind) => writeln!(
                f,
                "  The input has several `{kind}` boxes where one is allowed."
            )?,
            fault => writeln!(f, "  {}", input_advice(fault))?,
        }
        writeln!(
            f,
            "  PUSH.md, \"Input\"; OPERATING.md has the options of encoders."
        )
    }
}

/// Returns what it means that a box of type `kind` is missing.
fn missing_advice(kind: Kind) -> &'static str {
    match kind {
        Kind::Mvex | Kind::Trex => {
            "The input's movie has no fragments: ffmpeg writes some with `-movflags +delay_moov+default_base_moof -frag_duration 1000`."
        }
        Kind::Mdat =>
            "The input ends, or goes on with another movie, after a fragment without samples.",
        Kind::Trak => "The input's movie has no track.",
        _ => "The input lacks a box of this type where one is required.",
    }
}

/// Returns what a fault of an encoder's bytes means that names no box.
fn input_advice(fault: StreamFault) -> &'static str {
    match fault {
        StreamFault::BadBox => "A box of the input has a size that can't be, or lacks fields.",
        StreamFault::TooLarge => {
            "An initialization section, or a fragment with what goes with it, has more than 1,048,576 bytes: the encoder has to write shorter fragments."
        }
        StreamFault::NoMoov =>
            "The input has no `moov` box before its first samples, or none at all.",
        StreamFault::NoTimeScale => "A track of the input has a time scale of 0.",
        StreamFault::OtherTrack =>
            "A fragment of the input has a track that the movie doesn't have.",
        StreamFault::TooLong => {
            "A fragment of the input lasts longer than `part=`: the encoder has to write shorter ones (ffmpeg: `-frag_duration 1000`)."
        }
        StreamFault::Cut =>
            "The input ends inside a box: the encoder was stopped, or its output was cut off.",
        StreamFault::Memory | StreamFault::Missing(_) | StreamFault::Several(_) => "",
    }
}
