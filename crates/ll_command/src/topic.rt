//! How the program and each of its commands is used.
ghost use Rattle.std.specs.Prelude.{◌≡◌, ◌<◌, IfErr};
ghost use Rattle.ll_command.specs.Commands.{topic_named};

use crate::fault::Fault;
use crate::writing::write_out;
use ll_device::Writer;

/// What help is asked for.
#[derive(Clone, Copy)]
pub enum Topic {
    /// The program.
    Program,
    /// The command `serve`.
    Serve,
    /// The command `push`.
    Push,
    /// The command `replay`.
    Replay,
    /// The command `check`.
    Check,
    /// The command `upgrade`.
    Upgrade,
    /// The command `explain`.
    Explain,
    /// The command `multivariant`.
    Multivariant,
    /// The command `apply`.
    Apply,
    /// The command `version`.
    Version,
}

impl Topic {
    /// Returns the command called `name`.
    pub fn named(name: &str) -> Option<Topic>
        ensures { result ≡ topic_named name.now }
    {
        match name {
            "serve" => Some(Topic::Serve),
            "push" => Some(Topic::Push),
            "replay" => Some(Topic::Replay),
            "check" => Some(Topic::Check),
            "upgrade" => Some(Topic::Upgrade),
            "explain" => Some(Topic::Explain),
            "multivariant" => Some(Topic::Multivariant),
            "apply" => Some(Topic::Apply),
            "version" => Some(Topic::Version),
            _ => None,
        }
    }

    /// Returns how the program or the command is used, in one or more lines.
    pub fn usage(self) -> &'static str {
        match self {
            Topic::Program => PROGRAM,
            Topic::Serve => SERVE,
            Topic::Push => PUSH,
            Topic::Replay => REPLAY,
            Topic::Check => CHECK,
            Topic::Upgrade => UPGRADE,
            Topic::Explain => EXPLAIN,
            Topic::Multivariant => MULTIVARIANT,
            Topic::Apply => APPLY,
            Topic::Version => VERSION,
        }
    }
}

/// Writes how the program or the command of `topic` is used.
pub fn write_help<W: Writer>(topic: Topic, out: &mut W) -> Result<(), Fault>
    ensures failed { IfErr result (λ f. (f ≡ Fault.Write) × (W.failures out.old < W.failures out.new)) }
{
    write_out(topic.usage().as_bytes(), out)
}

const PROGRAM: &str = "\
usage: llhls COMMAND ..
serve SETTINGS                    serve the channels of a settings file to players and publishers
push ADDRESS[,ADDRESS ..] CHANNEL RENDITION part=US segment=US [OPTION ..]
                                  publish the fragmented MP4 on standard input
replay                            run the script on standard input
check RECORD                      say whether a channel's record is right
explain RECORD [ENTRY]            summarize a record, or explain one of its entries
upgrade RECORD                    write a record in format 2
multivariant RECORD NAME=INIT ..  write a channel's Multivariant Playlist
apply BASE DELTA                  apply a Playlist Delta Update to a playlist
version                           say which version this is
`llhls COMMAND --help` says more of a command, `man llhls` of all.
";

const SERVE: &str = "\
usage: llhls serve SETTINGS
Serves the channels of the settings file SETTINGS until it is stopped.
FORMATS.md, \"Settings file\", has the file's form; examples/media.settings is one.
";

const PUSH: &str = "\
usage: llhls push ADDRESS[,ADDRESS ..] CHANNEL RENDITION part=US segment=US
           [most=US] [ahead=no] [retry=S] [keep=BYTES] [secret=FILE] [end]
Publishes the fragmented MP4 on standard input as a rendition of a channel, at one to four servers.
ADDRESS      where a server listens for publishers: HOST:PORT or unix:PATH
part=US      the duration of a part, in microseconds
segment=US   the least duration of a segment, in microseconds
most=US      the longest duration of a segment; by default half as long again as segment=
ahead=no     each fragment is a part, and is sent as it comes
retry=S      how long a lost connection is tried again, in seconds; by default 60
keep=BYTES   how much waits for a slow one of several servers; by default 67108864
secret=FILE  the file with the channel's secret
end          the rendition ends with the input
PUSH.md says what is sent, OPERATING.md which options encoders need.
";

const REPLAY: &str = "\
usage: llhls replay
Runs the script on standard input, and writes what is answered. SCRIPTS.md has the lines' forms.
";

const CHECK: &str = "\
usage: llhls check RECORD
Says whether each answer in the record of a channel was right: `ok` and the number of entries,
or `bad`, the first wrong entry and why. RECORDS.md has the record's form.
";

const UPGRADE: &str = "\
usage: llhls upgrade RECORD
Writes the record of a channel in format 2. RECORDS.md has the record's form.
";

const EXPLAIN: &str = "\
usage: llhls explain RECORD [ENTRY]
Summarizes the record of a channel, or says what happened at an entry, counted from 1.
";

const MULTIVARIANT: &str = "\
usage: llhls multivariant RECORD NAME=INIT [NAME=INIT ..]
Writes the Multivariant Playlist of the channel with the record RECORD.
NAME=INIT    a rendition's name, and the file of its Media Initialization Section
";

const APPLY: &str = "\
usage: llhls apply BASE DELTA
Writes the playlist that results from the Playlist Delta Update DELTA applied to the playlist BASE.
";

const VERSION: &str = "\
usage: llhls version
Says which version this is, and which kit it is proved with.
";
