//! The line by which a publisher shows that it knows a channel's secret.
ghost use Rattle.std.specs.Prelude.{◌≡◌, IfOk, IfErr, MatchOption, None, Some};
ghost use Rattle.std.specs.List.{list_all};
ghost use Rattle.std.specs.Str.Lines.{strip_carriage_return};
ghost use Rattle.ll_command.specs.Secrets.{IsSecretFault};
ghost use Rattle.ll_command.specs.Secrets as spec;

use crate::fault::Fault;
use std::alloc::{AllocError, Global};

/// The most bytes of a secret.
const LONGEST: usize = 256;

/// Returns the line by which a publisher of `channel` shows the secret of a file of the bytes `file`. If these aren't a secret, it is
/// `Usage`.
pub fn secret_line(alloc: Global, channel: &str, file: &[u8]) -> Result<Vec<u8>, Fault>
    ensures line { IfOk result (λ line. spec.secret_line channel.now file.now ≡ Some line.items) }
    ensures fault { IfErr result (IsSecretFault file.now) }
{
    let Some(word) = secret_in(file) else {
        return Err(Fault::Usage);
    };
    match line_of(alloc, channel, word) {
        Ok(line) => Ok(line),
        Err(AllocError) => Err(Fault::Memory),
    }
}

/// Returns the line with `channel` and the secret `word`.
fn line_of(alloc: Global, channel: &str, word: &[u8]) -> Result<Vec<u8>, AllocError>
    ensures { IfOk result (λ line. line.items ≡ spec.line_of channel.now word.now) }
{
    let mut line = Vec::new(alloc);
    line.extend_from_slice(channel.as_bytes())?;
    line.extend_from_slice(b" secret ")?;
    line.extend_from_slice(word)?;
    line.extend_from_slice(b"\n")?;
    Ok(line)
}

/// Returns the secret in the bytes of a file: 1 to 256 bytes of 0x21 to 0x7E, and after them LF, or CR and LF, or nothing.
fn secret_in(file: &[u8]) -> Option<&[u8]>
    ensures { MatchOption result (spec.secret_in file.now ≡ None) (λ word. spec.secret_in file.now ≡ Some word.now) }
{
    let word = without_end(file);
    if is_secret(word) { Some(word) } else { None }
}

/// Returns whether `word` has 1 to 256 bytes that are allowed in a secret.
fn is_secret(word: &[u8]) -> bool
    ensures { result ≡ spec.is_secret word.now }
{
    !word.is_empty() && word.len() <= LONGEST && are_plain(word)
}

/// Returns whether all of `bytes` are allowed in a secret.
fn are_plain(bytes: &[u8]) -> bool
    ensures { result ≡ list_all spec.is_plain bytes.now }
{
    bytes.iter().all(|byte| is_plain(*byte))
}

/// Returns `bytes` without the LF, or CR and LF, at their end.
fn without_end(bytes: &[u8]) -> &[u8]
    ensures { result.now ≡ spec.without_end bytes.now }
{
    match bytes {
        [line @ .., b'\n'] => without_return(line),
        _ => bytes,
    }
}

/// Returns `line` without the CR at its end.
fn without_return(line: &[u8]) -> &[u8]
    ensures { result.now ≡ strip_carriage_return line.now }
{
    match line {
        [text @ .., b'\r'] => text,
        _ => line,
    }
}

/// Returns whether `byte` is allowed in a secret.
fn is_plain(byte: u8) -> bool
    ensures { result ≡ spec.is_plain byte }
{
    b'!' <= byte && byte <= b'~'
}
