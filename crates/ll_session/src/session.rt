//! The session of one HTTP/1.1 connection (RFC 9112).
ghost use Rattle.std.specs.Prelude.{◌≡◌, ◌≢◌, ◌++◌, ◌≤◌, ◌∷◌, [], IfOk, IsSome, MatchOption, OnErr, OnOk, drop, false, is_some, length, nat_lt};
ghost use Rattle.std.specs.List.{concat};
ghost use Rattle.ll_wire.specs.Response.{response_bytes};
ghost use Rattle.ll_session.specs.Past as past;
ghost use Rattle.ll_session.specs.Talk as talk;

use crate::output::Output;
use crate::taken::{Taken, is_unfinished, take_front};
use ll_directive::Want;
use ll_wire::{Answer, HeadFault, Slices, response};
use std::alloc::{AllocError, Global};
use std::marker::Model;

/// The most bytes that wait while a want is out.
const MOST_WAITING: usize = 16_384;

/// The session of one connection: the bytes that weren't read yet, whether a want is out, and the answers that are to be sent.
/// [`Session::end`] must consume it: to drop it before is a failed proof.
pub struct Session {
    alloc: Global,
    unread: Vec<u8>,
    output: Output,
    out: Option<bool>,
    shut: bool,
}

impl Model for Session {
    ghost use Rattle.ll_session.specs.Talk.{SessionValue};

    ghost Value = { SessionValue };

    ghost view = { λ s. record { unread = s.unread.items; answers = s.output; out = s.out; shut = s.shut } };
}

/// Only a session that has ended can be dropped.
impl Drop for Session {
    ghost use Rattle.std.specs.Prelude.{◌≡◌, [], IsTrue};

    fn drop(self)
        requires { (self.unread ≡ []) × (self.answers ≡ []) × IsTrue self.shut }
    {
        let Session {
            alloc: _,
            unread: _,
            output: _output,
            out: _,
            shut: _,
        } = self;
    }
}

impl Session {
    /// Returns the session of a new connection.
    pub fn new(alloc: Global) -> Session
        ensures { result ≡ talk.fresh }
    {
        Session {
            alloc,
            unread: Vec::new(alloc),
            output: Output::new(alloc),
            out: None,
            shut: false,
        }
    }

    /// Takes in `piece`, bytes that came. While no want is out, they are kept, however many they are. If one is out, and the bytes
    /// kept and these are together more than 16,384, HeadTooLarge is put out in place of the want's answer, and the session shuts; an
    /// empty piece checks that too. A session that has shut ignores `piece`. If this fails, nothing has changed.
    pub fn feed(&mut self, piece: &[u8]) -> Result<(), AllocError>
        ensures ok { OnOk result (self.new ≡ talk.fed self.old piece.now) }
        ensures err { OnErr result (self.new ≡ self.old) }
    {
        if self.shut {
            return Ok(());
        }
        if self.waiting() && are_too_many(&self.unread, piece) {
            return self.put_last(&Answer::Head(HeadFault::HeadTooLarge));
        }
        self.unread.extend_from_slice(piece)
    }

    /// Returns the next want, which is then out. Answers by itself each head or target before it that is refused, and shuts after such
    /// a head, or after such a target whose request doesn't keep the connection. Returns `None` if a want is out, the session has
    /// shut, or no want follows in the bytes so far. If this fails, nothing has changed.
    pub fn next_want(&mut self) -> Result<Option<Want>, AllocError>
        ensures ok { OnOk result (self.new ≡ talk.pulled self.old) }
        ensures want { IfOk result (λ want. want ≡ talk.next_want self.old) }
        ensures err { OnErr result (self.new ≡ self.old) }
        ensures needed { OnErr result (past.next_entries self.old ≢ []) }
    {
        if self.shut || self.waiting() || is_unfinished(&self.unread) {
            return Ok(None);
        }
        let Taken {
            at,
            told,
            want,
            ends,
        } = take_front(self.alloc, &self.unread)?;
        self.output.append(told)?;
        drop_front(&mut self.unread, at);
        self.shut = ends;
        match want {
            Some((want, keep)) => {
                self.out = Some(keep);
                Ok(Some(want))
            }
            None => Ok(None),
        }
    }

    /// Puts out the answer to the want that is out. If its request doesn't keep the connection, the session shuts. If this fails,
    /// nothing has changed.
    pub fn answered(&mut self, answer: &Answer) -> Result<(), AllocError>
        requires { IsSome self.old.out }
        ensures ok { OnOk result (self.new ≡ talk.replied self.old answer.now) }
        ensures err { OnErr result (self.new ≡ self.old) }
    {
        if self.out == Some(false) {
            return self.put_last(answer);
        }
        self.output.push(response(self.alloc, answer, true)?)?;
        self.out = None;
        Ok(())
    }

    /// Puts out `answer`, the last one, and shuts.
    fn put_last(&mut self, answer: &Answer) -> Result<(), AllocError>
        ensures ok { OnOk result (self.new ≡ talk.shuts self.old (response_bytes answer.now false)) }
        ensures err { OnErr result (self.new ≡ self.old) }
    {
        self.output.push(response(self.alloc, answer, false)?)?;
        self.unread.clear();
        self.out = None;
        self.shut = true;
        Ok(())
    }

    /// Shuts the session of a caller that is out of memory: what was put out can still be sent, and nothing more is put out.
    pub fn mute(&mut self)
        ensures { self.new ≡ talk.muted self.old }
    {
        self.unread.clear();
        self.out = None;
        self.shut = true;
    }

    /// Returns a copy of the bytes that were put out and not sent.
    pub fn output(&self) -> Result<Vec<u8>, AllocError>
        ensures { IfOk result (λ bytes. bytes.items ≡ concat self.now.answers) }
    {
        self.output.copy(self.alloc)
    }

    /// Returns what is left of the first answer that wasn't sent, or `None` if all were.
    pub fn first_answer(&self) -> Option<Slices<'_>>
        ensures { MatchOption result (self.now.answers ≡ []) (λ first. self.now.answers ≡ first ∷ drop 1 self.now.answers) }
    {
        self.output.first()
    }

    /// Drops the first `n` bytes of the output, which were sent, or all if there are fewer.
    pub fn sent(&mut self, n: usize)
        ensures { self.new ≡ talk.sent self.old n }
    {
        self.output.drop_front(n);
    }

    /// Drops what is left of the output's first answer, which was sent.
    pub fn first_sent(&mut self)
        ensures { self.new ≡ record self.old { answers = drop 1 self.old.answers } }
    {
        self.output.drop_first();
    }

    /// Returns whether the session has shut: no want is out, and none will come.
    pub fn shut(&self) -> bool
        ensures { result ≡ self.now.shut }
    {
        self.shut
    }

    /// Returns whether a want is out.
    pub fn waiting(&self) -> bool
        ensures { result ≡ is_some self.now.out }
    {
        self.out.is_some()
    }

    /// Ends the session in any state, and drops what wasn't sent.
    pub fn end(mut self) {
        self.unread.clear();
        self.output.clear();
        self.shut = true;
    }
}

/// Returns whether `unread` and `piece` together are more bytes than are allowed to wait.
fn are_too_many(unread: &[u8], piece: &[u8]) -> bool
    ensures { result ≡ nat_lt 16384 (length (unread.now ++ piece.now)) }
{
    unread.len() > MOST_WAITING || piece.len() > MOST_WAITING - unread.len()
}

/// Drops the first `n` bytes.
fn drop_front(bytes: &mut Vec<u8>, n: usize)
    requires { n ≤ length bytes.old.items }
    ensures { bytes.new.items ≡ drop n bytes.old.items }
{
    let _front = bytes.drain(..n);
}
