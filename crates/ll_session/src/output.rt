//! The output of a session: the answers that weren't sent yet.
ghost use Rattle.std.specs.Prelude.{◌≡◌, ◌<◌, ◌++◌, ◌∷◌, [], IfOk, MatchOption, OnErr, OnOk, drop, length};
ghost use Rattle.std.specs.List.{concat};
ghost use Rattle.ll_session.specs.Output.{unsent};
ghost use Rattle.ll_wire.specs.Parts.{bytes_of};

use crate::left::Left;
use ll_wire::{Response, Slices};
use std::alloc::{AllocError, Global};
use std::collections::VecDeque;
use std::marker::Model;

/// Answers in the order in which they are sent, of which the first may have been sent in part.
pub(crate) struct Output {
    answers: VecDeque<Left>,
}

impl Drop for Output {
    fn drop(self) {
        let Output { answers: _answers } = self;
    }
}

impl Model for Output {
    ghost use Rattle.std.specs.Prelude.{ℕ, List};

    ghost Value = { List (List ℕ) };

    ghost view = { λ o. o.answers.items };
}

impl Output {
    /// Returns an empty output.
    pub(crate) fn new(alloc: Global) -> Output
        ensures { result ≡ [] }
    {
        Output {
            answers: VecDeque::new(alloc),
        }
    }

    /// Adds an answer, without copying it.
    pub(crate) fn push(&mut self, response: Response) -> Result<(), AllocError>
        ensures ok { OnOk result (self.new ≡ self.old ++ bytes_of response ∷ []) }
        ensures err { OnErr result (self.new ≡ self.old) }
    {
        self.answers.push_back(Left::new(response))?;
        Ok(())
    }

    /// Adds all answers of `more`.
    pub(crate) fn append(&mut self, mut more: Output) -> Result<(), AllocError>
        ensures ok { OnOk result (self.new ≡ self.old ++ more) }
        ensures err { OnErr result (self.new ≡ self.old) }
    {
        self.answers.append(&mut more.answers)
    }

    /// Returns the bytes that are left of the first answer, or `None` if there is no answer.
    pub(crate) fn first(&self) -> Option<Slices<'_>>
        ensures { MatchOption result (self.now ≡ []) (λ first. self.now ≡ first ∷ drop 1 self.now) }
    {
        match self.answers.front() {
            Some(first) => Some(first.slices()),
            None => None,
        }
    }

    /// Returns a copy of all bytes that are left.
    pub(crate) fn copy(&self, alloc: Global) -> Result<Vec<u8>, AllocError>
        ensures { IfOk result (λ bytes. bytes.items ≡ concat self.now) }
    {
        let mut bytes = Vec::new(alloc);
        for answer in &self.answers {
            answer.slices().copy_to(&mut bytes)?;
        }
        Ok(bytes)
    }

    /// Drops the first `n` bytes, which were sent, or all if there are fewer.
    pub(crate) fn drop_front(&mut self, n: usize)
        ensures { self.new ≡ unsent n self.old }
    {
        let mut rest = Some(n);
        while let Some(n) = rest {
            rest = self.drop_one(n);
        }
    }

    /// Drops the first answer if it has at most `n` bytes, and returns how many are still to be dropped; otherwise drops its first `n`
    /// bytes, and returns `None`.
    fn drop_one(&mut self, n: usize) -> Option<usize>
        ensures { MatchOption result (self.new ≡ unsent n self.old)
            (λ rest. (unsent rest self.new ≡ unsent n self.old) × (length self.new < length self.old)) }
    {
        let first = self.answers.front_mut()?;
        let length = first.len();
        if n < length {
            first.advance(n);
            return None;
        }
        self.answers.pop_front();
        Some(n - length)
    }

    /// Drops the first answer, or what is left of it.
    pub(crate) fn drop_first(&mut self)
        ensures { self.new ≡ drop 1 self.old }
    {
        self.answers.pop_front();
    }

    /// Drops all answers.
    pub(crate) fn clear(&mut self)
        ensures { self.new ≡ [] }
    {
        self.answers.clear();
    }
}
