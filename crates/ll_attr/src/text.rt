//! Texts that own their bytes.
ghost use Rattle.std.proofs.Common.{rules};
ghost use Rattle.std.specs.Cmp.Rules.{comparing};
ghost use Rattle.std.specs.Prelude.{◌≡◌, [], IfOk, Some, string_bytes};

use std::alloc::{AllocError, Global};
use std::fmt;
use std::marker::Model;

/// An owned text, which contracts see as its bytes.
pub struct Text {
    string: String,
}

impl Drop for Text {
    fn drop(self) {
        let Text { string: _string } = self;
    }
}

impl Model for Text {
    ghost use Rattle.std.specs.Prelude.{List, ℕ, string_bytes};

    ghost Value = { List ℕ };

    ghost view = { λ t. string_bytes t.string };
}

impl Text {
    /// Makes the empty text. It takes no memory.
    pub fn new(alloc: Global) -> Self
        ensures { result ≡ [] }
    {
        Text {
            string: String::new(alloc),
        }
    }

    /// Copies `text`.
    pub fn from_str(alloc: Global, text: &str) -> Result<Self, AllocError>
        ensures { IfOk result (λ t. t ≡ text.now) }
    {
        Ok(Text {
            string: String::from_str(alloc, text)?,
        })
    }

    /// Makes a text of `string`. It takes no more memory.
    pub fn from_string(string: String) -> Self
        ensures { result ≡ string_bytes string }
    {
        Text { string }
    }

    /// Returns the text, borrowed.
    pub fn as_str(&self) -> &str
        ensures { result.now ≡ self.now }
    {
        self.string.as_str()
    }

    /// Returns a copy of the text.
    pub fn copy(&self) -> Result<Self, AllocError>
        ensures { IfOk result (λ t. t ≡ self.now) }
    {
        Ok(Text {
            string: self.string.clone()?,
        })
    }
}

impl PartialEq for Text {
    ghost use Rattle.std.specs.Prelude.{bytes_eq};

    ghost eq = { bytes_eq };

    ghost laws = { Prim.search (comparing, rules) };

    fn eq(&self, other: &Text) -> bool {
        self.as_str() == other.as_str()
    }
}

impl Eq for Text {
    ghost laws = { Prim.search (comparing, rules) };
}

impl fmt::Display for Text {
    ghost output = { λ text. Some text };

    fn fmt<W: fmt::Write>(&self, f: &mut fmt::Formatter<W>) -> fmt::Result {
        f.write_str(self.as_str())
    }
}
