//! The two files of a rendition's bytes.
ghost use Rattle.std.specs.Prelude.{◌≡◌};
ghost use Rattle.ll_layout.specs.Held as spec;

/// One of the two files that have the bytes of a rendition's items.
#[derive(Clone, Copy)]
pub enum Side {
    /// The file that is written first.
    A,
    /// The other one.
    B,
}

impl Side {
    /// Returns the other side.
    pub fn other(self) -> Side
        ensures { result ≡ spec.other self }
    {
        match self {
            Side::A => Side::B,
            Side::B => Side::A,
        }
    }
}
