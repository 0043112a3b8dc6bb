//! Numbers written with leading zeros, in two, three or four digits.
ghost use Rattle.std.specs.Prelude.{Some};
ghost use Rattle.ll_format.specs.Times.{digits_2, digits_3, digits_4};

use std::fmt;

/// A number's last two decimal digits.
#[derive(Clone, Copy)]
pub(crate) struct TwoDigits(pub(crate) u64);

#[tactic(auto, unfolding(crate::specs::Times::digits_2))]
impl fmt::Display for TwoDigits {
    ghost output = { λ n. Some (digits_2 n.0) };

    fn fmt<W: fmt::Write>(&self, f: &mut fmt::Formatter<W>) -> fmt::Result {
        let (tens, ones) = (self.0 / 10 % 10, self.0 % 10);
        write!(f, "{tens}{ones}")
    }
}

/// A number's last three decimal digits.
#[derive(Clone, Copy)]
pub(crate) struct ThreeDigits(pub(crate) u64);

#[tactic(auto, unfolding(crate::specs::Times::digits_3))]
impl fmt::Display for ThreeDigits {
    ghost output = { λ n. Some (digits_3 n.0) };

    fn fmt<W: fmt::Write>(&self, f: &mut fmt::Formatter<W>) -> fmt::Result {
        let (hundreds, tens, ones) = (self.0 / 100 % 10, self.0 / 10 % 10, self.0 % 10);
        write!(f, "{hundreds}{tens}{ones}")
    }
}

/// A number's last four decimal digits.
#[derive(Clone, Copy)]
pub(crate) struct FourDigits(pub(crate) u64);

#[tactic(auto, unfolding(crate::specs::Times::digits_4))]
impl fmt::Display for FourDigits {
    ghost output = { λ n. Some (digits_4 n.0) };

    fn fmt<W: fmt::Write>(&self, f: &mut fmt::Formatter<W>) -> fmt::Result {
        let (thousands, hundreds) = (self.0 / 1_000 % 10, self.0 / 100 % 10);
        let (tens, ones) = (self.0 / 10 % 10, self.0 % 10);
        write!(f, "{thousands}{hundreds}{tens}{ones}")
    }
}
