//! The types of the boxes that are read.
ghost use Rattle.std.specs.Prelude.{◌≡◌};
ghost use Rattle.ll_mp4.specs.Kinds.{code, name};

use std::fmt;

/// The type of a box that is read.
#[derive(Clone, Copy, Debug)]
pub enum Kind {
    /// The movie, with which its unit ends (section 8.2.1).
    Moov,
    /// A track (section 8.3.1).
    Trak,
    /// A track's header, with its ID (section 8.3.2).
    Tkhd,
    /// A track's media (section 8.4.1).
    Mdia,
    /// A media header, with its time scale (section 8.4.2).
    Mdhd,
    /// The defaults of a movie's fragments (section 8.8.1).
    Mvex,
    /// The defaults of a track's fragments (section 8.8.3).
    Trex,
    /// A movie fragment (section 8.8.4).
    Moof,
    /// A track's fragment (section 8.8.6).
    Traf,
    /// A track fragment's header (section 8.8.7).
    Tfhd,
    /// A run of samples (section 8.8.8).
    Trun,
    /// Samples, with which a fragment's unit ends (section 8.1.1).
    Mdat,
    /// A handler, with the type of a track's media (section 8.4.3).
    Hdlr,
    /// A track fragment's decode time (section 8.8.12).
    Tfdt,
    /// An index of segments (section 8.16.3).
    Sidx,
    /// An index of fragments (section 8.8.9).
    Mfra,
    /// The time at which a fragment was made (section 8.16.5).
    Prft,
    /// An event (ISO/IEC 23009-1, section 5.10.3.3).
    Emsg,
}

impl Kind {
    /// Returns the four bytes of the type as a big-endian number.
    #[tactic(auto, unfolding(crate::specs::Kinds::code))]
    pub fn code(self) -> u32
        ensures { result ≡ code self }
    {
        match self {
            Kind::Moov => 0x6d6f_6f76,
            Kind::Trak => 0x7472_616b,
            Kind::Tkhd => 0x746b_6864,
            Kind::Mdia => 0x6d64_6961,
            Kind::Mdhd => 0x6d64_6864,
            Kind::Mvex => 0x6d76_6578,
            Kind::Trex => 0x7472_6578,
            Kind::Moof => 0x6d6f_6f66,
            Kind::Traf => 0x7472_6166,
            Kind::Tfhd => 0x7466_6864,
            Kind::Trun => 0x7472_756e,
            Kind::Mdat => 0x6d64_6174,
            Kind::Hdlr => 0x6864_6c72,
            Kind::Tfdt => 0x7466_6474,
            Kind::Sidx => 0x7369_6478,
            Kind::Mfra => 0x6d66_7261,
            Kind::Prft => 0x7072_6674,
            Kind::Emsg => 0x656d_7367,
        }
    }

    /// Returns the four characters of the type.
    pub fn name(self) -> &'static str
        ensures { result.now ≡ name self }
    {
        match self {
            Kind::Moov => "moov",
            Kind::Trak => "trak",
            Kind::Tkhd => "tkhd",
            Kind::Mdia => "mdia",
            Kind::Mdhd => "mdhd",
            Kind::Mvex => "mvex",
            Kind::Trex => "trex",
            Kind::Moof => "moof",
            Kind::Traf => "traf",
            Kind::Tfhd => "tfhd",
            Kind::Trun => "trun",
            Kind::Mdat => "mdat",
            Kind::Hdlr => "hdlr",
            Kind::Tfdt => "tfdt",
            Kind::Sidx => "sidx",
            Kind::Mfra => "mfra",
            Kind::Prft => "prft",
            Kind::Emsg => "emsg",
        }
    }
}

impl fmt::Display for Kind {
    ghost use Rattle.std.specs.Prelude.{Some};
    ghost use Rattle.ll_mp4.specs.Kinds.{name};

    ghost output = { λ kind. Some (name kind) };

    fn fmt<W: fmt::Write>(&self, f: &mut fmt::Formatter<W>) -> fmt::Result {
        f.write_str(self.name())
    }
}
