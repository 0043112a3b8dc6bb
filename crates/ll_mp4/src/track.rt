//! The tracks of a movie.

/// The time scale of a movie's track.
#[derive(Clone, Copy)]
pub struct TimeScale {
    /// The track's ID (section 8.3.2).
    pub id: u32,
    /// The number of ticks in a second (section 8.4.2), never 0.
    pub scale: u32,
}

/// A track as a movie lists it.
#[derive(Clone, Copy)]
pub(crate) struct Listed {
    pub(crate) scale: TimeScale,
    /// Whether it has pictures (section 8.4.3).
    pub(crate) is_video: bool,
}

/// A track with the defaults of its fragments.
#[derive(Clone, Copy)]
pub struct Track {
    /// Its ID (section 8.3.2).
    pub id: u32,
    /// The number of ticks in a second (section 8.4.2), never 0.
    pub scale: u32,
    /// The duration, in ticks, of a sample without its own (section 8.8.3).
    pub duration: u32,
    /// The flags of a sample without its own (section 8.8.3).
    pub flags: u32,
}
