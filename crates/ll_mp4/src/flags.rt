//! The flags of `tfhd` and `trun` boxes and of samples.

/// Flag of a track fragment's header (section 8.8.7): the base data offset is present.
pub(crate) const BASE_OFFSET: u32 = 0x00_0001;
/// The index of a sample description is present.
pub(crate) const DESCRIPTION: u32 = 0x00_0002;
/// The default duration of samples is present.
pub(crate) const DEFAULT_DURATION: u32 = 0x00_0008;
/// The default size of samples is present.
pub(crate) const DEFAULT_SIZE: u32 = 0x00_0010;
/// The default flags of samples are present.
pub(crate) const DEFAULT_FLAGS: u32 = 0x00_0020;

/// Flag of a run (section 8.8.8): the offset of its data is present.
pub(crate) const DATA_OFFSET: u32 = 0x00_0001;
/// The flags of the first sample alone are present.
pub(crate) const FIRST_FLAGS: u32 = 0x00_0004;
/// Each sample has its duration.
pub(crate) const DURATION: u32 = 0x00_0100;
/// Each sample has its size.
pub(crate) const SIZE: u32 = 0x00_0200;
/// Each sample has its flags.
pub(crate) const FLAGS: u32 = 0x00_0400;
/// Each sample has its composition offset.
pub(crate) const OFFSET: u32 = 0x00_0800;

/// Flag of a sample (section 8.8.3.1): it isn't a sync sample.
pub(crate) const NON_SYNC: u32 = 0x0001_0000;
