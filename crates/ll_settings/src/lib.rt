//! The settings of a channel, the line that spells them, and channels by their names. Sections are those of draft-pantos-hls-rfc8216bis.
#![tactic(auto)]

mod channels;
mod limits;
mod name;
mod settings;
mod settings_line;

pub use channels::Channels;
pub use limits::limits_law;
pub use name::is_name;
pub use settings::{Settings, SettingsFault};
