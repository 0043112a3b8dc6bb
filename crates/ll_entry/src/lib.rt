//! The entries of a channel's record, and the lines that spell them. Each entry has one event, and the outcome of its reply if there was
//! one; an item and the settings of a channel have lines that `ll_item` reads back. Lines that are written one after another make chunks
//! that a check finds right. Entries are written in format 2, and read in formats 1 and 2.
#![tactic(auto)]

mod entry;
mod fault;
mod frame;
mod laws;
mod reading;
mod settings;
mod version;
mod words;
mod writing;

pub use entry::{EntryFault, Recorded};
pub use fault::{CheckFault, CheckKind};
pub use frame::{LAST_LINE, header_text, place_in};
pub use laws::{
    blank_law, chunk_law, entry_law, entry_next_law, first_chunk_law, item_law, item_writable_law,
    next_law, nothing_law, settings_law,
};
pub use settings::settings_text;
pub use version::Version;
pub use writing::{ask_line, clock_line, close_line, collect_line, publish_line};
