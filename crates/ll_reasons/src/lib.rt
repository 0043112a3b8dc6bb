//! What explains a fault to whoever runs the program: the lines that follow its name on standard error. No contract speaks of their words.
#![tactic(auto)]

mod advice;
mod beginning;
mod channel_line;
mod failure;
mod keyword;
mod push_words;
mod refusal;
mod settings;
mod words;

pub use beginning::Beginning;
pub use failure::Failure;
pub use push_words::PushReason;
pub use refusal::RefusalAdvice;
pub use settings::SettingsReason;
pub use words::WordsReason;
