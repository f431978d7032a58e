// The text of a run: reads what is said to it, word by word, and writes what it replies.
#![tactic(auto)]

mod lines;
mod replies;
mod said;
mod unread;
mod words;

pub use replies::{add_level, add_reply, add_standing};
pub use unread::Unread;
pub use words::read_words;
