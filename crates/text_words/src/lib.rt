//! Words, numbers and addresses in text: what the readers of scripts and of files have in common.
//!
//! A text is bytes. [`next_word`] takes its words one after another, and [`cut_at`] cuts it at a
//! byte. [`number_up_to`], [`decimal_up_to`], [`hex_up_to`] and [`address_of`] read what
//! one word spells. No call takes memory.
#![tactic(auto)]

mod address;
mod blanks;
mod digits;
mod number;
mod parts;
mod word;

pub use address::address_of;
pub use blanks::Blanks;
pub use number::{decimal_up_to, hex_up_to, number_up_to};
pub use parts::cut_at;
pub use word::{after_words, next_word, word_len};
