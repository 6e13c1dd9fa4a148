//! The tokens of the source language, a profile of ISO C (ISO/IEC 9899, section 6.4).
#![tactic(auto)]

mod bytes;
mod front;
mod kinds;
mod laws;
mod scanner;
mod signs;
mod words;

pub use kinds::{Kind, Token, TokenError};
pub use laws::{plain_text_reads_back, tokens_are_in_form};
pub use scanner::tokens;
pub use signs::Sign;
pub use words::Word;
