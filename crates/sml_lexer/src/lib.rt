//! The tokens of Standard ML's Core: section 2 of The Definition of Standard ML (Revised), in this compiler's profile.
//!
//! It stands on `smlc_base` alone. Its main contract: `tokens` answers exactly the tokens of the definition in
//! `specs/Tokens.antt` and `specs/Files.antt`, or exactly the first refusal, or want of memory.
//!
//! `specs/` has the definition (`Bytes`, `Numbers`, `Reserved`, `Quoted`, `Spellings`, `Meanings`, `Gaps`, `Places`,
//! `Tokens`, `Files`), what ties the program's tokens to it (`Shown`, `Cited`, `Programs`), and what the scan answers
//! (`PlainScan`, `QuotedScan`, `CommentScan` and the rest), which the definition doesn't know.
#![tactic(auto)]

mod bytes;
mod comment;
mod draft;
mod files;
mod integer;
mod laws;
mod lexed;
mod place;
mod plain;
mod quoted;
mod reserved;
mod step;
mod store;
mod token;

pub use files::tokens;
pub use laws::one_reading;
pub use lexed::Lexed;
pub use reserved::Reserved;
pub use token::{Token, TokenKind};
