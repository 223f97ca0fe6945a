//! The tokens of a script.
#![tactic(auto)]

mod kind;
pub mod laws;
mod lexer;
mod reserved;
mod scan;
mod spelling;
mod token;
mod told;

pub use kind::TokenKind;
pub use lexer::{Lexed, tokens};
pub use spelling::{folded_text, unquoted_text};
pub use token::Token;
pub use told::kind_text;
