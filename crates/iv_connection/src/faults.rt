//! What C reads of the fault of a text.
ghost use Rattle.std.specs.Prelude.{◌≡◌};
ghost use Rattle.iv_connection.specs.Statements.{fault_shown, word_end};

use iv_lex::Token;
use iv_parse::SyntaxFault;

/// Where a text has its fault. Places are bytes of it, from 0.
#[repr(C)]
#[derive(Drop)]
pub struct ShownFault {
    /// Where the statement begins that isn't one.
    pub at: u64,
    /// Where the first word begins that can't stand where it does; the text's end where more should follow.
    pub word: u64,
    /// Where that word ends; where it begins, if no token begins there.
    pub end: u64,
    /// 1 where the text ends within the statement, and otherwise 0.
    pub is_cut: u64,
}

fn word_end(word: usize, token: Option<Token>) -> usize
    ensures { result ≡ word_end word token }
{
    match token {
        Some(token) => token.end,
        None => word,
    }
}

/// A fault in the numbers that C reads.
pub fn fault_shown(fault: &SyntaxFault) -> ShownFault
    ensures { result ≡ fault_shown fault.now }
{
    ShownFault {
        at: fault.at as u64,
        word: fault.word as u64,
        end: word_end(fault.word, fault.token) as u64,
        is_cut: u64::from(fault.is_cut),
    }
}
