//! Laws of tokens.
ghost use Rattle.iv_lex.specs.IsTokens.{FindsTokens, FindsAllTokens, TokensHaveCharacters};

/// The tokens of a text and its fault are the ones that the relation `IsTokens` gives: white space
/// and comments, then the longest token, and so on up to the end or to the fault.
pub fn tokens_of_a_text()
    ensures found { FindsTokens }
    ensures no_others { FindsAllTokens }
{}

/// No token of a text cuts a character.
pub fn characters_of_tokens()
    ensures { TokensHaveCharacters }
{}
