//! The holes of a template.
ghost use Rattle.std.specs.Prelude.{◌≡◌, ◌+◌, ◌<◌, ◌^◌, None, IfOk, IfErr, MatchOption, length};
ghost use Rattle.iv_template.specs.Templates.{fault_of};
ghost use Rattle.iv_template.specs.Holes.{IsHole, StopsBy};

use crate::fault::FillFault;
use iv_lex::tokens;
use std::alloc::Global;

/// The characters before the first hole of a text and those after it, and none where it has no hole. The text begins at
/// this byte of its template.
pub fn next_hole(alloc: Global, text: &str, from: usize) -> Result<Option<(&str, &str)>, FillFault>
    requires { from + length text.now < 2 ^ 64 }
    ensures hole { IfOk result (λ o. MatchOption o (fault_of text.now ≡ None) (λ p. IsHole text.now p.0.now p.1.now)) }
    ensures fault { IfErr result (StopsBy text.now from) }
{
    let lexed = tokens(alloc, text)?;
    let Some(place) = lexed.fault else {
        return Ok(None);
    };
    if text.as_bytes()[place] != b'?' {
        return Err(FillFault::NoToken(from + place));
    }
    Ok(Some((&text[..place], &text[place + 1..])))
}
