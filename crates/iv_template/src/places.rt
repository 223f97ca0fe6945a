//! Places of a filled text in its template.
ghost use Rattle.std.specs.Prelude.{◌≡◌, ◌≤◌, None, IfOk, MatchOption, length, string_bytes};
ghost use Rattle.iv_template.specs.Holes.{IsHole};
ghost use Rattle.iv_template.specs.Places.{blanked, filled_length, template_place};
ghost use Rattle.iv_template.specs.Templates.{fault_of};

use crate::holes::next_hole;
use crate::writing::push_filled;
use iv_value::Value;
use std::alloc::{AllocError, Global};

// The characters before the first hole of a text and those after it, and none where it has no hole.
fn hole(alloc: Global, text: &str) -> Result<Option<(&str, &str)>, AllocError>
    ensures { IfOk result (λ o. MatchOption o (fault_of text.now ≡ None) (λ p. IsHole text.now p.0.now p.1.now)) }
{
    match next_hole(alloc, text, 0) {
        Ok(hole) => Ok(hole),
        Err(_) => Err(AllocError),
    }
}

// How many bytes the characters before a hole and what is written for it have.
fn filled_length(alloc: Global, front: &str, value: &Value) -> Result<usize, AllocError>
    ensures { IfOk result (λ count. count ≡ filled_length (length front.now) value.now) }
{
    let mut text = String::new(alloc);
    push_filled(alloc, &mut text, front, value)?;
    Ok(text.len())
}

/// The place in a template of a byte of the text that is the template filled with these values. All bytes of what is
/// written for a question mark have the place of the question mark. It takes time in proportion to the template and the
/// values.
pub fn template_place(
    alloc: Global,
    template: &str,
    values: &[Value],
    place: usize,
) -> Result<usize, AllocError>
    ensures place { IfOk result (λ found. found ≡ template_place template.now values.now place) }
    ensures before { IfOk result (λ found. found ≤ place) }
{
    let mut rest = template;
    let mut left = values;
    let mut at = place;
    while let Some((value, others)) = left.split_first() {
        let base = template.len() - rest.len();
        let Some((front, after)) = hole(alloc, rest)? else {
            return Ok(base + at);
        };
        let filled = filled_length(alloc, front, value)?;
        if at < filled {
            return Ok(base + at.min(front.len()));
        }
        at -= filled;
        rest = after;
        left = others;
    }
    Ok(template.len() - rest.len() + at)
}

/// The template with a space in place of each of its first question marks, so many of them.
pub fn blanked(alloc: Global, template: &str, holes: usize) -> Result<String, AllocError>
    ensures { IfOk result (λ text. string_bytes text ≡ blanked template.now holes) }
{
    let mut text = String::new(alloc);
    let mut rest = template;
    let mut left = holes;
    while left > 0 {
        let Some((front, after)) = hole(alloc, rest)? else {
            text.push_str(rest)?;
            return Ok(text);
        };
        text.push_str(front)?;
        text.push_str(" ")?;
        rest = after;
        left -= 1;
    }
    text.push_str(rest)?;
    Ok(text)
}
