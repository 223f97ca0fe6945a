//! Templates filled with values.
ghost use Rattle.std.specs.Prelude.{◌≡◌, IfOk, IfErr, string_bytes};
ghost use Rattle.iv_template.specs.Templates.{Fills};
ghost use Rattle.iv_template.specs.Holes.{IsRefused};
ghost use Rattle.iv_template.specs.Places.{filled_text};

use crate::counting::count_holes;
use crate::fault::FillFault;
use crate::holes::next_hole;
use crate::writing::push_filled;
use iv_value::Value;
use std::alloc::Global;

/// The template with the literals of the values in place of its question marks, with a space on each side of each. A
/// question mark in a text or a comment is none of them. It takes time in proportion to the template and the values.
pub fn filled(alloc: Global, template: &str, values: &[Value]) -> Result<String, FillFault>
    ensures filled { IfOk result (λ text. Fills template.now values.now (string_bytes text)) }
    ensures bytes { IfOk result (λ text. string_bytes text ≡ filled_text template.now values.now) }
    ensures refused { IfErr result (IsRefused template.now values.now) }
{
    let mut text = String::new(alloc);
    let mut rest = template;
    let mut left = values;
    while let Some((front, after)) = next_hole(alloc, rest, template.len() - rest.len())? {
        let Some((value, others)) = left.split_first() else {
            let more = count_holes(alloc, after, template.len() - after.len())?;
            return Err(FillFault::WrongCount(values.len() + 1 + more, values.len()));
        };
        push_filled(alloc, &mut text, front, value)?;
        rest = after;
        left = others;
    }
    if !left.is_empty() {
        return Err(FillFault::WrongCount(values.len() - left.len(), values.len()));
    }
    text.push_str(rest)?;
    Ok(text)
}
