//! The statements of a template, with the values that are bound in place of its question marks.
ghost use Rattle.std.specs.Prelude.{◌≡◌, IfErr, IfOk, IfSome, OnOk, List, ℕ, Option, length, option_map, string_bytes};
ghost use Rattle.iv_parse.specs.Script.{IsFault, IsScript};
ghost use Rattle.iv_parse.specs.declared.parser.SyntaxFault.{SyntaxFault};
ghost use Rattle.iv_template.specs.Holes.{IsRefused};
ghost use Rattle.iv_template.specs.Places.{filled_text};
ghost use Rattle.iv_template.specs.Templates.{Fills};
ghost use Rattle.iv_value.specs.declared.value.Value.{Value};
ghost use Rattle.iv_connection.specs.TemplateFaults.{template_fault};
ghost use Rattle.iv_connection.specs.Templates.{IsScriptOfTemplate, WhyNotFilled, WhyNotRead};

use crate::statements::{ParsedText, source_text};
use crate::template_faults::template_fault;
use iv_parse::script;
use iv_shown::{NO_MEMORY, NO_TEMPLATE, NOT_UTF8, WRONG_COUNT};
use iv_template::{FillFault, filled};
use iv_value::Value;
use std::alloc::{AllocError, Global};
use std::str::from_utf8;

fn fill_status(fault: FillFault) -> u32
    ensures { (template : List ℕ) (values : List Value) → IsRefused template values fault → WhyNotFilled template values result }
{
    match fault {
        FillFault::NoMemory => NO_MEMORY,
        FillFault::NoToken(_) => NO_TEMPLATE,
        FillFault::WrongCount(_, _) => WRONG_COUNT,
    }
}

// The template with the values in place of its question marks, or the status of the call that wanted it.
fn filled_text(alloc: Global, template: &str, values: &[Value]) -> Result<String, u32>
    ensures filled { OnOk result (Fills template.now values.now (filled_text template.now values.now)) }
    ensures bytes { IfOk result (λ text. string_bytes text ≡ filled_text template.now values.now) }
    ensures refused { IfErr result (WhyNotFilled template.now values.now) }
{
    match filled(alloc, template, values) {
        Ok(text) => Ok(text),
        Err(fault) => Err(fill_status(fault)),
    }
}

// The statements of the text that is the template filled with the values.
fn parsed(
    alloc: Global,
    template: &str,
    values: &[Value],
    text: &str,
) -> Result<ParsedText, AllocError>
    ensures script { IfOk result (λ p. (found : Option SyntaxFault)
        × IsScript text.now p.statements (option_map (λ f. f.at) found)
        × IfSome found (λ f. IsFault text.now p.statements f)
        × (p.fault ≡ option_map (template_fault template.now values.now) found)) }
    ensures text { IfOk result (λ p. p.text ≡ record { text = template.now; holes = length values.now }) }
{
    let source = source_text(alloc, template, values.len())?;
    let parsed = script(alloc, text)?;
    let fault = template_fault(alloc, template, values, parsed.fault)?;
    Ok(ParsedText {
        statements: parsed.into_statements(),
        fault,
        text: source,
    })
}

/// The statements of the template with the values in place of its question marks, or the status of the call that wanted them.
pub fn parse_template(alloc: Global, template: &[u8], values: &[Value]) -> Result<ParsedText, u32>
    ensures script { IfOk result (λ p. IsScriptOfTemplate template.now values.now p.statements p.fault) }
    ensures text { IfOk result (λ p. p.text ≡ record { text = template.now; holes = length values.now }) }
    ensures refused { IfErr result (WhyNotRead template.now values.now) }
{
    let Ok(template) = from_utf8(template) else {
        return Err(NOT_UTF8);
    };
    let text = filled_text(alloc, template, values)?;
    match parsed(alloc, template, values, text.as_str()) {
        Ok(parsed) => Ok(parsed),
        Err(_) => Err(NO_MEMORY),
    }
}
