//! The fault of a filled text, in bytes of its template.
ghost use Rattle.std.specs.Prelude.{◌≡◌, IfOk, option_map};
ghost use Rattle.iv_connection.specs.TemplateFaults.{template_end, template_fault, template_token};

use iv_lex::Token;
use iv_parse::SyntaxFault;
use iv_template::template_place;
use iv_value::Value;
use std::alloc::{AllocError, Global};

fn template_end(
    alloc: Global,
    template: &str,
    values: &[Value],
    end: usize,
) -> Result<usize, AllocError>
    ensures { IfOk result (λ e. e ≡ template_end template.now values.now end) }
{
    if end == 0 {
        return Ok(0);
    }
    let last = template_place(alloc, template, values, end - 1)?;
    Ok(last + 1)
}

fn template_token(
    alloc: Global,
    template: &str,
    values: &[Value],
    token: Token,
) -> Result<Token, AllocError>
    ensures { IfOk result (λ t. t ≡ template_token template.now values.now token) }
{
    let start = template_place(alloc, template, values, token.start)?;
    let end = template_end(alloc, template, values, token.end)?;
    Ok(Token {
        kind: token.kind,
        start,
        end,
    })
}

fn token_there(
    alloc: Global,
    template: &str,
    values: &[Value],
    token: Option<Token>,
) -> Result<Option<Token>, AllocError>
    ensures { IfOk result (λ t. t ≡ option_map (template_token template.now values.now) token) }
{
    match token {
        Some(token) => Ok(Some(template_token(alloc, template, values, token)?)),
        None => Ok(None),
    }
}

fn fault_there(
    alloc: Global,
    template: &str,
    values: &[Value],
    fault: SyntaxFault,
) -> Result<SyntaxFault, AllocError>
    ensures { IfOk result (λ f. f ≡ template_fault template.now values.now fault) }
{
    let at = template_place(alloc, template, values, fault.at)?;
    let word = template_place(alloc, template, values, fault.word)?;
    let token = token_there(alloc, template, values, fault.token)?;
    let before = token_there(alloc, template, values, fault.before)?;
    Ok(SyntaxFault {
        at,
        word,
        token,
        before,
        is_cut: fault.is_cut,
        wanted: fault.wanted,
        too_deep: fault.too_deep,
    })
}

/// The fault of the text that is the template filled with these values, in bytes of the template. A word of a literal that
/// was filled in is the question mark.
pub fn template_fault(
    alloc: Global,
    template: &str,
    values: &[Value],
    fault: Option<SyntaxFault>,
) -> Result<Option<SyntaxFault>, AllocError>
    ensures { IfOk result (λ f. f ≡ option_map (template_fault template.now values.now) fault) }
{
    match fault {
        Some(fault) => Ok(Some(fault_there(alloc, template, values, fault)?)),
        None => Ok(None),
    }
}
