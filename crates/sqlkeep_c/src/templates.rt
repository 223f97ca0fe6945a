//! The statements of a template, with the values that are bound in place of its question marks.
ghost use Rattle.std.specs.Prelude.{◌≡◌, ◌≢◌, None, [], length};
ghost use Rattle.sqlkeep_c.specs.Calls.{Called};
ghost use Rattle.iv_connection.specs.Templates.{IsReadOfTemplate};
ghost use Rattle.sqlkeep_c.specs.Statuses.{IsStatusOfTemplate};

use crate::handle::{Handle, put, take};
use iv_connection::{ReadScript, keep_parsed, parse_template, read_shown};
use iv_shown::{CLOSED, OK};
use sqlite_items::Items;
use std::alloc::Global;

/// Reads the statements of a template with the values that are bound in place of its question marks, keeps them, and
/// forgets the values.
#[unsafe(no_mangle)]
pub extern "C" fn sqlkeep_read_bound(
    alloc: Global,
    handle: &mut Handle,
    template: &[u8],
    script: &mut ReadScript,
) -> u32
    ensures script { Called handle.old.kept.behind handle.new.kept.behind (λ old new.
        result ≡ OK → IsReadOfTemplate template.now old.values new.statements new.fault script.new) }
    ensures text { Called handle.old.kept.behind handle.new.kept.behind (λ old new.
        result ≡ OK → new.text ≡ record { text = template.now; holes = length old.values }) }
    ensures values { Called handle.old.kept.behind handle.new.kept.behind (λ old new.
        result ≡ OK → new.values ≡ []) }
    ensures rest { Called handle.old.kept.behind handle.new.kept.behind (λ old new. result ≡ OK
        → new ≡ record old {
          statements = new.statements;
          fault = new.fault;
          text = new.text;
          executed = None;
          values = new.values;
        }) }
    ensures others { result ≢ OK → (handle.new.kept.behind ≡ handle.old.kept.behind)
        × (script.new ≡ script.old) }
    ensures status { IsStatusOfTemplate handle.old.kept.behind template.now result }
{
    let Some(mut connection) = take(handle, alloc) else {
        return CLOSED;
    };
    match parse_template(alloc, template, connection.values.as_slice()) {
        Ok(parsed) => {
            *script = read_shown(parsed.statements.len(), parsed.fault);
            keep_parsed(&mut connection, parsed);
            connection.values = Items::new(alloc);
            put(handle, connection);
            OK
        }
        Err(status) => {
            put(handle, connection);
            status
        }
    }
}
