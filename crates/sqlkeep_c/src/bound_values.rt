//! Values that are bound to the question marks of a template, in their order.
ghost use Rattle.std.specs.Prelude.{◌≡◌, ◌≢◌, ◌∷◌, ◌++◌, []};
ghost use Rattle.iv_value.specs.declared.value.Value.TheVariants as value;
ghost use Rattle.sqlkeep_c.specs.Calls.{Called};
ghost use Rattle.sqlkeep_c.specs.Statuses.{IsStatus, IsStatusOfText, status_if_open};

use crate::handle::{Handle, put, take};
use iv_connection::{bind, bind_text};
use iv_shown::{CLOSED, NOT_UTF8, OK};
use iv_value::{Value, text};
use sqlite_items::Items;
use std::alloc::Global;
use std::str::from_utf8;

/// Forgets the values that are bound.
#[unsafe(no_mangle)]
pub extern "C" fn sqlkeep_unbind(alloc: Global, handle: &mut Handle) -> u32
    ensures values { Called handle.old.kept.behind handle.new.kept.behind (λ old new.
        new.values ≡ []) }
    ensures rest { Called handle.old.kept.behind handle.new.kept.behind (λ old new.
        new ≡ record old { values = new.values }) }
    ensures status { result ≡ status_if_open handle.old.kept.behind }
{
    let Some(mut connection) = take(handle, alloc) else {
        return CLOSED;
    };
    connection.values = Items::new(alloc);
    put(handle, connection);
    OK
}

/// Binds NULL after the values that are bound.
#[unsafe(no_mangle)]
pub extern "C" fn sqlkeep_bind_null(alloc: Global, handle: &mut Handle) -> u32
    ensures values { Called handle.old.kept.behind handle.new.kept.behind (λ old new.
        result ≡ OK → new.values ≡ old.values ++ value.Null ∷ []) }
    ensures rest { Called handle.old.kept.behind handle.new.kept.behind (λ old new.
        new ≡ record old { values = new.values }) }
    ensures others { result ≢ OK → handle.new.kept.behind ≡ handle.old.kept.behind }
    ensures status { IsStatus handle.old.kept.behind result }
{
    let Some(mut connection) = take(handle, alloc) else {
        return CLOSED;
    };
    let status = bind(&mut connection, Value::Null);
    put(handle, connection);
    status
}

/// Binds an integer after the values that are bound.
#[unsafe(no_mangle)]
pub extern "C" fn sqlkeep_bind_integer(alloc: Global, handle: &mut Handle, integer: i64) -> u32
    ensures values { Called handle.old.kept.behind handle.new.kept.behind (λ old new.
        result ≡ OK → new.values ≡ old.values ++ value.Int integer ∷ []) }
    ensures rest { Called handle.old.kept.behind handle.new.kept.behind (λ old new.
        new ≡ record old { values = new.values }) }
    ensures others { result ≢ OK → handle.new.kept.behind ≡ handle.old.kept.behind }
    ensures status { IsStatus handle.old.kept.behind result }
{
    let Some(mut connection) = take(handle, alloc) else {
        return CLOSED;
    };
    let status = bind(&mut connection, Value::Int(integer));
    put(handle, connection);
    status
}

/// Binds a text after the values that are bound.
#[unsafe(no_mangle)]
pub extern "C" fn sqlkeep_bind_text(alloc: Global, handle: &mut Handle, text: &[u8]) -> u32
    ensures values { Called handle.old.kept.behind handle.new.kept.behind (λ old new.
        result ≡ OK → new.values ≡ old.values ++ value.Text text.now ∷ []) }
    ensures rest { Called handle.old.kept.behind handle.new.kept.behind (λ old new.
        new ≡ record old { values = new.values }) }
    ensures others { result ≢ OK → handle.new.kept.behind ≡ handle.old.kept.behind }
    ensures status { IsStatusOfText handle.old.kept.behind text.now result }
{
    let Some(mut connection) = take(handle, alloc) else {
        return CLOSED;
    };
    let status = match from_utf8(text) {
        Ok(characters) => bind_text(alloc, &mut connection, characters),
        Err(_) => NOT_UTF8,
    };
    put(handle, connection);
    status
}
