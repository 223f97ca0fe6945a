//! Values that are bound to the question marks of a template, in their order.
ghost use Rattle.std.specs.Prelude.{◌≡◌, ◌≢◌, ◌∷◌, ◌++◌, []};
ghost use Rattle.iv_value.specs.declared.value.Value.TheVariants as value;
ghost use Rattle.iv_shown.specs.Statuses.{MayWantMemory};

use iv_shown::{Connection, NO_MEMORY, OK};
use iv_value::{Value, text};
use std::alloc::Global;

/// Binds this value after those that are bound.
pub fn bind(connection: &mut Connection, value: Value) -> u32
    ensures bound { result ≡ OK → connection.new.values ≡ connection.old.values ++ value ∷ [] }
    ensures rest { connection.new ≡ record connection.old { values = connection.new.values } }
    ensures others { result ≢ OK → connection.new ≡ connection.old }
    ensures status { MayWantMemory result }
{
    match connection.values.push(value) {
        Ok(()) => OK,
        Err(_) => NO_MEMORY,
    }
}

/// Binds this text after the values that are bound.
pub fn bind_text(alloc: Global, connection: &mut Connection, characters: &str) -> u32
    ensures bound { result ≡ OK → connection.new.values ≡ connection.old.values ++ value.Text characters.now ∷ [] }
    ensures rest { connection.new ≡ record connection.old { values = connection.new.values } }
    ensures others { result ≢ OK → connection.new ≡ connection.old }
    ensures status { MayWantMemory result }
{
    match text(alloc, characters) {
        Ok(value) => bind(connection, value),
        Err(_) => NO_MEMORY,
    }
}
