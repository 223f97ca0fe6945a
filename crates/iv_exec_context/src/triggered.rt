//! Which tables have triggers.
ghost use Rattle.std.specs.Prelude.{◌≡◌, ℕ, ◌<◌, ◌==◌, ◌||◌, false, get_or};
ghost use Rattle.iv_catalogue.specs.declared.limits.TheConstants.{MOST_TABLES};
ghost use Rattle.iv_exec_context.specs.Triggered.{AreFlagged, has_trigger};

use iv_catalogue::{MOST_TABLES, Trigger};
use iv_expr::TableId;

// Flags a table, if it is one that a database may have.
fn flag(flags: &mut [bool; MOST_TABLES], table: TableId)
    ensures { (other : ℕ) → other < MOST_TABLES
        → get_or flags.new other false ≡ ((table == other) || get_or flags.old other false) }
{
    let place = table.place() as usize;
    if place < MOST_TABLES {
        flags[place] = true;
    }
}

// Flags the tables of the triggers.
fn flag_all(flags: &mut [bool; MOST_TABLES], triggers: &[Trigger])
    ensures { (table : ℕ) → table < MOST_TABLES
        → get_or flags.new table false ≡ (has_trigger triggers.now table || get_or flags.old table false) }
{
    match triggers {
        [] => {}
        [trigger, rest @ ..] => {
            flag_all(flags, rest);
            flag(flags, trigger.table);
        }
    }
}

/// For each table whether a trigger is on it.
pub fn flags_of(triggers: &[Trigger]) -> [bool; MOST_TABLES]
    ensures { AreFlagged triggers.now result }
{
    let mut flags = [false; MOST_TABLES];
    flag_all(&mut flags, triggers);
    flags
}

/// Whether a trigger is on the table.
pub fn has_trigger(flags: &[bool; MOST_TABLES], triggers: &[Trigger], table: TableId) -> bool
    requires { AreFlagged triggers.now flags.now }
    ensures { result ≡ has_trigger triggers.now table }
{
    let place = table.place() as usize;
    if place < MOST_TABLES {
        return flags[place];
    }
    triggers
        .iter()
        .any(|trigger| trigger.table.place() == table.place())
}
