//! Whether a trigger may fire at all.
ghost use Rattle.std.specs.Prelude.{◌≡◌, List, [], false};
ghost use Rattle.std.specs.List.{list_any};
ghost use Rattle.iv_expr.specs.declared.wave.TableColumn.{TableColumn as Named};
ghost use Rattle.iv_machine.specs.declared.database.Database.{Database};
ghost use Rattle.iv_machine.specs.Levels.{firings};
ghost use Rattle.iv_machine.specs.Waves.{net_wave};
ghost use Rattle.iv_laws_levels.specs.FittingWaves.{Chain};
ghost use Rattle.iv_exec_context.specs.Triggered.{some_have_triggers};
ghost use Rattle.iv_exec_triggers.specs.MayFire.{may_fire};

use crate::matching::table_of;
use iv_catalogue::DataStatement;
use iv_exec_context::Context;
use iv_expr::Wave;

// Whether a trigger is on a table that a wave changes.
fn has_trigger_on(context: &Context<'_>, wave: &Wave) -> bool
    ensures { result ≡ some_have_triggers context.now.schema.triggers wave.now.changes }
{
    context.has_trigger_on(wave.changes())
}

// Whether a trigger is on a table that one of these waves changes.
fn some_have_triggers(context: &Context<'_>, waves: &[Wave]) -> bool
    ensures { result ≡ list_any
        (λ w. some_have_triggers context.now.schema.triggers w.changes) waves.now }
{
    waves.iter().any(|wave| has_trigger_on(context, wave))
}

/// Whether a trigger is on the table of a statement, or on one that its waves change. If none is, no AFTER trigger
/// fires, and the net changes needn't be made. It takes one look at each change.
pub fn may_fire(context: &Context<'_>, statement: &DataStatement, waves: &[Wave]) -> bool
    ensures value { result ≡ may_fire context.now statement.now waves.now }
    ensures quiet { result ≡ false → (columns : List Named) (db last : Database)
        → Chain db waves.now last
        → firings context.now statement.now columns (net_wave db.rows last.rows waves.now) ≡ [] }
{
    context.has_trigger(table_of(statement)) || some_have_triggers(context, waves)
}
