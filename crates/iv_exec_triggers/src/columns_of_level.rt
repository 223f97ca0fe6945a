//! The columns of a level: those of the SET list of its statement, and those of its waves.
ghost use Rattle.std.specs.Prelude.{◌≡◌, ◌==◌, ◌&&◌, ◌||◌, ℕ, IfOk, OnOk};
ghost use Rattle.iv_expr.specs.Changes.{names_column};
ghost use Rattle.iv_machine.specs.Levels.{level_columns};
ghost use Rattle.iv_exec_triggers.specs.Distinct.{EachOnce};

use crate::columns::set_columns;
use iv_catalogue::DataStatement;
use iv_expr::{TableColumn, Wave, names_column};
use std::alloc::{AllocError, Global};

// Adds a column, if it isn't among those that are there.
#[tactic(auto, using(crate::proofs::NamedColumns::once_more))]
fn add(columns: &mut Vec<TableColumn>, named: TableColumn) -> Result<(), AllocError>
    ensures named { OnOk result ((t c : ℕ) → names_column columns.new.items t c ≡
        (names_column columns.old.items t c || ((named.table == t) && (named.column == c)))) }
    ensures once { EachOnce columns.old.items → OnOk result (EachOnce columns.new.items) }
{
    if !names_column(columns.as_slice(), named.table, named.column) {
        columns.push(named)?;
    }
    Ok(())
}

fn add_all(columns: &mut Vec<TableColumn>, named: &[TableColumn]) -> Result<(), AllocError>
    ensures named { OnOk result ((t c : ℕ) → names_column columns.new.items t c ≡
        (names_column columns.old.items t c || names_column named.now t c)) }
    ensures once { EachOnce columns.old.items → OnOk result (EachOnce columns.new.items) }
{
    for column in named {
        add(columns, *column)?;
    }
    Ok(())
}

/// The columns of the level of a data statement with these waves, each once.
pub fn level_columns(
    alloc: Global,
    statement: &DataStatement,
    waves: &[Wave],
) -> Result<Vec<TableColumn>, AllocError>
    ensures named { IfOk result (λ columns. (t c : ℕ) → names_column columns.items t c
        ≡ names_column (level_columns statement.now waves.now) t c) }
    ensures once { IfOk result (λ columns. EachOnce columns.items) }
{
    let set = set_columns(alloc, statement)?;
    let mut columns = Vec::new(alloc);
    add_all(&mut columns, set.as_slice())?;
    for wave in waves {
        add_all(&mut columns, wave.columns())?;
    }
    Ok(columns)
}
