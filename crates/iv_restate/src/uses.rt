//! Which row variables and transition tables a trigger names.
use iv_catalogue::{BodyStatement, DataStatement, InsertRows, Outputs, Setting, Trigger};
use iv_expr::{Cond, Expr, Range, Side};
use iv_syntax::TransitionName;
use sqlite_items::Items;

/// The old or the new row, or the old or the new table.
#[derive(Clone, Copy)]
pub struct Item {
    pub side: Side,
    pub what: TransitionName,
}

fn names_row(item: Item, side: Side) -> bool {
    item.what == TransitionName::Row && item.side == side
}

fn names_table(item: Item, range: Range) -> bool {
    match range {
        Range::Table(_) => false,
        Range::Transition(side) => item.what == TransitionName::Table && item.side == side,
    }
}

fn in_expr(item: Item, expr: &Expr) -> bool {
    match expr {
        Expr::Literal(_) => false,
        Expr::Column(_, _) => false,
        Expr::Variable(side, _) => names_row(item, *side),
        Expr::Plus(a, b) => in_expr(item, a.get()) | in_expr(item, b.get()),
        Expr::Minus(a, b) => in_expr(item, a.get()) | in_expr(item, b.get()),
        Expr::Times(a, b) => in_expr(item, a.get()) | in_expr(item, b.get()),
    }
}

fn in_cond(item: Item, cond: &Cond) -> bool {
    match cond {
        Cond::Always => false,
        Cond::Compare(_, a, b) => in_expr(item, a) | in_expr(item, b),
        Cond::IsNull(a) => in_expr(item, a),
        Cond::Not(a) => in_cond(item, a.get()),
        Cond::And(a, b) => in_cond(item, a.get()) | in_cond(item, b.get()),
        Cond::Or(a, b) => in_cond(item, a.get()) | in_cond(item, b.get()),
        Cond::Exists(range, a) => names_table(item, *range) | in_cond(item, a.get()),
    }
}

fn in_exprs(item: Item, exprs: &[Expr]) -> bool {
    exprs.iter().any(|expr| in_expr(item, expr))
}

fn in_tuples(item: Item, tuples: &[Items<Expr>]) -> bool {
    tuples.iter().any(|tuple| in_exprs(item, tuple.as_slice()))
}

fn in_outputs(item: Item, outputs: &Outputs) -> bool {
    match outputs {
        Outputs::Star => false,
        Outputs::Values(values) => in_exprs(item, values.as_slice()),
    }
}

fn in_rows(item: Item, rows: &InsertRows) -> bool {
    match rows {
        InsertRows::Values(tuples) => in_tuples(item, tuples.as_slice()),
        InsertRows::Query {
            outputs,
            range,
            filter,
        } => in_outputs(item, outputs) | names_table(item, *range) | in_cond(item, filter),
    }
}

fn in_settings(item: Item, settings: &[Setting]) -> bool {
    settings.iter().any(|setting| in_expr(item, &setting.value))
}

fn in_data(item: Item, statement: &DataStatement) -> bool {
    match statement {
        DataStatement::Insert { rows, .. } => in_rows(item, rows),
        DataStatement::Update {
            settings,
            filter,
            ..
        } => in_settings(item, settings.as_slice()) | in_cond(item, filter),
        DataStatement::Delete { filter, .. } => in_cond(item, filter),
    }
}

// SET names the row variable NEW.
fn in_statement(item: Item, statement: &BodyStatement) -> bool {
    match statement {
        BodyStatement::Data(data) => in_data(item, data),
        BodyStatement::Signal(_) => false,
        BodyStatement::Set(setting) => {
            names_row(item, Side::New) | in_expr(item, &setting.value)
        }
    }
}

/// Whether the condition or the body of a trigger names it.
pub fn is_named(item: Item, trigger: &Trigger) -> bool {
    in_cond(item, &trigger.when)
        | trigger
            .body
            .as_slice()
            .iter()
            .any(|statement| in_statement(item, statement))
}
