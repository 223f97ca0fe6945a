//! Whether triggers are the same.
ghost use Rattle.std.specs.Prelude.{◌≡◌, true};
ghost use Rattle.iv_restore.specs.Restoring.{unnumbered};

use crate::same::{Same, are_same};
use iv_catalogue::{
    BodyStatement, DataStatement, InsertColumns, InsertRows, Outputs, Setting, Trigger,
};
use iv_expr::Expr;
use iv_value::Text;
use sqlite_items::Items;

impl Same for Text {
    #[tactic(auto, using(crate::proofs::Decided::name_is))]
    fn is_same(&self, other: &Text) -> bool {
        self.as_str() == other.as_str()
    }
}

impl Same for Items<Expr> {
    fn is_same(&self, other: &Items<Expr>) -> bool {
        are_same(self.as_slice(), other.as_slice())
    }
}

impl Same for Setting {
    fn is_same(&self, other: &Setting) -> bool {
        self.column == other.column && self.value.is_same(&other.value)
    }
}

impl Same for Outputs {
    fn is_same(&self, other: &Outputs) -> bool {
        match self {
            Outputs::Star => matches!(other, Outputs::Star),
            Outputs::Values(values) => match other {
                Outputs::Values(others) => values.is_same(others),
                _ => false,
            },
        }
    }
}

impl Same for InsertRows {
    fn is_same(&self, other: &InsertRows) -> bool {
        match self {
            InsertRows::Values(tuples) => match other {
                InsertRows::Values(others) => are_same(tuples.as_slice(), others.as_slice()),
                _ => false,
            },
            InsertRows::Query {
                outputs,
                range,
                filter,
            } => match other {
                InsertRows::Query {
                    outputs: other_outputs,
                    range: other_range,
                    filter: other_filter,
                } => {
                    outputs.is_same(other_outputs)
                        && *range == *other_range
                        && filter.is_same(other_filter)
                }
                _ => false,
            },
        }
    }
}

impl Same for InsertColumns {
    fn is_same(&self, other: &InsertColumns) -> bool {
        match self {
            InsertColumns::All => matches!(other, InsertColumns::All),
            InsertColumns::Listed(places) => match other {
                InsertColumns::Listed(others) => are_same(places.as_slice(), others.as_slice()),
                _ => false,
            },
        }
    }
}

impl Same for DataStatement {
    fn is_same(&self, other: &DataStatement) -> bool {
        match self {
            DataStatement::Insert {
                table,
                columns,
                rows,
            } => match other {
                DataStatement::Insert {
                    table: other_table,
                    columns: other_columns,
                    rows: other_rows,
                } => {
                    *table == *other_table
                        && columns.is_same(other_columns)
                        && rows.is_same(other_rows)
                }
                _ => false,
            },
            DataStatement::Update {
                table,
                settings,
                filter,
            } => match other {
                DataStatement::Update {
                    table: other_table,
                    settings: other_settings,
                    filter: other_filter,
                } => {
                    *table == *other_table
                        && are_same(settings.as_slice(), other_settings.as_slice())
                        && filter.is_same(other_filter)
                }
                _ => false,
            },
            DataStatement::Delete { table, filter } => match other {
                DataStatement::Delete {
                    table: other_table,
                    filter: other_filter,
                } => *table == *other_table && filter.is_same(other_filter),
                _ => false,
            },
        }
    }
}

impl Same for BodyStatement {
    fn is_same(&self, other: &BodyStatement) -> bool {
        match self {
            BodyStatement::Data(data) => match other {
                BodyStatement::Data(other) => data.is_same(other),
                _ => false,
            },
            BodyStatement::Signal(text) => match other {
                BodyStatement::Signal(other) => text.is_same(other),
                _ => false,
            },
            BodyStatement::Set(setting) => match other {
                BodyStatement::Set(other) => setting.is_same(other),
                _ => false,
            },
        }
    }
}

/// Whether two triggers are the same except for their numbers.
pub fn is_same_trigger(left: &Trigger, right: &Trigger) -> bool
    ensures { result ≡ true → unnumbered left.now ≡ unnumbered right.now }
{
    left.name.is_same(&right.name)
        && left.table == right.table
        && left.time == right.time
        && left.event == right.event
        && are_same(left.columns.as_slice(), right.columns.as_slice())
        && left.granularity == right.granularity
        && left.when.is_same(&right.when)
        && are_same(left.body.as_slice(), right.body.as_slice())
}
