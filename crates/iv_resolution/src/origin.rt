//! What has the columns that a name is looked for in.
use iv_expr::Side;

/// The rows of a range, or a row variable of a trigger.
#[derive(Clone, Copy, Debug, PartialEq, Eq)]
pub enum Origin {
    Rows,
    Variable(Side),
}
