//! The limits of a session, and those of every session.
ghost use Rattle.std.specs.Prelude.{◌≡◌, ◌&&◌, nat_le, if◌then◌else◌, Some, None};
ghost use Rattle.iv_machine.specs.Bounds.{least_depth, greatest_depth, fewest_changes_in_a_statement, most_changes_in_a_statement};

use std::marker::Model;

/// The least depth of triggers that a session may have.
pub const LEAST_DEPTH: u8 = 1;

/// The greatest depth of triggers that a session may have.
pub const GREATEST_DEPTH: u8 = 64;

/// The least number of row changes in a statement that a session may have.
pub const FEWEST_CHANGES_IN_A_STATEMENT: u32 = 1;

/// The greatest number of row changes in a statement that a session may have.
pub const MOST_CHANGES_IN_A_STATEMENT: u32 = 65_536;

/// How many row changes a transaction may have.
pub const MOST_CHANGES_IN_A_TRANSACTION: u64 = 1_048_576;

/// The last number that a row may have.
pub const LAST_ROW_NUMBER: u64 = 9_223_372_036_854_775_807;

/// How deep triggers may nest, 1 to 64, and how many row changes one statement may make, 1 to 65,536.
/// Contracts see them as the two numbers.
#[derive(Clone, Copy, Debug, PartialEq, Eq)]
pub struct Limits {
    depth: u8,
    changes: u32,
}

impl Model for Limits {
    ghost use Rattle.std.specs.Prelude.{◌≤◌};
    ghost use Rattle.iv_machine.specs.Bounds.{Bounds, least_depth, greatest_depth, fewest_changes_in_a_statement, most_changes_in_a_statement};

    ghost Value = { Bounds };

    ghost view = { λ l. record { depth = l.depth; changes = l.changes } };

    ghost invariant = { λ l. (least_depth ≤ l.depth) × (l.depth ≤ greatest_depth)
        × (fewest_changes_in_a_statement ≤ l.changes) × (l.changes ≤ most_changes_in_a_statement) };

    ghost inverse = { λ b. record { depth = b.depth; changes = b.changes } };
}

impl Limits {
    /// These limits; none if the depth isn't from 1 to 64 or the changes aren't from 1 to 65,536.
    pub fn new(depth: u8, changes: u32) -> Option<Limits>
        ensures { result ≡
            (if nat_le least_depth depth && nat_le depth greatest_depth
            && nat_le fewest_changes_in_a_statement changes
            && nat_le changes most_changes_in_a_statement
            then Some (record { depth = depth; changes = changes }) else None) }
    {
        let depths = LEAST_DEPTH..=GREATEST_DEPTH;
        let numbers = FEWEST_CHANGES_IN_A_STATEMENT..=MOST_CHANGES_IN_A_STATEMENT;
        if depths.contains(&depth) && numbers.contains(&changes) {
            Some(Limits { depth, changes })
        } else {
            None
        }
    }

    /// How deep triggers may nest.
    pub fn depth(&self) -> u8
        ensures { result ≡ self.now.depth }
    {
        self.depth
    }

    /// How many row changes one statement may make.
    pub fn changes(&self) -> u32
        ensures { result ≡ self.now.changes }
    {
        self.changes
    }
}
