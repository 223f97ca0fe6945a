//! Numbers for new rows.
ghost use Rattle.std.specs.Prelude.{◌≡◌, ◌+◌, ◌≤◌, length, not, IsTrue};
ghost use Rattle.iv_machine.specs.Bounds.{last_row_number};
ghost use Rattle.iv_machine.specs.Waves.{is_beyond_last_row, with_numbers};

use iv_expr::Change;
use iv_machine::LAST_ROW_NUMBER;

// Gives new rows the numbers from this one on. False if a change is of a row above the last number that a row may have;
// then nothing is said of the changes.
pub fn number(next: u64, changes: &mut [Change]) -> bool
    requires { next ≤ last_row_number + 1 }
    ensures length { length changes.exit.now ≡ length changes.entry.now }
    ensures answer { result ≡ not (is_beyond_last_row (with_numbers next changes.entry.now)) }
    ensures numbered { IsTrue result → changes.exit.now ≡ with_numbers next changes.entry.now }
{
    let mut next = next;
    let mut at = 0usize;
    while at < changes.len() {
        if changes[at].old.is_none() {
            if next > LAST_ROW_NUMBER {
                return false;
            }
            changes[at].row = next;
            next += 1;
        } else if changes[at].row > LAST_ROW_NUMBER {
            return false;
        }
        at += 1;
    }
    true
}
