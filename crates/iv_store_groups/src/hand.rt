//! A hand that goes round all groups, to find what can be given back.
ghost use Rattle.std.specs.Prelude.{◌<◌, length, IfSome};
ghost use Rattle.iv_store_groups.specs.Groups.{groups_of};

use crate::indexes::count_in;
use crate::key_index::KeyIndex;

/// Where a group stands: at a place of a constraint.
#[derive(Clone, Copy)]
pub struct Place {
    pub constraint: usize,
    pub place: usize,
}

/// Where the hand is, and how many steps are due: one for each group that was made, and three for each row that left
/// its group without rows or with far more room than rows.
#[derive(Clone, Copy)]
pub struct Hand {
    pub constraint: usize,
    pub place: usize,
    pub due: u64,
}

/// Counts one step more if a constraint has more groups than it had.
pub fn count_made(hand: &mut Hand, before: usize, now: usize) {
    if before < now {
        hand.due = hand.due.saturating_add(1);
    }
}

/// Counts three steps more if a group was left with something to be given back.
pub fn count_left(hand: &mut Hand, loose: bool) {
    if loose {
        hand.due = hand.due.saturating_add(3);
    }
}

// How many steps a round takes: one for each group, one for each constraint, and one from the last to the first.
fn round(indexes: &[KeyIndex]) -> u64 {
    let mut steps = 1u64;
    for index in indexes {
        steps = steps.saturating_add(index.len() as u64).saturating_add(1);
    }
    steps
}

/// The steps that are due, at most those of a round.
pub fn due_steps(due: u64, indexes: &[KeyIndex]) -> u64 {
    if due <= indexes.len() as u64 {
        return due;
    }
    due.min(round(indexes))
}

/// The hand stays at a place to which another group came.
pub fn stay(hand: &mut Hand, is_new: bool, constraint: usize, place: usize) {
    if is_new {
        hand.constraint = constraint;
        hand.place = place;
    }
}

/// Moves the hand one step. It answers where the hand was, if a group is there.
pub fn step(hand: &mut Hand, indexes: &[KeyIndex]) -> Option<Place>
    ensures known { IfSome result (λ at. at.constraint < length indexes.now) }
    ensures place { IfSome result (λ at. at.place < length (groups_of indexes.now at.constraint)) }
{
    let at = Place {
        constraint: hand.constraint,
        place: hand.place,
    };
    if at.constraint >= indexes.len() {
        hand.constraint = 0;
        hand.place = 0;
        return None;
    }
    if at.place < count_in(indexes, at.constraint) {
        hand.place = at.place + 1;
        return Some(at);
    }
    hand.constraint = at.constraint + 1;
    hand.place = 0;
    None
}
