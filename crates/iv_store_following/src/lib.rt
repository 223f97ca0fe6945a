//! A change of a row, followed in the groups of keys of all constraints and in the flags of those that violate them.
#![tactic(auto)]

mod borrowed_change;
mod following;
mod giving;
mod keys;
mod reference;
mod shown;
mod step;
mod turns;

pub use borrowed_change::BorrowedChange;
pub use following::{WatchedConstraints, follow, make_room_and_follow};
pub use giving::give_back;
pub use keys::kept_key;
pub use reference::{KeyReference, is_referenced};
pub use shown::{make_room, put};
pub use step::violate;
pub use turns::reference_at;
