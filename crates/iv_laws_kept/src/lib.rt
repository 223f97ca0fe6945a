//! Laws of what is found by keys and row numbers in place of scans: kept violations, and what follows a wave. Each is the
//! contract of a function that does nothing.
#![tactic(auto)]

ghost use Rattle.iv_laws_kept.specs.Numbers.{SameNumbersAreOneList};
ghost use Rattle.iv_laws_kept.specs.KeptIsScan.{KeptIsTheScan};
ghost use Rattle.iv_laws_kept.specs.Moves.{ChangesAreFollowed, ChangesAreTakenBack};
ghost use Rattle.iv_laws_kept.specs.GroupFlags.{FlaggedRowsAreKept, OtherKeysStay};
ghost use Rattle.iv_laws_kept.specs.FollowingWaves.{WavesFollowRowByRow};

/// Two rising lists with the same members are one.
pub fn same_numbers_are_one_list()
    ensures { SameNumbersAreOneList }
{}

/// Kept violations are those that a scan finds.
pub fn kept_is_the_scan()
    ensures { KeptIsTheScan }
{}

/// Groups that follow a change of a row show the rows after it.
pub fn changes_are_followed()
    ensures { ChangesAreFollowed }
{}

/// Groups that follow the taking back of a change show the rows from before it.
pub fn changes_are_taken_back()
    ensures { ChangesAreTakenBack }
{}

/// The rows under a key that a change doesn't concern violate their constraint as before.
pub fn other_keys_stay()
    ensures { OtherKeysStay }
{}

/// The rows of the flagged groups are the kept rows.
pub fn flagged_rows_are_kept()
    ensures { FlaggedRowsAreKept }
{}

/// What follows a wave depends only on the rows of the wave, on those that refer after it to a key which it removed,
/// and on the foreign keys that act.
pub fn waves_follow_row_by_row()
    ensures { WavesFollowRowByRow }
{}
