//! What follows from the definitions of groups, as contracts of functions that do nothing.
ghost use Rattle.iv_store_groups.specs.Laws.{SameIsEqual, GroupsAfter, ConstraintsStay, HeldAfter, IsFiniteMap, PlaceStays, GroupAtPlace, OtherPlacesStay};
ghost use Rattle.iv_store_groups.specs.Laws.{PutIsAdded, RemovedAndPutBack, AddedAndRemoved, SizeGrows, SizeStays, GroupsLeave, GivenBackIsNothing};

/// Does nothing. Its contract states that groups are a finite map from constraints and keys to rows, and that places
/// stay.
pub fn groups_are_a_map()
    ensures same { SameIsEqual }
    ensures groups { GroupsAfter }
    ensures constraints { ConstraintsStay }
    ensures held { HeldAfter }
    ensures map { IsFiniteMap }
    ensures place { PlaceStays }
    ensures at_place { GroupAtPlace }
    ensures others { OtherPlacesStay }
{}

/// Does nothing. Its contract states that what is undone is as before, and that a key's rows with its room never get
/// fewer.
pub fn groups_are_undone()
    ensures put { PutIsAdded }
    ensures removed { RemovedAndPutBack }
    ensures added { AddedAndRemoved }
    ensures grows { SizeGrows }
    ensures stays { SizeStays }
{}

/// Does nothing. Its contract states what there is after a group was taken away, and that one that is given back leaves the
/// rows of every key as they were.
pub fn groups_are_given_back()
    ensures leave { GroupsLeave }
    ensures nothing { GivenBackIsNothing }
{}
