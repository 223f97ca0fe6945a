//! A list in two parts of a slice, with a gap between them where the last number came or went.
ghost use Rattle.std.specs.Prelude.{◌≡◌, ℕ, ◌+◌, ◌-◌, ◌<◌, ◌≤◌, length, insert, remove};
ghost use Rattle.iv_numbers.specs.GapLayout.{AreWithin, held, size};

/// Where the two parts of a list stand in a slice: the front from `start` up to the gap, and the back behind the gap,
/// up to `end`. Before the front, in the gap and behind the back are free places.
#[derive(Clone, Copy)]
pub struct GapLayout {
    pub start: usize,
    pub gap_start: usize,
    pub gap_end: usize,
    pub end: usize,
}

/// How many numbers the list has.
pub fn size(parts: GapLayout) -> usize
    requires front { parts.start ≤ parts.gap_start }
    requires gap { parts.gap_start ≤ parts.gap_end }
    requires back { parts.gap_end ≤ parts.end }
    ensures { result ≡ size parts }
{
    (parts.gap_start - parts.start) + (parts.end - parts.gap_end)
}

/// Moves the gap to a place of the list: only the numbers between its old place and the new one move.
pub fn move_gap(places: &mut [u64], parts: GapLayout, at: usize) -> GapLayout
    requires within { AreWithin parts (length places.old) }
    requires at { at ≤ size parts }
    ensures within { AreWithin result (length places.new) }
    ensures start { result.start ≡ parts.start }
    ensures gap_start { result.gap_start ≡ parts.start + at }
    ensures gap { result.gap_end - result.gap_start ≡ parts.gap_end - parts.gap_start }
    ensures end { result.end ≡ parts.end }
    ensures held { held places.new result ≡ held places.old parts }
{
    let gap_start = parts.start + at;
    let gap_end = gap_start + (parts.gap_end - parts.gap_start);
    if gap_start < parts.gap_start {
        places.copy_within(gap_start..parts.gap_start, gap_end);
    } else {
        places.copy_within(parts.gap_end..gap_end, parts.gap_start);
    }
    GapLayout {
        start: parts.start,
        gap_start,
        gap_end,
        end: parts.end,
    }
}

// Closes the gap, and moves the list to the middle of the slice.
fn centred(places: &mut [u64], parts: GapLayout) -> GapLayout
    requires within { AreWithin parts (length places.old) }
    ensures within { AreWithin result (length places.new) }
    ensures size { size result ≡ size parts }
    ensures held { held places.new result ≡ held places.old parts }
{
    let count = size(parts);
    let closed = move_gap(places, parts, count);
    let start = (places.len() - count) / 2;
    places.copy_within(closed.start..closed.gap_start, start);
    let end = start + count;
    GapLayout {
        start,
        gap_start: end,
        gap_end: end,
        end,
    }
}

// Makes the gap larger by half of the free places behind the back.
fn widened_behind(places: &mut [u64], parts: GapLayout) -> GapLayout
    requires within { AreWithin parts (length places.old) }
    requires free { parts.end < length places.old }
    ensures within { AreWithin result (length places.new) }
    ensures size { size result ≡ size parts }
    ensures gap { result.gap_start < result.gap_end }
    ensures held { held places.new result ≡ held places.old parts }
{
    let free = places.len() - parts.end;
    let step = free - free / 2;
    let gap_end = parts.gap_end + step;
    places.copy_within(parts.gap_end..parts.end, gap_end);
    GapLayout {
        start: parts.start,
        gap_start: parts.gap_start,
        gap_end,
        end: parts.end + step,
    }
}

// Makes the gap larger by half of the free places before the front.
fn widened_before(places: &mut [u64], parts: GapLayout) -> GapLayout
    requires within { AreWithin parts (length places.old) }
    requires free { 0 < parts.start }
    ensures within { AreWithin result (length places.new) }
    ensures size { size result ≡ size parts }
    ensures gap { result.gap_start < result.gap_end }
    ensures held { held places.new result ≡ held places.old parts }
{
    let start = parts.start / 2;
    places.copy_within(parts.start..parts.gap_start, start);
    GapLayout {
        start,
        gap_start: start + (parts.gap_start - parts.start),
        gap_end: parts.gap_end,
        end: parts.end,
    }
}

// Ensures that there is a free place in the gap.
fn opened(places: &mut [u64], parts: GapLayout) -> GapLayout
    requires within { AreWithin parts (length places.old) }
    requires free { size parts < length places.old }
    ensures within { AreWithin result (length places.new) }
    ensures size { size result ≡ size parts }
    ensures gap { result.gap_start < result.gap_end }
    ensures held { held places.new result ≡ held places.old parts }
{
    if parts.gap_start < parts.gap_end {
        return parts;
    }
    if parts.end < places.len() {
        return widened_behind(places, parts);
    }
    widened_before(places, parts)
}

// Inserts a number before the others.
fn insert_first(places: &mut [u64], parts: GapLayout, row: u64) -> GapLayout
    requires within { AreWithin parts (length places.old) }
    requires free { 0 < parts.start }
    ensures within { AreWithin result (length places.new) }
    ensures size { size result ≡ size parts + 1 }
    ensures held { held places.new result ≡ insert (held places.old parts) 0 row }
{
    let start = parts.start - 1;
    places[start] = row;
    GapLayout {
        start,
        gap_start: parts.gap_start,
        gap_end: parts.gap_end,
        end: parts.end,
    }
}

// Inserts a number behind the others.
fn insert_last(places: &mut [u64], parts: GapLayout, row: u64) -> GapLayout
    requires within { AreWithin parts (length places.old) }
    requires free { parts.end < length places.old }
    ensures within { AreWithin result (length places.new) }
    ensures size { size result ≡ size parts + 1 }
    ensures held { held places.new result ≡ insert (held places.old parts) (size parts) row }
{
    places[parts.end] = row;
    GapLayout {
        start: parts.start,
        gap_start: parts.gap_start,
        gap_end: parts.gap_end,
        end: parts.end + 1,
    }
}

// Inserts a number at the end of the front.
fn insert_in_gap(places: &mut [u64], parts: GapLayout, row: u64) -> GapLayout
    requires within { AreWithin parts (length places.old) }
    requires gap { parts.gap_start < parts.gap_end }
    ensures within { AreWithin result (length places.new) }
    ensures size { size result ≡ size parts + 1 }
    ensures held { held places.new result ≡ insert (held places.old parts) (parts.gap_start - parts.start) row }
{
    places[parts.gap_start] = row;
    GapLayout {
        start: parts.start,
        gap_start: parts.gap_start + 1,
        gap_end: parts.gap_end,
        end: parts.end,
    }
}

// Moves the gap to a place of the list, and inserts a number there.
fn insert_between(places: &mut [u64], parts: GapLayout, at: usize, row: u64) -> GapLayout
    requires within { AreWithin parts (length places.old) }
    requires at { at ≤ size parts }
    requires free { size parts < length places.old }
    ensures within { AreWithin result (length places.new) }
    ensures size { size result ≡ size parts + 1 }
    ensures held { held places.new result ≡ insert (held places.old parts) at row }
{
    let wide = opened(places, parts);
    let moved = move_gap(places, wide, at);
    insert_in_gap(places, moved, row)
}

// Moves the list to the middle of the slice, if a number is to come at an end with no free place beyond it.
fn freed(places: &mut [u64], parts: GapLayout, at: usize) -> GapLayout
    requires within { AreWithin parts (length places.old) }
    ensures within { AreWithin result (length places.new) }
    ensures size { size result ≡ size parts }
    ensures held { held places.new result ≡ held places.old parts }
{
    let no_first = at == 0 && parts.start == 0;
    let no_last = at == size(parts) && parts.end == places.len();
    if no_first || no_last {
        return centred(places, parts);
    }
    parts
}

/// Inserts a number at a place of the list. A number at an end comes beyond the others; without a free place there, the
/// list is moved to the middle first. Otherwise the gap moves to the place.
pub fn insert_at(places: &mut [u64], parts: GapLayout, at: usize, row: u64) -> GapLayout
    requires within { AreWithin parts (length places.old) }
    requires at { at ≤ size parts }
    requires free { size parts < length places.old }
    ensures within { AreWithin result (length places.new) }
    ensures size { size result ≡ size parts + 1 }
    ensures held { held places.new result ≡ insert (held places.old parts) at row }
{
    let parts = freed(places, parts, at);
    if at == 0 && parts.start > 0 {
        return insert_first(places, parts, row);
    }
    if at == size(parts) && parts.end < places.len() {
        return insert_last(places, parts, row);
    }
    insert_between(places, parts, at, row)
}

// Removes the first number behind the gap, after the gap was moved to its place.
fn remove_between(places: &mut [u64], parts: GapLayout, at: usize) -> GapLayout
    requires within { AreWithin parts (length places.old) }
    requires at { at < size parts }
    ensures within { AreWithin result (length places.new) }
    ensures size { size result + 1 ≡ size parts }
    ensures held { held places.new result ≡ remove (held places.old parts) at }
{
    let moved = move_gap(places, parts, at);
    GapLayout {
        start: moved.start,
        gap_start: moved.gap_start,
        gap_end: moved.gap_end + 1,
        end: moved.end,
    }
}

/// Removes the number at a place of the list. The first of the front and the last of the back simply go; otherwise the
/// gap moves to the place.
pub fn remove_at(places: &mut [u64], parts: GapLayout, at: usize) -> GapLayout
    requires within { AreWithin parts (length places.old) }
    requires at { at < size parts }
    ensures within { AreWithin result (length places.new) }
    ensures size { size result + 1 ≡ size parts }
    ensures held { held places.new result ≡ remove (held places.old parts) at }
{
    if at == 0 && parts.start < parts.gap_start {
        return GapLayout {
            start: parts.start + 1,
            gap_start: parts.gap_start,
            gap_end: parts.gap_end,
            end: parts.end,
        };
    }
    if at + 1 == size(parts) && parts.gap_end < parts.end {
        return GapLayout {
            start: parts.start,
            gap_start: parts.gap_start,
            gap_end: parts.gap_end,
            end: parts.end - 1,
        };
    }
    remove_between(places, parts, at)
}
