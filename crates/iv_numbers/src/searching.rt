//! Searches in rising numbers, of which mostly none is missing.
ghost use Rattle.std.specs.Prelude.{◌≡◌, ℕ, ◌-◌, ◌<◌, ◌≤◌, length, slice_index, true, MatchResult};
ghost use Rattle.std.specs.List.Sorted.{IsSearchInRange};
ghost use Rattle.iv_numbers.specs.Rows.{IsRising};

// The place of a number, if no number from the first one on is missing.
pub(crate) fn likely_place(rows: &[u64], row: u64) -> usize {
    match rows {
        [first, ..] => row.saturating_sub(*first) as usize,
        [] => 0,
    }
}

// Whether a number is at this place.
pub(crate) fn is_at(rows: &[u64], place: usize, row: u64) -> bool
    ensures { result ≡ true → (place < length rows.now) × (slice_index rows.now place ≡ row) }
{
    match rows.get(place) {
        Some(other) => *other == row,
        None => false,
    }
}

// Whether a number is above the last of these.
pub(crate) fn is_beyond(rows: &[u64], row: u64) -> bool
    ensures { result ≡ true → 0 < length rows.now → slice_index rows.now (length rows.now - 1) < row }
{
    match rows.last() {
        Some(last) => *last < row,
        None => true,
    }
}

// The place of a number, or the place where it would be inserted. If no number up to it is missing, or it is above all
// of them, that takes constant time; else it halves.
pub(crate) fn search(rows: &[u64], row: u64) -> Result<usize, usize>
    requires { IsRising rows.now }
    ensures stands { MatchResult result
        (λ at. (at < length rows.now) × (slice_index rows.now at ≡ row))
        (λ at. (at ≤ length rows.now) × ((k : ℕ) → k < at → slice_index rows.now k < row)
        × ((k : ℕ) → at ≤ k → k < length rows.now → row < slice_index rows.now k)) }
    ensures within { IsSearchInRange result (length rows.now) }
{
    let likely = likely_place(rows, row);
    if is_at(rows, likely, row) {
        return Ok(likely);
    }
    if is_beyond(rows, row) {
        return Err(rows.len());
    }
    rows.binary_search(&row)
}
