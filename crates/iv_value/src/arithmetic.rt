//! Arithmetic in 64 bits (ISO/IEC 9075-2:1999, "numeric value expression").
ghost use Rattle.std.specs.Prelude.{◌≡◌, ◌+ℤ◌, ◌-ℤ◌, ◌*ℤ◌};
ghost use Rattle.iv_value.specs.Values.{checked};

/// The sum, if it has a place in 64 bits.
pub fn plus(left: i64, right: i64) -> Option<i64>
    ensures { result ≡ checked (left +ℤ right) }
{
    left.checked_add(right)
}

/// The difference, if it has a place in 64 bits.
pub fn minus(left: i64, right: i64) -> Option<i64>
    ensures { result ≡ checked (left -ℤ right) }
{
    left.checked_sub(right)
}

/// The product, if it has a place in 64 bits.
pub fn times(left: i64, right: i64) -> Option<i64>
    ensures { result ≡ checked (left *ℤ right) }
{
    left.checked_mul(right)
}
