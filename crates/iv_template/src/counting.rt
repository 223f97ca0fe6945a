//! How many holes a text has.
ghost use Rattle.std.specs.Prelude.{◌+◌, ◌<◌, ◌≤◌, ◌^◌, IfOk, IfErr, length};
ghost use Rattle.iv_template.specs.Holes.{HasHoles, StopsFrom};

use crate::fault::FillFault;
use crate::holes::next_hole;
use std::alloc::Global;

/// How many holes a text has that begins at this byte of its template.
pub fn count_holes(alloc: Global, text: &str, from: usize) -> Result<usize, FillFault>
    requires { from + length text.now < 2 ^ 64 }
    ensures holes { IfOk result (HasHoles text.now) }
    ensures few { IfOk result (λ count. count ≤ length text.now) }
    ensures fault { IfErr result (StopsFrom text.now from) }
{
    let mut rest = text;
    let mut count = 0;
    while let Some((_, after)) = next_hole(alloc, rest, from + (text.len() - rest.len()))? {
        rest = after;
        count += 1;
    }
    Ok(count)
}
