//! What keeps a template from being filled.
use std::alloc::AllocError;

/// What keeps a template from being filled.
#[derive(Clone, Copy, Debug, PartialEq, Eq)]
pub enum FillFault {
    /// Memory was refused.
    NoMemory,
    /// At this byte of the template, from 0, there is neither a token nor a question mark.
    NoToken(usize),
    /// The template has so many question marks, and there are so many values.
    WrongCount(usize, usize),
}

impl From<AllocError> for FillFault {
    ghost use Rattle.std.specs.Prelude.{◌≡◌};
    ghost use Rattle.iv_template.specs.declared.fault.FillFault.TheVariants.{NoMemory};

    ghost from_gives = { λ _ fault. fault ≡ NoMemory };

    fn from(_: AllocError) -> FillFault {
        FillFault::NoMemory
    }
}
