//! The three-valued logic.
ghost use Rattle.std.specs.Prelude.{◌≡◌};
ghost use Rattle.iv_value.specs.Truths.{truth_and, truth_not, truth_of, truth_or};

use crate::value::Truth;

impl Truth {
    /// Both: the lesser of the two truths.
    pub fn and(self, other: Truth) -> Truth
        ensures { result ≡ truth_and self other }
    {
        match (self, other) {
            (Truth::False, _) | (_, Truth::False) => Truth::False,
            (Truth::True, other) => other,
            (Truth::Unknown, _) => Truth::Unknown,
        }
    }

    /// One of both: the greater of the two truths.
    pub fn or(self, other: Truth) -> Truth
        ensures { result ≡ truth_or self other }
    {
        match (self, other) {
            (Truth::True, _) => Truth::True,
            (_, Truth::True) => Truth::True,
            (Truth::False, other) => other,
            (Truth::Unknown, _) => Truth::Unknown,
        }
    }

    /// The opposite; unknown stays unknown.
    pub fn not(self) -> Truth
        ensures { result ≡ truth_not self }
    {
        match self {
            Truth::False => Truth::True,
            Truth::Unknown => Truth::Unknown,
            Truth::True => Truth::False,
        }
    }

    /// The truth of what is decided.
    pub fn of(decided: bool) -> Truth
        ensures { result ≡ truth_of decided }
    {
        if decided { Truth::True } else { Truth::False }
    }
}
