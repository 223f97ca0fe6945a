//! What a statement names, and what is wrong with a name.
ghost use Rattle.std.specs.Prelude.{◌≡◌, option_map};
ghost use Rattle.std.specs.Option.{option_or};
ghost use Rattle.iv_resolve_name_faults.specs.Seen.{fault_seen, item_seen};

/// What a statement names.
#[derive(Clone, Copy, Debug, PartialEq, Eq)]
pub enum NamedItem<'a> {
    /// A table, a transition table, or what a FROM names.
    Table(&'a str),
    /// A column, with the range or row variable that is written before it.
    Column(Option<&'a str>, &'a str),
    /// The row variable of a SET.
    RowVariable(&'a str),
    Trigger(&'a str),
    Constraint(&'a str),
    /// A constraint without a name: its table and its place among the constraints of the table, from 1, of which its name is made.
    GeneratedConstraint(&'a str, u128),
    /// The name that an item of REFERENCING gives.
    Transition(&'a str),
}

/// What is wrong with a name.
#[derive(Clone, Copy, Debug, PartialEq, Eq)]
pub enum NameFault<'a> {
    /// It names nothing.
    Unknown(NamedItem<'a>),
    /// It is a new name, and in use.
    InUse(NamedItem<'a>),
    /// It comes twice.
    Twice(NamedItem<'a>),
}

/// The first of two, if it is there.
pub fn first_item<'a>(
    first: Option<NamedItem<'a>>,
    second: Option<NamedItem<'a>>,
) -> Option<NamedItem<'a>>
    ensures { option_map item_seen result
        ≡ option_or (option_map item_seen first.entry) (option_map item_seen second.entry) }
{
    match first {
        Some(item) => Some(item),
        None => second,
    }
}

/// The same of two faults.
pub fn first_fault<'a>(
    first: Option<NameFault<'a>>,
    second: Option<NameFault<'a>>,
) -> Option<NameFault<'a>>
    ensures { option_map fault_seen result
        ≡ option_or (option_map fault_seen first.entry) (option_map fault_seen second.entry) }
{
    match first {
        Some(fault) => Some(fault),
        None => second,
    }
}
