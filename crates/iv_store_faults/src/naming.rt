//! The keys that new foreign keys name.
ghost use Rattle.std.specs.Prelude.{◌≡◌, ◌+◌, ◌≤◌, ◌^◌, ◌==◌, ◌++◌, List, Option, Some, None, if◌then◌else◌, length, map, filter_map, option_map, IfOk};
ghost use Rattle.std.specs.List.{enumerate_from, list_any};
ghost use Rattle.iv_machine.specs.Databases.{first};
ghost use Rattle.iv_store.specs.Stores.{all_among, are_same_columns, is_named_key};
ghost use Rattle.iv_laws_kept.specs.Kept.{AllNamed, KeyConstraint, named_by, named_key};
ghost use Rattle.iv_store_following.specs.declared.reference.KeyReference.{KeyReference as Refers};
ghost use Rattle.iv_store_following.specs.References.{AreReferences, paired, paired_with};
ghost use Rattle.iv_store_faults.specs.Watch.{AreReferencesOf, FindsKey, IsReferenceOf, IsReferenceTo, as_key, as_reference, reference_to};

use iv_catalogue::{Constraint, ForeignKey, Rule, copy_foreign_key};
use iv_store_following::KeyReference;
use sqlite_items::Items;
use std::alloc::{AllocError, Global};

// A UNIQUE or a PRIMARY KEY that a foreign key names, by its number among the constraints.
#[derive(Drop)]
struct NamedKey {
    id: usize,
    columns: Items<u32>,
}

// What a reference is made of. It is let go if an allocation fails, which a reference can't be.
#[derive(Drop)]
struct ReferenceParts {
    key: ForeignKey,
    named: usize,
    named_columns: Items<u32>,
    columns: Items<u32>,
    back: Items<u32>,
}

// Whether a column is one of these.
fn is_among(column: u32, columns: &[u32]) -> bool
    ensures { result ≡ list_any (λ d. column == d) columns.now }
{
    columns.iter().any(|other| column == *other)
}

// Whether each column is one of these.
fn all_among(some: &[u32], columns: &[u32]) -> bool
    ensures { result ≡ all_among some.now columns.now }
{
    some.iter().all(|column| is_among(*column, columns))
}

// The same columns, in any order.
fn are_same_columns(some: &[u32], others: &[u32]) -> bool
    ensures { result ≡ are_same_columns some.now others.now }
{
    all_among(some, others) && all_among(others, some)
}

// Whether a constraint is a key that a foreign key names.
fn is_named_key(fk: &ForeignKey, constraint: &Constraint) -> bool
    ensures { result ≡ is_named_key fk.now constraint.now }
{
    if constraint.table.place() != fk.referenced.place() {
        return false;
    }
    match &constraint.rule {
        Rule::Unique(_, columns) => are_same_columns(columns.as_slice(), fk.key.as_slice()),
        Rule::PrimaryKey(columns) => are_same_columns(columns.as_slice(), fk.key.as_slice()),
        _ => false,
    }
}

// A key of these columns, if it is named.
fn key_where(
    alloc: Global,
    named: bool,
    id: usize,
    columns: &[u32],
) -> Result<Option<NamedKey>, AllocError>
    ensures { IfOk result (λ k. option_map as_key k
        ≡ (if named then Some (record { id = id; columns = columns.now }) else None)) }
{
    if named {
        let columns = Items::from_slice(alloc, columns)?;
        return Ok(Some(NamedKey { id, columns }));
    }
    Ok(None)
}

// A constraint as a key, if a foreign key names it.
fn named_by(
    alloc: Global,
    fk: &ForeignKey,
    id: usize,
    constraint: &Constraint,
) -> Result<Option<NamedKey>, AllocError>
    ensures { IfOk result (λ k. option_map as_key k ≡ named_by fk.now (id, constraint.now)) }
{
    let named = is_named_key(fk, constraint);
    match &constraint.rule {
        Rule::Unique(_, columns) => key_where(alloc, named, id, columns.as_slice()),
        Rule::PrimaryKey(columns) => key_where(alloc, named, id, columns.as_slice()),
        _ => Ok(None),
    }
}

// The first key that a foreign key names among constraints that are numbered from `start`.
fn first_named(
    alloc: Global,
    fk: &ForeignKey,
    start: usize,
    constraints: &[Constraint],
) -> Result<Option<NamedKey>, AllocError>
    requires { start + length constraints.now ≤ 2 ^ 31 }
    ensures { IfOk result (λ k. option_map as_key k
        ≡ first (filter_map (named_by fk.now) (enumerate_from start constraints.now))) }
{
    for (place, constraint) in constraints.iter().enumerate() {
        let found = named_by(alloc, fk, start + place, constraint)?;
        if found.is_some() {
            return Ok(found);
        }
    }
    Ok(None)
}

// The key that a foreign key names. It looks at each constraint once at most.
fn named_key(
    alloc: Global,
    fk: &ForeignKey,
    olds: &[Constraint],
    more: &[Constraint],
) -> Result<Option<NamedKey>, AllocError>
    requires { length olds.now + length more.now ≤ 2 ^ 31 }
    ensures { IfOk result (λ k. option_map as_key k ≡ named_key (olds.now ++ more.now) fk.now) }
{
    match first_named(alloc, fk, 0, olds)? {
        Some(key) => Ok(Some(key)),
        None => first_named(alloc, fk, olds.len(), more),
    }
}

// The referencing column that is paired with a referenced one.
fn paired(key: &[u32], columns: &[u32], column: u32) -> u32
    ensures { result ≡ paired key.now columns.now column }
{
    match key {
        [] => 0,
        [first, others @ ..] => match columns {
            [] => 0,
            [own, rest @ ..] => {
                if *first == column {
                    *own
                } else {
                    paired(others, rest, column)
                }
            }
        },
    }
}

// The referencing columns that are paired with these.
fn paired_with(alloc: Global, fk: &ForeignKey, others: &[u32]) -> Result<Items<u32>, AllocError>
    ensures { IfOk result (λ columns. columns ≡ paired_with fk.now others.now) }
{
    let mut columns = Items::new(alloc);
    for other in others {
        columns.push(paired(fk.key.as_slice(), fk.columns.as_slice(), *other))?;
    }
    Ok(columns)
}

// The reference of a foreign key to a key that it names, in its parts.
fn parts_to(alloc: Global, fk: &ForeignKey, key: NamedKey) -> Result<ReferenceParts, AllocError>
    ensures { IfOk result (λ r. as_reference r ≡ reference_to fk.now (as_key key)) }
{
    let NamedKey {
        id: named,
        columns: named_columns,
    } = key;
    let columns = paired_with(alloc, fk, named_columns.as_slice())?;
    let back = paired_with(alloc, fk, fk.key.as_slice())?;
    Ok(ReferenceParts {
        key: copy_foreign_key(alloc, fk)?,
        named,
        named_columns,
        columns,
        back,
    })
}

// The reference of a foreign key.
fn parts_for(
    alloc: Global,
    olds: &[Constraint],
    more: &[Constraint],
    fk: &ForeignKey,
) -> Result<ReferenceParts, AllocError>
    requires few { length olds.now + length more.now ≤ 2 ^ 31 }
    requires named { (key : KeyConstraint) × (named_key (olds.now ++ more.now) fk.now ≡ Some key) }
    ensures { IfOk result (λ r. IsReferenceTo (olds.now ++ more.now) fk.now (as_reference r)) }
{
    match named_key(alloc, fk, olds, more)? {
        Some(key) => parts_to(alloc, fk, key),
        None => unreachable!(),
    }
}

// The reference of a constraint, if it is a foreign key.
fn parts_of(
    alloc: Global,
    olds: &[Constraint],
    more: &[Constraint],
    rule: &Rule,
) -> Result<Option<ReferenceParts>, AllocError>
    requires few { length olds.now + length more.now ≤ 2 ^ 31 }
    requires named { FindsKey (olds.now ++ more.now) rule.now }
    ensures { IfOk result (λ r. IsReferenceOf (olds.now ++ more.now) rule.now (option_map as_reference r)) }
{
    match rule {
        Rule::ForeignKey(fk) => Ok(Some(parts_for(alloc, olds, more, fk)?)),
        _ => Ok(None),
    }
}

// The references of new constraints, in their parts.
fn all_parts(
    alloc: Global,
    olds: &[Constraint],
    more: &[Constraint],
) -> Result<Vec<Option<ReferenceParts>>, AllocError>
    requires few { length olds.now + length more.now ≤ 2 ^ 31 }
    requires named { AllNamed (olds.now ++ more.now) }
    ensures { IfOk result (λ parts. AreReferencesOf (olds.now ++ more.now) more.now
        (map (option_map as_reference) parts.items)) }
{
    let mut parts = Vec::with_capacity(alloc, more.len())?;
    for constraint in more {
        parts.push(parts_of(alloc, olds, more, &constraint.rule)?)?;
    }
    Ok(parts)
}

// A reference of its parts.
fn joined(parts: Option<ReferenceParts>) -> Option<KeyReference>
    ensures { result ≡ option_map as_reference parts }
{
    match parts {
        Some(parts) => {
            let ReferenceParts {
                key,
                named,
                named_columns,
                columns,
                back,
            } = parts;
            Some(KeyReference {
                key,
                named,
                named_columns,
                columns,
                back,
            })
        }
        None => None,
    }
}

// References of their parts.
fn all_joined(
    alloc: Global,
    parts: Vec<Option<ReferenceParts>>,
) -> Result<Vec<Option<KeyReference>>, AllocError>
    ensures { IfOk result (λ references. references.items ≡ map (option_map as_reference) parts.items) }
{
    let mut references = Vec::with_capacity(alloc, parts.len())?;
    for part in parts {
        references.push_reserved(joined(part));
    }
    Ok(references)
}

/// The references of new constraints, each at its constraint's place, and None if it is no foreign key. For each new
/// foreign key it looks at each constraint once at most.
pub fn references_of(
    alloc: Global,
    olds: &[Constraint],
    more: &[Constraint],
) -> Result<Vec<Option<KeyReference>>, AllocError>
    requires few { length olds.now + length more.now ≤ 2 ^ 31 }
    requires named { AllNamed (olds.now ++ more.now) }
    ensures references { IfOk result (λ references. (old : List (Option Refers)) → length old ≡ length olds.now
        → AreReferences olds.now old → AreReferences (olds.now ++ more.now) (old ++ references.items)) }
    ensures len { IfOk result (λ references. length references.items ≡ length more.now) }
{
    let parts = all_parts(alloc, olds, more)?;
    Ok(all_joined(alloc, parts)?)
}
