//! The first name of a list that comes again. With a set of names the time is nearly linear in the list. If the set
//! can't be allocated, it is looked for in place, in quadratic time. No call can fail for lack of memory.
ghost use Rattle.std.specs.Prelude.{◌≡◌, ◌++◌, ◌∷◌, [], IfOk, if◌then◌else◌, map};
ghost use Rattle.std.specs.Option.{option_copied};
ghost use Rattle.iv_catalogue.specs.Names.{is_among};
ghost use Rattle.iv_resolution.specs.Items.{first_again};

use iv_resolve_scope::NameSet;
use iv_syntax::Named;
use std::alloc::{AllocError, Global};

/// Adds a name to the set, unless it is there, and tells whether it was.
pub fn is_again(alloc: Global, set: &mut NameSet, name: &str) -> Result<bool, AllocError>
    ensures found { IfOk result (λ found. found ≡ is_among set.old name.now) }
    ensures names { IfOk result (λ found. set.new
        ≡ (if found then set.old else set.old ++ name.now ∷ [])) }
{
    Ok(!set.add(alloc, name)?)
}

fn again_after<'t, T: Named>(
    alloc: Global,
    set: &mut NameSet,
    items: &'t [T],
) -> Result<Option<&'t str>, AllocError>
    ensures { IfOk result (λ found. option_copied found
        ≡ first_again (λ n. n) set.old (map T.named items.entry.now)) }
{
    for item in items {
        let name = item.name();
        if is_again(alloc, set, name)? {
            return Ok(Some(name));
        }
    }
    Ok(None)
}

fn again_by_set<'t, T: Named>(alloc: Global, items: &'t [T]) -> Result<Option<&'t str>, AllocError>
    ensures { IfOk result (λ found. option_copied found
        ≡ first_again (λ n. n) [] (map T.named items.entry.now)) }
{
    let mut set = NameSet::new(alloc);
    again_after(alloc, &mut set, items)
}

fn is_named<T: Named>(items: &[T], name: &str) -> bool
    ensures { result ≡ is_among (map T.named items.now) name.now }
{
    for item in items {
        if name == item.name() {
            return true;
        }
    }
    false
}

fn again_in_place<'t, T: Named>(items: &'t [T]) -> Option<&'t str>
    ensures { option_copied result ≡ first_again (λ n. n) [] (map T.named items.entry.now) }
{
    for place in 0..items.len() {
        let name = items[place].name();
        if is_named(&items[..place], name) {
            return Some(name);
        }
    }
    None
}

/// The first name of the items that comes again.
pub fn name_again<'t, T: Named>(alloc: Global, items: &'t [T]) -> Option<&'t str>
    ensures { option_copied result ≡ first_again (λ n. n) [] (map T.named items.entry.now) }
{
    match again_by_set(alloc, items) {
        Ok(found) => found,
        Err(_) => again_in_place(items),
    }
}
