//! Tests of the parts of the store with keys: rows, their journal, the groups of keys, and violations. A crate's own tests have
//! the whole crate proved once more.
#![tactic(auto)]

#[cfg(test)]
mod asserted;
#[cfg(test)]
mod cells;
#[cfg(test)]
mod checked;
#[cfg(test)]
mod constraints;
#[cfg(test)]
mod fault_steps;
#[cfg(test)]
mod foreign_key;
#[cfg(test)]
mod gaps;
#[cfg(test)]
mod giving;
#[cfg(test)]
mod group_steps;
#[cfg(test)]
mod hundred;
#[cfg(test)]
mod journal;
#[cfg(test)]
mod keys;
#[cfg(test)]
mod no_constraints;
#[cfg(test)]
mod rooms;
#[cfg(test)]
mod rows;
#[cfg(test)]
mod shown;
#[cfg(test)]
mod unique;
#[cfg(test)]
mod version_steps;
#[cfg(test)]
mod versions;
#[cfg(test)]
mod violations;
#[cfg(test)]
mod watching;
