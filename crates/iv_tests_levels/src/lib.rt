//! Tests of the calls that a data statement and a query are made of. A crate's own tests have the whole crate proved once more.
#![tactic(auto)]

#[cfg(test)]
mod after;
#[cfg(test)]
mod before;
#[cfg(test)]
mod cases;
#[cfg(test)]
mod changes;
#[cfg(test)]
mod databases;
#[cfg(test)]
mod expressions;
#[cfg(test)]
mod net_rows;
#[cfg(test)]
mod next;
#[cfg(test)]
mod schema;
#[cfg(test)]
mod shown;
#[cfg(test)]
mod statements;
#[cfg(test)]
mod steps;
#[cfg(test)]
mod story;
#[cfg(test)]
mod triggers;
#[cfg(test)]
mod waves;
