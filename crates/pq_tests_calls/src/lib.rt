//! Tests of calls at real types, each alone: stores and what stands over them, commits and builds that are stopped, and
//! the operators that run a plan's nodes.
#![tactic(auto)]

#[cfg(test)]
mod asked;
#[cfg(test)]
mod build_rows;
#[cfg(test)]
mod builds;
#[cfg(test)]
mod calls;
#[cfg(test)]
mod changes;
#[cfg(test)]
mod failing_join;
#[cfg(test)]
mod lines;
#[cfg(test)]
mod operators;
#[cfg(test)]
mod pages;
#[cfg(test)]
mod parts;
#[cfg(test)]
mod plain;
#[cfg(test)]
mod recounted;
#[cfg(test)]
mod rows;
#[cfg(test)]
mod sorted;
#[cfg(test)]
mod stored;
#[cfg(test)]
mod stores;
