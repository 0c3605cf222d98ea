//! Tests of whole runs over other stores than the one in memory: over parts, over one that stands still, and over a
//! database in memory and in a file; and of runs of clients over stores that fail, find no memory or are damaged.
#![tactic(auto)]

#[cfg(test)]
mod client_damage;
#[cfg(test)]
mod client_pairs;
#[cfg(test)]
mod client_runs;
#[cfg(test)]
mod client_stops;
#[cfg(test)]
mod clients;
#[cfg(test)]
mod databases;
#[cfg(test)]
mod files;
#[cfg(test)]
mod frozen;
#[cfg(test)]
mod held_intent;
#[cfg(test)]
mod many_writes;
#[cfg(test)]
mod parts;
#[cfg(test)]
mod scarce;
#[cfg(test)]
mod transactions;
#[cfg(test)]
mod undone;
