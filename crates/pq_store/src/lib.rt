//! A store of pairs of bytes with rising keys, the meter that counts its calls, and the allowance
//! that bounds them.
//!
//! Whoever uses a store knows it by the trait `Store` alone: a content that is a finite map from
//! keys to values, and calls whose answers, costs and faults are exactly told.
#![tactic(auto)]

mod allowance;
mod damage;
mod meter;
mod part_check;
mod store;

pub use allowance::Allowance;
pub use damage::{Broke, Damage};
pub use meter::{Meter, Opening};
pub use part_check::{is_part, rise};
pub use store::{Ends, Guard, Pair, Store, StoreErr, Test, pair_of};
