//! What a stop scan rests on: that one range of a serving sequence for each input, cut and merged by
//! position, is what the stop scan means, down to the keys of the store. Definitions and laws alone.
#![tactic(auto)]

mod laws;

pub use laws::stop_scan_laws;
