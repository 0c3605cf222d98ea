//! Keys whose byte order is the order of the values, and the keys of the store.
//!
//! A list of values and directions has one code, and two codes compare by their bytes as the
//! lists compare by their values. `key_code_laws` states what callers build on.
#![tactic(auto)]

mod decode;
mod encode;
mod keys;
mod laws;

pub use decode::{checked_text, decode_key};
pub use encode::{encode_key, put_component};
pub use keys::{catalog_key, entry_front, entry_key, intent_key, past, row_front, row_key};
pub use laws::key_code_laws;
