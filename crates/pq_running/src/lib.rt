//! What a RUN asks for: what refuses it before any call of the store, where its page begins, its bound and its page.
#![tactic(auto)]

mod beginning;

pub use beginning::{PositionShape, begin, check_params, page_size, position_shape};
