//! Pages: the page of a defined query's answer, with the cursor of the next one; and the answer of a query that is run
//! once.
#![tactic(auto)]

mod once;
mod page;

pub use once::run_once;
pub use page::{Page, run_page};
