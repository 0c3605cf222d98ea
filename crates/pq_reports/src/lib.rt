//! Reports of statements: the step of the model that each statement makes, what its report tells of it, and what a call
//! that makes it promises.
#![tactic(auto)]

mod asking;
mod reports;
mod telling;

pub use asking::request_of;
pub use reports::{
    COUNTER_BOUND, NO_CALLS, NOTHING_USED, READ_BOUND, build_report, counter_report,
    crowded_report, define_report, done_report, in_batch_report, misread_report, refusal_report,
    too_many_report, unpaid_report, unread_report,
};
pub use telling::{lines_of, plan_report, show};
