//! The page of a key among numbered pages whose first keys are read one by one.
#![tactic(auto)]

mod downwards;
mod halves;
mod keys;

pub use downwards::near;
pub use halves::bisect;
pub use keys::FirstKeys;
