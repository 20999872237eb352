//! What a call leaves of a flash, and why it failed: the words of contracts that change a flash, or only look at it, as definitions
//! and laws alone.
#![tactic(auto)]

mod laws;

pub use laws::unarmed_flash_loses_no_power;
