//! Tests of sessions and of whole runs, through public calls. They stand above fl_session, so that it is proved once.
#![tactic(auto)]

#[cfg(test)]
mod asserts;
#[cfg(test)]
mod script_runs;
#[cfg(test)]
mod sessions;
#[cfg(test)]
mod whole_runs;
