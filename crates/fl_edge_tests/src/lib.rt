//! Tests of a file as a medium, and of standard input and output with the replies between them, through public calls. They
//! stand above all that they call, so that each crate below is proved once.
#![tactic(auto)]

#[cfg(test)]
mod asserts;
#[cfg(test)]
mod image;
#[cfg(test)]
mod media;
#[cfg(test)]
mod order;
