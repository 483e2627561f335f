//! Tests of the libraries that read and edit styled text, by their public calls.
#![tactic(auto)]

#[cfg(test)]
mod tests;
