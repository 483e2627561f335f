//! Tables that `run` writes, and arguments that request them: rows that were worked out by hand, and runs in which
//! `tests/memory` makes requests for memory fail. All other tests of the libraries that make the tables of `columns`
//! are in `tests/calls`.
#![tactic(auto)]

#[cfg(test)]
mod tests;
