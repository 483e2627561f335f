//! Sizes, tables, and tables over a source: calls that `tests/memory` refuses memory, and rows that were worked out by
//! hand. All other tests of these libraries are in `tests/calls`.
#![tactic(auto)]

#[cfg(test)]
mod tests;
