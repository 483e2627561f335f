//! Tables that are written, and arguments that request them.
mod printing;
mod readers;
mod refused;
mod run;
mod widths;
mod words;
