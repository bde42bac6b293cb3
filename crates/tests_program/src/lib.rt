//! Tests of feeds, workers and runs, and of the response of the program to a command line.
//!
//! More commands and bundles are in `checks/rows`, reading from a disk is in `checks/disk`, and failing streams and refused
//! memory are in `checks/ends` and `checks/growths`.
#![tactic(auto)]

#[cfg(test)]
mod bundles;
#[cfg(test)]
mod commands;
#[cfg(test)]
mod ends;
#[cfg(test)]
mod errors;
#[cfg(test)]
mod feeds;
#[cfg(test)]
mod files;
#[cfg(test)]
mod gates;
#[cfg(test)]
mod program;
#[cfg(test)]
mod runs;
