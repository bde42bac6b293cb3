//! Tests of sets that recur, of the ash of patterns, of their growth, of the plane that leaps, and of reports on single
//! patterns: that each call succeeds where there is enough memory, and, for calls that may give up, the results that no
//! contract promises.
//!
//! The findings of the built program about patterns, and its words about faults, are in `checks/rows`.
#![tactic(auto)]

#[cfg(test)]
mod ash;
#[cfg(test)]
mod beginnings;
#[cfg(test)]
mod classes;
#[cfg(test)]
mod engines;
#[cfg(test)]
mod faults;
#[cfg(test)]
mod identified;
#[cfg(test)]
mod leaps;
#[cfg(test)]
mod one_object;
#[cfg(test)]
mod onsets;
#[cfg(test)]
mod orbits;
#[cfg(test)]
mod strays;
