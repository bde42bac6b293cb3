//! Tests of readers and writers that end, fail or go on without end, and of the uses of reports: one report, tables, pages,
//! patterns that are the same object, and verdicts on claims.
//!
//! More reports, with the line of each fault, are in `checks/rows` and `checks/mutations`, and failing reads and refused memory
//! are in `checks/ends` and `checks/growths`.
#![tactic(auto)]

#[cfg(test)]
mod ends;
#[cfg(test)]
mod page;
#[cfg(test)]
mod reports;
