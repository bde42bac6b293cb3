//! Tests of cells, rules, texts, shapes and codes, of planes and their kernels, and of the outcomes of patterns: that each call
//! succeeds where there is enough memory, and that generic code does so with each kind of plane.
//!
//! Each example's answer was worked out by hand or is known from elsewhere: patterns of LifeWiki by their period, displacement
//! and apgcode, gliders by their paths, texts by their format.
//!
//! Tests of the built program on texts, codes and patterns, and on random cells under many rules, are in `checks/rows`.
#![tactic(auto)]

#[cfg(test)]
mod calls;
#[cfg(test)]
mod found;
#[cfg(test)]
mod kernels;
#[cfg(test)]
mod planes;
#[cfg(test)]
mod shapes;
