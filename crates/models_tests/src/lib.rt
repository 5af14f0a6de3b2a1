//! Worked cases of the crate `models`. The expected values are worked out by hand from docs/SEMANTICS.md and docs/SAMPLES.md.
#![tactic(auto)]

#[cfg(test)]
mod judging;
#[cfg(test)]
mod lists;
#[cfg(test)]
mod tables;
#[cfg(test)]
mod telling;
