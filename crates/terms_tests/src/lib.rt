//! Worked cases of the crate `terms`. The expected values are worked out by hand from docs/TERMS.md and docs/REFUSALS.md.
#![tactic(auto)]

#[cfg(test)]
mod bounded;
#[cfg(test)]
mod lists;
#[cfg(test)]
mod literals;
#[cfg(test)]
mod roles;
