//! Tests of `canvas`, through what it makes public.
#![tactic(auto)]

#[cfg(test)]
mod fixtures;
#[cfg(test)]
mod pictures;
#[cfg(test)]
mod ways;
