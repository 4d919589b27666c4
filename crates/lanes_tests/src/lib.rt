//! Tests of `gradients`, `deep_planes` and `lanes`, through what they make public.
#![tactic(auto)]

#[cfg(test)]
mod blocks;
#[cfg(test)]
mod deep_depths;
#[cfg(test)]
mod fixtures;
#[cfg(test)]
mod random;
#[cfg(test)]
mod values;
