//! Tests of `pool`, through what it makes public.
#![tactic(auto)]

#[cfg(test)]
mod beside;
#[cfg(test)]
mod dealing;
#[cfg(test)]
mod deques;
#[cfg(test)]
mod gates;
#[cfg(test)]
mod running;
#[cfg(test)]
mod threads;
#[cfg(test)]
mod waiting;
