//! Tests of `history`, through what it makes public and no program calls. What reports show of it stands in
//! tests/program.
#![tactic(auto)]

#[cfg(test)]
mod samples;
