//! Tests of a run that no program can make: readers and writers that fail at any call or byte, and a hook. What lists,
//! arguments and the devices of a system can show stands in tests/program.
#![tactic(auto)]

#[cfg(test)]
mod cases;
#[cfg(test)]
mod devices;
#[cfg(test)]
mod half;
#[cfg(test)]
mod runs;
