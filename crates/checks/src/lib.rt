//! Checks one after another, and the first that fails: definitions and lemmas, and no code.
#![tactic(auto)]
