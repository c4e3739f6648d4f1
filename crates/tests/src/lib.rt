//! Tests of what no contract states, by subject, and known values of callers.
#![tactic(auto)]

#[cfg(test)]
mod callers;
#[cfg(test)]
mod calls;
#[cfg(test)]
mod expect;
#[cfg(test)]
mod memory;
