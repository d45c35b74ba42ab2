//! Tests of nodes that send each other blocks, and of scripts.
#![tactic(auto)]

#[cfg(test)]
mod net;
#[cfg(test)]
mod profile;
#[cfg(test)]
mod schedule;
#[cfg(test)]
mod script;
