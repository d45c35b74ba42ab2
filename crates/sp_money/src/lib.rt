//! Which outputs are unspent and what is left under each lock, kept while acceptance turns: a
//! transaction that turns costs a few steps for each of its outputs and inputs, and a balance is one
//! look-up. It stands on the definitions of unspent outputs and balances in the crate of the
//! carriers.
#![tactic(auto)]

mod cuts;
mod flips;
mod locks;
mod lookups;
mod prepare;
mod purse;
mod slot;
mod store;
mod unspent;

pub use purse::Purse;
