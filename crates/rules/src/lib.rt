// The rules of the network: what each call does, the ledger that is kept of them, and the laws of every run.
#![tactic(auto)]

pub mod arrival;
pub mod laws;
pub mod leg;
pub mod note;
pub mod request;
