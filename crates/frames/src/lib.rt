// Envelopes as frames of octets, and the carrier that holds them.
#![tactic(auto)]

pub mod carrier;
pub mod frame;
