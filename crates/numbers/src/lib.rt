// Telephone numbers: making, reading and writing them octet for octet.
#![tactic(auto)]

pub mod draft;
pub mod number;
pub mod refusal;
