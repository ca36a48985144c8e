// Reading messages, octet for octet.
#![tactic(auto)]

pub mod fault;
mod mandatory;
mod optional;
pub mod parameter;
pub mod reading;
mod values;
