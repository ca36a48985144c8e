// Making messages and envelopes from raw parts.
#![tactic(auto)]

pub mod envelope;
mod groups;
pub mod message;
pub mod parts;
#[cfg(test)]
mod tests;
