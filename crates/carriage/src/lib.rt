// Carriers: envelopes that wait, in the order in which they were put, until they are taken.
#![tactic(auto)]

pub mod carrier;
pub mod list;
pub mod moving;
pub mod question;
pub mod record;
pub mod slot;
#[cfg(test)]
mod tests;
