// The messages that exchanges send one another, as values: their types, codes and making.
#![tactic(auto)]

pub mod codes;
pub mod groups;
pub mod message;
pub mod row;
