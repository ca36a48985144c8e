// Option stores: what a number's holder has asked for, by service and kind of diversion, and whether the number is withheld.
#![tactic(auto)]

pub mod cells;
pub mod question;
pub mod record;
pub mod store;
