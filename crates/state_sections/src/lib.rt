// Reads the sections of a manifest, one at a time, questions 3 to 9, and puts where its entries start into lent words.
#![tactic(auto)]

mod entries;
mod layouts;
pub mod lists;
pub mod tables;
pub mod values;
