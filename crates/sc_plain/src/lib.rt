//! The definitions once more, as a slow plain program, and the tests in which it meets the proved crates:
//! worked rows, and small markets drawn at random. Two more tests amend such markets: one compares each
//! standing with a settling from scratch, and one weaves the lists of three desks. It holds nothing that a program calls.
#![tactic(auto)]

#[cfg(test)]
mod amendments;
#[cfg(test)]
mod audits;
#[cfg(test)]
mod comparing;
#[cfg(test)]
mod desks;
#[cfg(test)]
mod markets;
#[cfg(test)]
mod plain;
#[cfg(test)]
mod random;
#[cfg(test)]
mod rows;
