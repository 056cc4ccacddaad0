//! The worked rows: markets whose settlings are known from the rules, and what the libraries answer for
//! them. It is a crate of tests alone, which call what is public.
#![tactic(auto)]

#[cfg(test)]
mod audits;
#[cfg(test)]
mod clearings;
#[cfg(test)]
mod comparing;
#[cfg(test)]
mod desks;
#[cfg(test)]
mod districts;
#[cfg(test)]
mod given;
#[cfg(test)]
mod lottery;
#[cfg(test)]
mod papers;
#[cfg(test)]
mod ranges;
#[cfg(test)]
mod refusals;
#[cfg(test)]
mod regions;
#[cfg(test)]
mod rewinding;
#[cfg(test)]
mod rolls;
#[cfg(test)]
mod rounds;
#[cfg(test)]
mod segments;
#[cfg(test)]
mod taking_back;
