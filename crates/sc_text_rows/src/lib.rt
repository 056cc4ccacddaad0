//! What the formats read as and what the calls write, in the worked rows: text in, text out. Tests alone,
//! over public calls; it holds nothing that a program calls.
#![tactic(auto)]

#[cfg(test)]
mod comparing;
#[cfg(test)]
mod intake;
#[cfg(test)]
mod journal;
#[cfg(test)]
mod markets;
#[cfg(test)]
mod report;
#[cfg(test)]
mod runs;
