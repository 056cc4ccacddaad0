//! What the program does on the words of a command line, in the worked rows: files in, text out. Tests alone, over
//! public calls; it holds nothing that a program calls.
#![tactic(auto)]

#[cfg(test)]
mod comparing;
#[cfg(test)]
mod program;
