//! Each growth refused: the calls that take memory, one test each. A test makes its call, and where memory
//! is refused sees that all is left as the call promises, and makes it again, which has to succeed.
//!
//! With ample memory a test sees the happy path alone. `checks/growths.py` runs this crate's tests again and
//! again, with the first growth refused, then the second, and so on past the last. Tests alone, over public
//! calls; it holds nothing that a program calls.
#![tactic(auto)]

#[cfg(test)]
mod calls;
#[cfg(test)]
mod comparing;
#[cfg(test)]
mod libraries;
#[cfg(test)]
mod market;
#[cfg(test)]
mod twice;
