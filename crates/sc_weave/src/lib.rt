//! Segmented logs of a part of the students, and of two parts woven into one.
//!
//! Where no student of a region lists a school that a student outside it lists, the segments of those outside
//! outlast each amendment within the region: they need only be woven with new segments of the region. The laws
//! say so; the definitions stand in `specs/`.
#![tactic(auto)]

pub mod laws;
