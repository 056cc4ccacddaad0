//! Markets for tests: papers, amendments and assignments from texts, the worked markets by name, and
//! the text of a standing. All papers have the seed of 64 zeros. It holds nothing that a program calls.
#![tactic(auto)]

mod readings;
mod texts;
mod worked;

pub use readings::{
    amendment, assignment, clearing, papers, roster_header, seen, stamp_of, stamped,
};
pub use texts::{log_text, places_text, standing};
pub use worked::{
    FIVE_STUDENTS, Files, LISTS_A, MARKET_A, MARKET_B, MARKET_B_AND_NEWCOMER, MARKET_B_CONTINUING,
    SCHOOLS_A, SCHOOLS_B, STUDENTS_A, TWO_STUDENTS, market_a, market_b,
};
