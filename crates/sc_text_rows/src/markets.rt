//! The worked markets, as the rows of the three files.
use sc_markets::{LISTS_A, SCHOOLS_A, SCHOOLS_B, STUDENTS_A};

/// The rows of schools, roster and lists.
pub(crate) type Rows = (&'static str, &'static str, &'static str);

/// Schools 10 and 20, each the sibling's school of the student who ranks it last.
pub(crate) const MARKET_A: Rows = (SCHOOLS_A, STUDENTS_A, LISTS_A);

/// Market A with school 10 in a zone.
pub(crate) const MARKET_B: Rows = (SCHOOLS_B, STUDENTS_A, LISTS_A);
