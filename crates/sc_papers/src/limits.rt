//! How large papers may grow. The definitions of well-formed papers cite these numbers, and so does
//! every test of a limit.

/// How many schools there may be.
pub const MOST_SCHOOLS: usize = 5_000;

/// How many students there may be.
pub const MOST_STUDENTS: usize = 200_000;

/// How many schools one list may name: a student's choices, or the schools of their siblings.
pub const LONGEST_LIST: usize = 20;
