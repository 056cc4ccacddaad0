//! Standings as texts.

use sc_papers::{Rejection, StudentNo};
use sc_repair::Clearing;
use std::alloc::{AllocError, Global};

/// What the student has, or 0.
fn place(clearing: &Clearing, student: StudentNo) -> u32 {
    match clearing.place_of(student) {
        Some(Some(school)) => school.get(),
        _ => 0,
    }
}

/// The rejections of a log as a text: `(1,10)(2,20)`.
pub fn log_text(alloc: Global, log: &[Rejection]) -> Result<String, AllocError> {
    let mut text = String::new(alloc);
    for entry in log {
        write!(text, "({},{})", entry.student.get(), entry.school.get())?;
    }
    Ok(text)
}

/// Each student's place as a text, in order of entry: `1:20 2:0 3:10`, where 0 stands for no place.
pub fn places_text(alloc: Global, clearing: &Clearing) -> Result<String, AllocError> {
    let mut text = String::new(alloc);
    for position in 0..clearing.papers().students_len() {
        if let Some(student) = clearing.papers().student_at(position) {
            write!(text, "{}:{} ", student.get(), place(clearing, student))?;
        }
    }
    Ok(text)
}

/// The standing as a text: the places, and the log, as `1:20 2:0 3:10 |(1,10)(2,20)(2,10)`.
pub fn standing(alloc: Global, clearing: &Clearing) -> Result<String, AllocError> {
    let places = places_text(alloc, clearing)?;
    let log = log_text(alloc, clearing.log()?.as_slice())?;
    format!(in alloc; "{places}|{log}")
}
