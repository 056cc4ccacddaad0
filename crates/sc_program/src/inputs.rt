//! The files that are read.
use sc_intake::Source;
use sc_report::Watched;
use sc_runs::{Opening, RunFault};
use sc_words::FileWords;
use std::fs::File;
use std::rt::Files;

/// An input file.
pub fn open_input<R: Files>(
    rt: &R,
    path: &str,
    source: Source,
) -> Result<Watched<R::File>, RunFault> {
    match File::open(rt, path) {
        Ok(file) => Ok(Watched::new(file)),
        Err(_) => Err(RunFault::Read { source }),
    }
}

/// The files of an opening.
pub fn open_opening<R: Files>(rt: &R, words: &FileWords<'_>) -> Result<Opening<R::File>, RunFault> {
    Ok(Opening {
        schools: open_input(rt, words.schools, Source::Schools)?,
        roster: open_input(rt, words.roster, Source::Roster)?,
        lists: open_input(rt, words.lists, Source::Lists)?,
    })
}

/// An input file, if there is one.
pub fn open_if_any<R: Files>(
    rt: &R,
    path: Option<&str>,
    source: Source,
) -> Result<Option<Watched<R::File>>, RunFault> {
    match path {
        Some(path) => Ok(Some(open_input(rt, path, source)?)),
        None => Ok(None),
    }
}
