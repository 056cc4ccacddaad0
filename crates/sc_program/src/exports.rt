//! Exported papers, written into a folder.
use crate::inputs::{open_if_any, open_opening};
use crate::messages::fill;
use sc_intake::Source;
use sc_papers::Seed;
use sc_report::Watched;
use sc_runs::{Ending, PapersFile, PapersFiles, RunFault, export_files};
use sc_words::OpeningWords;
use std::fs::{OpenOptions, remove_file};
use std::io;
use std::io::Write;
use std::path::{Path, PathBuf};
use std::rt::Files;

/// Where a file was made, so that it can be taken away again.
pub trait Place {
    /// Takes the file away. Where that cannot be, nothing more can be done.
    fn take_away(self);
}

/// The place of a file among those of the system.
#[derive(Drop)]
struct FilePlace<'a, R> {
    rt: &'a R,
    path: &'a PathBuf,
}

impl<'a, R: Files> Place for FilePlace<'a, R> {
    fn take_away(self) {
        let _ = remove_file(self.rt, self.path);
    }
}

/// Writes a text whole into the file of exported papers that was made for it, and flushes it. One that cannot be written
/// whole is taken away.
pub fn fill_made<W: Write + Drop, P: Place + Drop>(
    mut made: Watched<W>,
    place: P,
    file: PapersFile,
    text: &[u8],
) -> Result<(), Ending> {
    let filled = fill(&mut made, text);
    drop(made);
    match filled {
        Ok(()) => Ok(()),
        Err(_) => {
            place.take_away();
            Err(Ending::Unwritten { file })
        }
    }
}

/// Makes a file of exported papers in a folder, and writes it whole. A file of this name that is there
/// already is left as it is; one that was made here and could not be written whole is removed.
fn write_new<R: Files + AllocGlobal>(
    rt: &R,
    folder: &str,
    file: PapersFile,
    text: &[u8],
) -> Result<(), Ending> {
    let Ok(path) = Path::new(folder).join(rt.alloc(), file.name()) else {
        return Err(Ending::Fault(RunFault::OutOfMemory));
    };
    let made = match OpenOptions::new()
        .write(true)
        .create_new(true)
        .open(rt, &path)
    {
        Ok(made) => Watched::new(made),
        Err(error) if error.kind() == io::ErrorKind::AlreadyExists => {
            return Err(Ending::AlreadyThere { file });
        }
        Err(_) => return Err(Ending::Unwritten { file }),
    };
    fill_made(made, FilePlace { rt, path: &path }, file, text)
}

/// Writes the files of papers into a folder, in the order schools, roster, lists. An empty text names no folder.
fn write_papers<R: Files + AllocGlobal>(
    rt: &R,
    folder: &str,
    files: &PapersFiles,
) -> Result<(), Ending> {
    if folder.is_empty() {
        return Err(Ending::Unwritten {
            file: PapersFile::Schools,
        });
    }
    write_new(rt, folder, PapersFile::Schools, files.schools.as_slice())?;
    write_new(rt, folder, PapersFile::Roster, files.roster.as_slice())?;
    write_new(rt, folder, PapersFile::Lists, files.lists.as_slice())
}

/// Exports the papers of an opening into a folder, as they stand after a journal if there is one.
pub fn export_papers<R: Files + AllocGlobal>(
    rt: &R,
    seed: &Seed,
    words: &OpeningWords<'_>,
    to: &str,
    journal: Option<&str>,
) -> Result<Ending, RunFault> {
    let mut opening = open_opening(rt, &words.files)?;
    let mut journal = open_if_any(rt, journal, Source::Journal)?;
    let exported = export_files(rt.alloc(), seed, &mut opening, &mut journal)?;
    match write_papers(rt, to, &exported.files) {
        Ok(()) => Ok(Ending::from(exported.tail)),
        Err(ending) => Ok(ending),
    }
}
