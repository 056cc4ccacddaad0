//! Checks of files, of which a line tells where one cannot be read.
use crate::messages::fill;
use sc_intake::Source;
use sc_papers::Seed;
use sc_report::Watched;
use sc_runs::{Ending, FileNames, Opening, RunFault, check_files};
use sc_words::FileWords;
use std::alloc::Global;
use std::fs::File;
use std::io;
use std::io::Write;
use std::random::RandomSource;
use std::rt::Files;

/// The hexadecimal digits.
const DIGITS: &[u8; 16] = b"0123456789abcdef";

/// The digits of a seed that nobody could know. Where the system gives no random bytes they are noughts.
fn unknown_digits<R: RandomSource>(rt: &R) -> [u8; 64] {
    let mut digits = [0; 64];
    if rt.fill_bytes(&mut digits).is_err() {
        return [b'0'; 64];
    }
    for digit in &mut digits {
        *digit = DIGITS[usize::from(*digit % 16)];
    }
    digits
}

/// What is said of an input that cannot be read to its end, as a folder.
const UNREAD: &str = "it cannot be read to its end";

/// What is said of an input that cannot be opened.
fn unopened(kind: io::ErrorKind) -> &'static str {
    match kind {
        io::ErrorKind::NotFound => "there is none",
        io::ErrorKind::PermissionDenied => "this one may not be opened",
        _ => "this one cannot be opened",
    }
}

/// Writes the line of an input that cannot be read, and flushes it.
fn tell_unread<W: Write>(
    alloc: Global,
    name: &str,
    why: &str,
    out: &mut Watched<W>,
) -> Result<(), RunFault> {
    let Ok(line) = format!(in alloc; "{name}: a file that can be read is expected; {why}. Unread\n")
    else {
        return Err(RunFault::OutOfMemory);
    };
    match fill(out, line.as_bytes()) {
        Ok(()) => Ok(()),
        Err(_) => Err(RunFault::WriteOut),
    }
}

/// An input file that is checked. Where it cannot be opened, a line says so.
fn open_checked<R: Files + AllocGlobal, W: Write>(
    rt: &R,
    path: &str,
    source: Source,
    out: &mut Watched<W>,
) -> Result<Watched<R::File>, RunFault> {
    match File::open(rt, path) {
        Ok(file) => Ok(Watched::new(file)),
        Err(error) => {
            tell_unread(rt.alloc(), path, unopened(error.kind()), out)?;
            Err(RunFault::Read { source })
        }
    }
}

/// The files of an opening that are checked.
fn open_told<R: Files + AllocGlobal, W: Write>(
    rt: &R,
    words: &FileWords<'_>,
    out: &mut Watched<W>,
) -> Result<Opening<R::File>, RunFault> {
    Ok(Opening {
        schools: open_checked(rt, words.schools, Source::Schools, out)?,
        roster: open_checked(rt, words.roster, Source::Roster, out)?,
        lists: open_checked(rt, words.lists, Source::Lists, out)?,
    })
}

/// The script that is checked, if there is one.
fn open_script_told<R: Files + AllocGlobal, W: Write>(
    rt: &R,
    script: Option<&str>,
    out: &mut Watched<W>,
) -> Result<Option<Watched<R::File>>, RunFault> {
    match script {
        Some(path) => Ok(Some(open_checked(rt, path, Source::Script, out)?)),
        None => Ok(None),
    }
}

/// The name of an input that is checked.
fn name_of<'a>(names: &FileNames<'a>, source: Source) -> &'a str {
    match source {
        Source::Schools => names.schools,
        Source::Roster => names.roster,
        Source::Lists => names.lists,
        _ => names.script,
    }
}

/// Tells every fault of the files of an opening, and of a script if there is one. No seed changes the faults, and one
/// that nobody could know keeps this fast, whatever numbers the files were given to slow it down.
pub fn check<R: Files + AllocGlobal + RandomSource, W: Write>(
    rt: &R,
    words: &FileWords<'_>,
    script: Option<&str>,
    out: &mut Watched<W>,
) -> Result<Ending, RunFault> {
    let seed = match Seed::from_hex(&unknown_digits(rt)) {
        Ok(seed) => seed,
        Err(error) => return Ok(Ending::BadSeed(error)),
    };
    let names = FileNames {
        schools: words.schools,
        roster: words.roster,
        lists: words.lists,
        script: script.unwrap_or(""),
    };
    let mut opening = open_told(rt, words, out)?;
    let mut script = open_script_told(rt, script, out)?;
    match check_files(rt.alloc(), &seed, &names, &mut opening, &mut script, out) {
        Ok(checked) => Ok(Ending::from(checked)),
        Err(RunFault::Read { source }) => {
            tell_unread(rt.alloc(), name_of(&names, source), UNREAD, out)?;
            Err(RunFault::Read { source })
        }
        Err(fault) => Err(fault),
    }
}
