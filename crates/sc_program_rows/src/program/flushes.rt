//! Flushes of what the program writes beside its output: no clause can speak of one.
use sc_program::{Place, end_without_words, fill_made, perform};
use sc_report::Watched;
use sc_report::devices::{Ending as DeviceEnding, FailingWriter};
use sc_runs::{Ending, PapersFile};
use std::alloc::Global;
use std::io::{self, ErrorKind, Write};
use std::process::Abort;

/// A writer that takes a text whole and then fails at its first flush.
fn unflushed(rt: &impl Abort, alloc: Global, text: &str) -> FailingWriter {
    let room = Vec::with_capacity(alloc, text.len()).expect(rt, "memory");
    let ending = DeviceEnding::FailsOnce(ErrorKind::Other);
    FailingWriter::new(room, text.len(), 999, ending)
}

/// A writer has taken the text, and has been flushed: its next flush is not the first, and so does not fail.
fn expect_flushed(rt: &impl Abort, mut to: FailingWriter, text: &str) {
    assert!(rt; to.taken() == text.as_bytes());
    assert!(rt; to.flush().is_ok());
}

const HEADER: &str = "school,zone,seats\n";

/// A place that notes that its file was taken away.
#[derive(Drop)]
struct NotedPlace<'a> {
    is_gone: &'a mut bool,
}

impl<'a> Place for NotedPlace<'a> {
    fn take_away(self) {
        *self.is_gone = true;
    }
}

#[test]
fn an_exported_file_that_cannot_be_flushed(rt: HostRuntime) {
    for file in [PapersFile::Schools, PapersFile::Roster, PapersFile::Lists] {
        let mut made = unflushed(&rt, rt.alloc(), HEADER);
        let mut is_gone = false;
        let place = NotedPlace {
            is_gone: &mut is_gone,
        };
        let answer = fill_made(Watched::new(&mut made), place, file, HEADER.as_bytes());
        assert!(rt; answer == Err(Ending::Unwritten { file }));
        assert!(rt; is_gone);
        assert!(rt; made.taken() == HEADER.as_bytes());
    }
}

#[test]
fn an_exported_file_that_is_whole_stays(rt: HostRuntime) {
    let mut made = Vec::new(rt.alloc());
    let mut is_gone = false;
    let place = NotedPlace {
        is_gone: &mut is_gone,
    };
    let answer = fill_made(
        Watched::new(&mut made),
        place,
        PapersFile::Lists,
        HEADER.as_bytes(),
    );
    assert!(rt; answer == Ok(()));
    assert!(rt; !is_gone);
    assert!(rt; made.as_slice() == HEADER.as_bytes());
}

const BUNDLE: &str = "clearinghouse: bundle\n";

// That the flush fails changes nothing of the status.
#[test]
fn a_fault_line_is_flushed(rt: HostRuntime) {
    let alloc = rt.alloc();
    let mut errors = unflushed(&rt, alloc, BUNDLE);
    let terminal: Option<Vec<u8>> = None;
    let status = perform(
        &rt,
        &[],
        b"".as_slice(),
        Vec::new(alloc),
        &mut errors,
        terminal,
    );
    assert!(rt; status == 3);
    expect_flushed(&rt, errors, BUNDLE);
}

const NOT_UTF_8: &str = "clearinghouse: a word of the command line is not UTF-8\n";

#[test]
fn a_line_about_words_is_flushed(rt: HostRuntime) {
    let mut errors = unflushed(&rt, rt.alloc(), NOT_UTF_8);
    let error = io::Error::from(ErrorKind::InvalidData);
    let status = end_without_words(rt.alloc(), &error, &mut errors);
    assert!(rt; status == 2);
    expect_flushed(&rt, errors, NOT_UTF_8);
}
