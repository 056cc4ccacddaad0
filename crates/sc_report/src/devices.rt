//! Devices for tests: they pass a set number of bytes or calls, in pieces of a set size, and then fail, for ever or once.
ghost use Rattle.std.specs.Prelude.{◌≡◌, ◌-◌, ◌<◌, ◌≤◌, max, Some, IfOk, IfSome, IsErr, IsOk, IsSome, Ok, ◌↔◌, true, false};
ghost use Rattle.std.specs.Io.{ReadsAtMost, WritesAtMost};
ghost use Rattle.std.specs.Io.KnownBytes.{Keeps, ReadConsumes, WriteAppends};
ghost use Rattle.sc_report.specs.Devices.{after_fault, bytes_left, bytes_taken, ending_of, gives_left, is_once, is_spent, passes_after, moves, reader_fails_once, reader_piece, takes_left, writer_piece};
ghost use Rattle.sc_report.specs.declared.devices.Ending.TheVariants.{Fails, TakesNone};
ghost use Rattle.sc_report.specs.declared.devices.Passes.TheVariants.{All, Bytes, Calls};

use std::io::{self, ErrorKind, Read, Write};

/// How much a device passes before it fails.
#[derive(Clone, Copy, Debug, PartialEq, Eq)]
pub enum Passes {
    /// So many bytes.
    Bytes(usize),
    /// So many reads or writes, whatever they move.
    Calls(usize),
    /// All.
    All,
}

impl Passes {
    // Whether nothing more is passed.
    fn is_spent(self) -> bool
        ensures { result ≡ is_spent self }
    {
        matches!(self, Passes::Bytes(0) | Passes::Calls(0))
    }

    // The most bytes that a call may move of `asked`, or `None` where nothing more is passed.
    fn most(self, asked: usize) -> Option<usize>
        ensures spent { IsSome result ↔ (is_spent self ≡ false) }
        ensures within { IfSome result (λ most. most ≤ asked) }
        ensures left { IfSome result (λ most. moves self most) }
        ensures some { IfSome result (λ most. 0 < asked → 0 < most) }
    {
        match self {
            Passes::Bytes(0) | Passes::Calls(0) => None,
            Passes::Bytes(left) => Some(asked.min(left)),
            Passes::Calls(_) | Passes::All => Some(asked),
        }
    }

    // What is passed after a call that moved `count` bytes.
    fn after(self, count: usize) -> Passes
        requires { moves self count }
        ensures { result ≡ passes_after count self }
    {
        match self {
            Passes::Bytes(left) => Passes::Bytes(left - count),
            Passes::Calls(left) => Passes::Calls(left - 1),
            Passes::All => Passes::All,
        }
    }

    // What is passed after a call that failed, of a device that fails only once or for ever.
    fn after_fault(self, once: bool) -> Passes
        ensures { result ≡ after_fault once self }
    {
        if once { Passes::All } else { self }
    }
}

/// A reader over memory that fails in mid-stream.
#[derive(Clone, Copy)]
pub struct FailingReader<'a> {
    bytes: &'a [u8],
    passes: Passes,
    piece: usize,
    kind: ErrorKind,
    once: bool,
}

impl<'a> FailingReader<'a> {
    /// Gives the first `passes` of `bytes`, at most `piece` of them in one call (one, if that is 0),
    /// and then fails with an error of this kind. Where `bytes` are fewer it comes to their end.
    pub fn new(bytes: &'a [u8], passes: usize, piece: usize, kind: ErrorKind) -> FailingReader<'a>
        ensures bytes { bytes_left result ≡ bytes.now }
        ensures passes { gives_left result ≡ Bytes passes }
        ensures piece { reader_piece result ≡ piece }
        ensures for_ever { reader_fails_once result ≡ false }
    {
        FailingReader {
            bytes,
            passes: Passes::Bytes(passes),
            piece,
            kind,
            once: false,
        }
    }

    /// The same, but it fails after so many calls, whatever they give.
    pub fn after_calls(
        bytes: &'a [u8],
        calls: usize,
        piece: usize,
        kind: ErrorKind,
    ) -> FailingReader<'a>
        ensures bytes { bytes_left result ≡ bytes.now }
        ensures passes { gives_left result ≡ Calls calls }
        ensures piece { reader_piece result ≡ piece }
        ensures for_ever { reader_fails_once result ≡ false }
    {
        FailingReader {
            bytes,
            passes: Passes::Calls(calls),
            piece,
            kind,
            once: false,
        }
    }

    /// The same, but it fails once: each later call gives what is there.
    pub fn once(self) -> FailingReader<'a>
        ensures bytes { bytes_left result ≡ bytes_left self.entry }
        ensures passes { gives_left result ≡ gives_left self.entry }
        ensures piece { reader_piece result ≡ reader_piece self.entry }
        ensures once { reader_fails_once result ≡ true }
    {
        FailingReader { once: true, ..self }
    }
}

impl Read for FailingReader<'_> {
    ghost remaining = { λ reader. Some reader.bytes.now };

    fn read(&mut self, buffer: &mut [u8]) -> io::Result<usize>
        ensures bound { ReadsAtMost result buffer.new }
        ensures bytes { ReadConsumes (Some (bytes_left self.old)) (Some (bytes_left self.new)) result buffer.new }
        ensures fails { is_spent (gives_left self.old) ≡ true → IsErr result }
        ensures gives { is_spent (gives_left self.old) ≡ false → IsOk result }
        ensures passes { IfOk result (λ count. gives_left self.new ≡ passes_after count (gives_left self.old)) }
        ensures piece { IfOk result (λ count. count ≤ max 1 (reader_piece self.old)) }
        ensures after_fault { is_spent (gives_left self.old) ≡ true
            → gives_left self.new ≡ after_fault (reader_fails_once self.old) (gives_left self.old) }
        ensures same { reader_piece self.new ≡ reader_piece self.old }
        ensures once { reader_fails_once self.new ≡ reader_fails_once self.old }
    {
        let Some(most) = self.passes.most(buffer.len().min(self.piece.max(1))) else {
            self.passes = self.passes.after_fault(self.once);
            return Err(self.kind.into());
        };
        let count = self.bytes.read(&mut buffer[..most])?;
        self.passes = self.passes.after(count);
        Ok(count)
    }
}

/// How the calls of a failing writer end once it has passed what it passes.
#[derive(Clone, Copy, Debug, PartialEq, Eq)]
pub enum Ending {
    /// Each write and each flush is an error.
    Fails,
    /// Each write takes nothing and is no error, and a flush is well.
    TakesNone,
    /// One write or flush is an error of this kind, and then all is taken.
    FailsOnce(ErrorKind),
}

impl Ending {
    // Whether one call fails and the later ones do not.
    fn is_once(self) -> bool
        ensures { result ≡ is_once self }
    {
        matches!(self, Ending::FailsOnce(_))
    }
}

/// A writer into memory that fails in mid-stream.
#[derive(Drop)]
pub struct FailingWriter {
    taken: Vec<u8>,
    passes: Passes,
    piece: usize,
    ending: Ending,
}

impl FailingWriter {
    /// Takes `passes` bytes after those in `taken`, at most `piece` of them in one call (one, if that
    /// is 0), and then ends as said.
    ///
    /// The room for what it takes is to be there beforehand: a growth that is refused is a failed write.
    pub fn new(taken: Vec<u8>, passes: usize, piece: usize, ending: Ending) -> FailingWriter
        ensures taken { bytes_taken result ≡ taken.items }
        ensures passes { takes_left result ≡ Bytes passes }
        ensures piece { writer_piece result ≡ piece }
        ensures ending { ending_of result ≡ ending }
    {
        FailingWriter {
            taken,
            passes: Passes::Bytes(passes),
            piece,
            ending,
        }
    }

    /// The same, but it ends so after this many writes, whatever they take.
    pub fn after_calls(taken: Vec<u8>, calls: usize, piece: usize, ending: Ending) -> FailingWriter
        ensures taken { bytes_taken result ≡ taken.items }
        ensures passes { takes_left result ≡ Calls calls }
        ensures piece { writer_piece result ≡ piece }
        ensures ending { ending_of result ≡ ending }
    {
        FailingWriter {
            taken,
            passes: Passes::Calls(calls),
            piece,
            ending,
        }
    }

    /// What it took so far.
    pub fn taken(&self) -> &[u8]
        ensures { result.now ≡ bytes_taken self.now }
    {
        self.taken.as_slice()
    }

    // What a call answers once nothing more is passed: an error, or `calm` where the ending has none.
    fn end<V: Drop>(&mut self, calm: V) -> io::Result<V>
        ensures bytes { bytes_taken self.new ≡ bytes_taken self.old }
        ensures fails { ending_of self.old ≡ Ending.Fails → IsErr result }
        ensures takes_none { ending_of self.old ≡ Ending.TakesNone → result ≡ Ok calm }
        ensures once { is_once (ending_of self.old) ≡ true → IsErr result }
        ensures passes { takes_left self.new ≡ after_fault (is_once (ending_of self.old)) (takes_left self.old) }
        ensures piece { writer_piece self.new ≡ writer_piece self.old }
        ensures ending { ending_of self.new ≡ ending_of self.old }
    {
        self.passes = self.passes.after_fault(self.ending.is_once());
        match self.ending {
            Ending::Fails => Err(ErrorKind::BrokenPipe.into()),
            Ending::FailsOnce(kind) => Err(kind.into()),
            Ending::TakesNone => Ok(calm),
        }
    }
}

impl Write for FailingWriter {
    ghost contents = { λ writer. Some writer.taken.items };

    fn write(&mut self, bytes: &[u8]) -> io::Result<usize>
        ensures bound { WritesAtMost result bytes.now }
        ensures bytes { WriteAppends (Some (bytes_taken self.old)) (Some (bytes_taken self.new)) result bytes.now }
        ensures fails { is_spent (takes_left self.old) ≡ true → ending_of self.old ≡ Ending.Fails → IsErr result }
        ensures takes_none { is_spent (takes_left self.old) ≡ true → ending_of self.old ≡ Ending.TakesNone
            → result ≡ Ok 0 }
        ensures fails_once { is_spent (takes_left self.old) ≡ true → is_once (ending_of self.old) ≡ true
            → IsErr result }
        ensures after_fault { is_spent (takes_left self.old) ≡ true
            → takes_left self.new ≡ after_fault (is_once (ending_of self.old)) (takes_left self.old) }
        ensures passes { IfOk result (λ count. takes_left self.new ≡ passes_after count (takes_left self.old)) }
        ensures piece { IfOk result (λ count. count ≤ max 1 (writer_piece self.old)) }
        ensures same { writer_piece self.new ≡ writer_piece self.old }
        ensures ending { ending_of self.new ≡ ending_of self.old }
    {
        let Some(most) = self.passes.most(bytes.len().min(self.piece.max(1))) else {
            return self.end(0);
        };
        self.taken.extend_from_slice(&bytes[..most])?;
        self.passes = self.passes.after(most);
        Ok(most)
    }

    fn flush(&mut self) -> io::Result<()>
        ensures bytes { Keeps (Some (bytes_taken self.old)) (Some (bytes_taken self.new)) }
        ensures fails { is_spent (takes_left self.old) ≡ true → ending_of self.old ≡ Ending.Fails → IsErr result }
        ensures takes { is_spent (takes_left self.old) ≡ false → IsOk result }
        ensures takes_none { ending_of self.old ≡ Ending.TakesNone → IsOk result }
        ensures fails_once { is_spent (takes_left self.old) ≡ true → is_once (ending_of self.old) ≡ true
            → IsErr result }
        ensures after_fault { is_spent (takes_left self.old) ≡ true
            → takes_left self.new ≡ after_fault (is_once (ending_of self.old)) (takes_left self.old) }
        ensures same { writer_piece self.new ≡ writer_piece self.old }
        ensures ending { ending_of self.new ≡ ending_of self.old }
    {
        if self.passes.is_spent() {
            return self.end(());
        }
        Ok(())
    }
}
