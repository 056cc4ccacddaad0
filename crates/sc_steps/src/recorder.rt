//! What takes the journal's lines: a watched writer, or nothing at all.

ghost use Rattle.std.specs.Prelude.{◌≡◌, ◌||◌, ℕ, Bool, List, Option, is_err};
ghost use Rattle.std.specs.Io.KnownBytes.{Keeps};
ghost use Rattle.sc_report.specs.Whole.{WritesWhole};

use sc_report::{DeviceFailed, Watched, write_whole};
use std::io::Write;

/// What takes the lines of a journal.
pub trait Recorder {
    // The bytes that it holds, where they are known.
    ghost contents: { Self → Option (List ℕ) };

    // Whether a call on it has failed.
    ghost has_failed: { Self → Bool };

    /// Takes a line whole. The only error is that this fails, and then a prefix of the line was taken.
    fn write_line(&mut self, line: &[u8]) -> Result<(), DeviceFailed>
        ensures bytes { WritesWhole (contents self.old) (contents self.new) result line.now }
        ensures failed { has_failed self.new ≡ (has_failed self.old || is_err result) };

    /// Hands on what it holds back. The only error is that this fails.
    fn flush(&mut self) -> Result<(), DeviceFailed>
        ensures bytes { Keeps (contents self.old) (contents self.new) }
        ensures failed { has_failed self.new ≡ (has_failed self.old || is_err result) };
}

impl<W: Write> Recorder for Watched<W> {
    ghost use Rattle.sc_report.specs.Watched.{device_of, has_failed as watched_has_failed};

    ghost contents = { λ watched. W.contents (device_of watched) };

    ghost has_failed = { λ watched. watched_has_failed watched };

    fn write_line(&mut self, line: &[u8]) -> Result<(), DeviceFailed> {
        write_whole(self, line)
    }

    fn flush(&mut self) -> Result<(), DeviceFailed> {
        self.flush()
    }
}

/// No journal is kept: it takes every line, keeps none, and never fails.
#[derive(Drop)]
pub struct Unkept;

impl Recorder for Unkept {
    ghost use Rattle.std.specs.Prelude.{None, false};

    ghost contents = { λ _. None };

    ghost has_failed = { λ _. false };

    fn write_line(&mut self, _line: &[u8]) -> Result<(), DeviceFailed> {
        Ok(())
    }

    fn flush(&mut self) -> Result<(), DeviceFailed> {
        Ok(())
    }
}
