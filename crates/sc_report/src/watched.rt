//! A reader or writer whose failure is remembered.
ghost use Rattle.std.specs.Prelude.{◌≡◌, ◌<◌, ◌||◌, true, false, length, IfOk, IsErr, is_err};
ghost use Rattle.std.specs.Io.{ReadsAtMost, WritesAtMost};
ghost use Rattle.std.specs.Io.KnownBytes.{Keeps, ReadConsumes, WriteAppends};
ghost use Rattle.sc_report.specs.Watched.{device_of, has_failed};

use std::io::{Read, Write};
use thiserror::Error;

/// A call on a watched device failed.
#[derive(Clone, Copy, Debug, PartialEq, Eq, Error)]
#[error("a device failed")]
pub struct DeviceFailed;

/// A reader or writer that remembers whether a call on it has failed.
///
/// Nothing else makes it failed, and nothing makes it whole again. No call takes memory.
#[derive(Drop)]
pub struct Watched<T> {
    device: T,
    failed: bool,
}

impl<T> Watched<T> {
    /// Watches a device on which no call has failed.
    pub fn new(device: T) -> Watched<T>
        ensures device { device_of result ≡ device }
        ensures whole { has_failed result ≡ false }
    {
        Watched {
            device,
            failed: false,
        }
    }

    /// Whether a call has failed since the device is watched.
    pub fn failed(&self) -> bool
        ensures { result ≡ has_failed self.now }
    {
        self.failed
    }

    /// The device itself, to look at.
    pub fn inner(&self) -> &T
        ensures { result.now ≡ device_of self.now }
    {
        &self.device
    }

    // What a failed call answers.
    fn fail<V>(&mut self) -> Result<V, DeviceFailed>
        ensures failed { has_failed self.new ≡ true }
        ensures device { device_of self.new ≡ device_of self.old }
        ensures answer { IsErr result }
    {
        self.failed = true;
        Err(DeviceFailed)
    }
}

impl<R: Read> Watched<R> {
    /// Reads into the first bytes of `buffer`, as the device does, and gives how many bytes came.
    ///
    /// Any error of the device, an interrupted read included, is answered as `DeviceFailed`.
    pub fn read(&mut self, buffer: &mut [u8]) -> Result<usize, DeviceFailed>
        ensures bound { ReadsAtMost result buffer.new }
        ensures bytes { ReadConsumes (R.remaining (device_of self.old)) (R.remaining (device_of self.new))
            result buffer.new }
        ensures failed { has_failed self.new ≡ (has_failed self.old || is_err result) }
    {
        match self.device.read(buffer) {
            Ok(count) => Ok(count),
            Err(_) => self.fail(),
        }
    }
}

impl<W: Write> Watched<W> {
    /// Writes a prefix of `bytes`, as the device does, and gives how many it took.
    ///
    /// Any error of the device is answered as `DeviceFailed`, and so is a device that takes none of
    /// at least one byte: a loop over calls that answer `Ok` moves on.
    pub fn write(&mut self, bytes: &[u8]) -> Result<usize, DeviceFailed>
        ensures bound { WritesAtMost result bytes.now }
        ensures moves { IfOk result (λ count. 0 < length bytes.now → 0 < count) }
        ensures bytes { WriteAppends (W.contents (device_of self.old)) (W.contents (device_of self.new))
            result bytes.now }
        ensures failed { has_failed self.new ≡ (has_failed self.old || is_err result) }
    {
        match self.device.write(bytes) {
            Ok(count) if count > 0 || bytes.is_empty() => Ok(count),
            _ => self.fail(),
        }
    }

    /// Asks the device to hand on what it holds back.
    ///
    /// Any error of the device is answered as `DeviceFailed`. That the call reaches the device is no
    /// clause: the trait `Write` says nothing of what a flush that answers `Ok` has done.
    pub fn flush(&mut self) -> Result<(), DeviceFailed>
        ensures bytes { Keeps (W.contents (device_of self.old)) (W.contents (device_of self.new)) }
        ensures failed { has_failed self.new ≡ (has_failed self.old || is_err result) }
    {
        match self.device.flush() {
            Ok(()) => Ok(()),
            Err(_) => self.fail(),
        }
    }
}
