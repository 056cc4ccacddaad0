//! Readers and writers that fail in mid-stream, read and written whole.
use super::{MARKET_B, amend};
use crate::comparing::{same, same_in};
use sc_markets::clearing;
use sc_report::devices::{Ending, FailingReader, FailingWriter};
use sc_report::{
    DeviceFailed, ReadFault, ReportFault, Watched, first_difference, read_whole, write_report,
    write_whole,
};
use std::alloc::Global;
use std::io::{self, ErrorKind, Read, Write};
use std::process::Abort;

/// A writer over memory with room for what the tests write, which takes so many bytes in pieces of this size and then
/// ends so.
fn writer(
    rt: &impl Abort,
    alloc: Global,
    passes: usize,
    piece: usize,
    ending: Ending,
) -> Watched<FailingWriter> {
    let room = Vec::with_capacity(alloc, 20).expect(rt, "memory");
    Watched::new(FailingWriter::new(room, passes, piece, ending))
}

/// A line, nothing and a flush are all taken.
fn expect_whole(rt: &impl Abort, to: &mut Watched<FailingWriter>) {
    same(rt, &write_whole(to, b"student,school\n"), &Ok(()));
    same(rt, &write_whole(to, b""), &Ok(()));
    same(rt, &to.flush(), &Ok(()));
    same(rt, &to.inner().taken(), &b"student,school\n".as_slice());
    assert!(rt; !to.failed());
}

#[test]
fn written_whole_in_pieces(rt: HostRuntime) {
    let mut to = writer(&rt, rt.alloc(), 20, 3, Ending::Fails);
    expect_whole(&rt, &mut to);
}

/// A writer that fails in these bytes has taken so many of them.
fn expect_prefix(rt: &impl Abort, to: &mut Watched<FailingWriter>, bytes: &[u8], taken: &[u8]) {
    same(rt, &write_whole(to, bytes), &Err(DeviceFailed));
    same(rt, &to.inner().taken(), &taken);
    assert!(rt; to.failed());
}

#[test]
fn a_prefix_after_a_fault(rt: HostRuntime) {
    for ending in &[Ending::Fails, Ending::TakesNone] {
        let mut to = writer(&rt, rt.alloc(), 10, 4, *ending);
        expect_prefix(&rt, &mut to, b"student,school\n", b"student,sc");
    }
}

#[test]
fn failing_writers(rt: HostRuntime) {
    let mut to = writer(&rt, rt.alloc(), 10, 999, Ending::Fails);
    let (schools, students, lists) = MARKET_B;
    let mut opened = clearing(rt.alloc(), schools, students, lists).expect(&rt, "a clearing");
    amend(
        &rt,
        rt.alloc(),
        &mut opened,
        "enter,3,1,10,10\nwithdraw,3\n",
    );
    let answer = write_report(rt.alloc(), &opened, &mut to);
    drop(opened);
    same(&rt, &answer, &Err(ReportFault::Write));
    same(&rt, &to.inner().taken(), &b"student,sc".as_slice());
}

#[test]
fn failed_by_its_flush(rt: HostRuntime) {
    let mut to = writer(&rt, rt.alloc(), 2, 2, Ending::Fails);
    same(&rt, &write_whole(&mut to, b"ok"), &Ok(()));
    assert!(rt; !to.failed());
    same(&rt, &to.flush(), &Err(DeviceFailed));
    assert!(rt; to.failed());
}

/// So many bytes are read at most, and the others are left.
fn expect_up_to(rt: &impl Abort, alloc: Global, limit: usize, given: &[u8], left: &[u8]) {
    let mut from = Watched::new(b"abcdef".as_slice());
    let bytes = read_whole(alloc, &mut from, limit).expect(rt, "a device");
    same(rt, &bytes.as_slice(), &given);
    same(rt, from.inner(), &left);
    assert!(rt; !from.failed());
}

#[test]
fn read_up_to_a_limit(rt: HostRuntime) {
    let alloc = rt.alloc();
    expect_up_to(&rt, alloc, 0, b"", b"abcdef");
    expect_up_to(&rt, alloc, 4, b"abcd", b"ef");
    expect_up_to(&rt, alloc, 6, b"abcdef", b"");
    expect_up_to(&rt, alloc, 9, b"abcdef", b"");
}

/// A reader gives these bytes, where so many are read at most.
fn expect_read(
    rt: &impl Abort,
    alloc: Global,
    from: &mut Watched<FailingReader<'_>>,
    limit: usize,
    want: &[u8],
) {
    let bytes = read_whole(alloc, from, limit).expect(rt, "a device");
    same(rt, &bytes.as_slice(), &want);
}

/// A reader fails before it has given what is asked of it.
fn expect_fault(
    rt: &impl Abort,
    alloc: Global,
    from: &mut Watched<FailingReader<'_>>,
    limit: usize,
) {
    let fault = read_whole(alloc, from, limit).err();
    same(rt, &fault, &Some(ReadFault::Device));
}

#[test]
fn read_in_pieces(rt: HostRuntime) {
    let reader = FailingReader::new(b"abcdef", 6, 4, ErrorKind::Interrupted);
    let mut from = Watched::new(reader);
    expect_read(&rt, rt.alloc(), &mut from, 6, b"abcdef");
    assert!(rt; !from.failed());
    // No read is tried again, an interrupted one neither.
    let mut from = Watched::new(reader);
    expect_fault(&rt, rt.alloc(), &mut from, 7);
    assert!(rt; from.failed());
}

/// The first difference of a text from what is read, also where the device fails once its bytes are given.
fn expect_difference(rt: &impl Abort, alloc: Global, text: &str, difference: Option<u64>) {
    let reader = FailingReader::new(b"ab\ncd\n", 6, 2, ErrorKind::Other);
    let mut from = Watched::new(reader);
    let found = first_difference(alloc, &mut from, text.as_bytes()).ok();
    // It is asked for more only where all were alike so far.
    let fails = difference.is_none() || difference == Some(3);
    same_in(rt, &from.failed(), &fails, text);
    let wanted = if fails { None } else { Some(difference) };
    same_in(rt, &found, &wanted, text);
    let mut from = Watched::new(b"ab\ncd\n".as_slice());
    let found = first_difference(alloc, &mut from, text.as_bytes()).ok();
    same_in(rt, &found, &Some(difference), text);
}

#[test]
fn compared_in_pieces(rt: HostRuntime) {
    let alloc = rt.alloc();
    expect_difference(&rt, alloc, "ab\ncd\n", None);
    expect_difference(&rt, alloc, "ab\ncx\n", Some(2));
    expect_difference(&rt, alloc, "xb\ncd\n", Some(1));
    expect_difference(&rt, alloc, "ab\n", Some(2));
    expect_difference(&rt, alloc, "ab\ncd\ne", Some(3));
}

/// A reader gives two bytes, and then fails with an error of this kind.
fn expect_kind(rt: &impl Abort, from: &mut FailingReader<'_>, room: &mut [u8], kind: ErrorKind) {
    same(rt, &from.read(room).ok(), &Some(2));
    same(
        rt,
        &from.read(room).err().map(|error| error.kind()),
        &Some(kind),
    );
}

#[test]
fn each_kind_of_error(rt: HostRuntime) {
    for kind in &[
        ErrorKind::Interrupted,
        ErrorKind::UnexpectedEof,
        ErrorKind::PermissionDenied,
        ErrorKind::Other,
    ] {
        let mut from = FailingReader::new(b"abcdef", 2, 4, *kind);
        expect_kind(&rt, &mut from, &mut [0; 4], *kind);
        let mut from = FailingReader::after_calls(b"abcdef", 1, 2, *kind);
        expect_kind(&rt, &mut from, &mut [0; 4], *kind);
    }
}

// A device that fails once goes on after it: only a caller that does not try again tells the fault.
#[test]
fn readers_that_fail_once(rt: HostRuntime) {
    for kind in &[ErrorKind::Other, ErrorKind::Interrupted] {
        let reader = FailingReader::new(b"abcdef", 2, 4, *kind).once();
        let mut from = Watched::new(reader);
        expect_fault(&rt, rt.alloc(), &mut from, 6);
        assert!(rt; from.failed());
        let mut from = reader;
        let mut room = [0; 9];
        expect_kind(&rt, &mut from, &mut room, *kind);
        same(&rt, &from.read(&mut room).ok(), &Some(4));
        same(&rt, &from.read(&mut room).ok(), &Some(0));
    }
}

/// A writer that has failed takes all that comes after, and still says that it has failed.
fn expect_more(rt: &impl Abort, to: &mut Watched<FailingWriter>) {
    same(rt, &write_whole(to, b"nt"), &Ok(()));
    same(rt, &to.flush(), &Ok(()));
    same(rt, &to.inner().taken(), &b"student".as_slice());
    assert!(rt; to.failed());
}

#[test]
fn writers_that_fail_once(rt: HostRuntime) {
    for kind in &[ErrorKind::Other, ErrorKind::Interrupted] {
        let mut to = writer(&rt, rt.alloc(), 5, 9, Ending::FailsOnce(*kind));
        expect_prefix(&rt, &mut to, b"student", b"stude");
        expect_more(&rt, &mut to);
    }
}

#[test]
fn flushes_that_fail_once(rt: HostRuntime) {
    for kind in &[ErrorKind::Other, ErrorKind::Interrupted] {
        let mut to = writer(&rt, rt.alloc(), 0, 9, Ending::FailsOnce(*kind));
        same(&rt, &to.flush(), &Err(DeviceFailed));
        same(&rt, &to.flush(), &Ok(()));
        assert!(rt; to.failed());
    }
}

/// A device that counts its calls, of which the first is interrupted.
#[derive(Drop)]
struct Counting {
    calls: u32,
}

impl Counting {
    fn call(&mut self) -> io::Result<()> {
        self.calls = self.calls.wrapping_add(1);
        if self.calls == 1 {
            return Err(ErrorKind::Interrupted.into());
        }
        Ok(())
    }
}

impl Read for Counting {
    ghost use Rattle.std.specs.Prelude.{None};

    ghost remaining = { λ _. None };

    fn read(&mut self, _buffer: &mut [u8]) -> io::Result<usize> {
        self.call()?;
        Ok(0)
    }
}

impl Write for Counting {
    ghost use Rattle.std.specs.Prelude.{None};

    ghost contents = { λ _. None };

    fn write(&mut self, bytes: &[u8]) -> io::Result<usize> {
        self.call()?;
        Ok(bytes.len())
    }

    fn flush(&mut self) -> io::Result<()> {
        self.call()
    }
}

/// A device that is watched and has not been called.
fn uncalled() -> Watched<Counting> {
    Watched::new(Counting { calls: 0 })
}

// A watched device is called once for each call, and an interrupted one is not made again.
#[test]
fn no_call_is_made_again(rt: HostRuntime) {
    let mut to = uncalled();
    same(&rt, &to.write(b"student"), &Err(DeviceFailed));
    assert!(rt; to.inner().calls == 1 && to.failed());
    let mut to = uncalled();
    same(&rt, &to.flush(), &Err(DeviceFailed));
    assert!(rt; to.inner().calls == 1 && to.failed());
    let mut from = uncalled();
    let mut room = [0; 4];
    same(&rt, &from.read(&mut room), &Err(DeviceFailed));
    assert!(rt; from.inner().calls == 1 && from.failed());
}

#[test]
fn failed_after_calls(rt: HostRuntime) {
    let mut from = Watched::new(FailingReader::after_calls(b"abcdef", 2, 2, ErrorKind::Other));
    expect_read(&rt, rt.alloc(), &mut from, 4, b"abcd");
    expect_fault(&rt, rt.alloc(), &mut from, 1);
    for ending in &[Ending::Fails, Ending::TakesNone] {
        let room = Vec::with_capacity(rt.alloc(), 10).expect(&rt, "memory");
        let mut to = Watched::new(FailingWriter::after_calls(room, 1, 5, *ending));
        expect_prefix(&rt, &mut to, b"student", b"stude");
    }
}
