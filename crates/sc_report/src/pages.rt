//! A long text on pages, so that each of its blocks finds room where smaller ones were let go of.
ghost use Rattle.std.specs.Prelude.{◌≡◌, ◌+◌, ◌≤◌, ◌++◌, ◌||◌, [], length, take, IfOk, OnOk, is_err};
ghost use Rattle.sc_report.specs.Pages.{pages_text, text_so_far};
ghost use Rattle.sc_report.specs.declared.pages.TheConstants.{LINES};
ghost use Rattle.sc_report.specs.Watched.{device_of, has_failed};
ghost use Rattle.sc_report.specs.Whole.{WritesWhole};

use crate::watched::{DeviceFailed, Watched};
use crate::whole::write_whole;
use std::alloc::{AllocError, Global};
use std::io::Write;
use std::mem;

/// The room of a student's lines: of 20 at most, each of two blocks.
pub(crate) const LINES: usize = 640;

/// The room of a draft: lines are written there first, so that few calls copy them to a page.
pub(crate) const DRAFT: usize = 1_920;

/// How many bytes fill a page. It ends with the draft that filled it, and so has some more.
const FULL: usize = 243_840;

/// The room of a page, 240 KiB: the bytes that fill it, and a draft. The first page begins with the room of a draft, and
/// grows to just this by doubling.
const ROOM: usize = 245_760;

/// A text that grows, on pages.
#[derive(Drop)]
pub(crate) struct Pages {
    /// The pages that are full, in order.
    full: Vec<Vec<u8>>,
    /// The page that lines are added to.
    pub(crate) last: Vec<u8>,
}

impl Pages {
    /// A text that begins with this header. The first page grows with its text, so that a short text takes little room.
    pub(crate) fn begin(alloc: Global, header: &[u8]) -> Result<Pages, AllocError>
        ensures { IfOk result (λ pages. text_so_far pages ≡ header.now) }
    {
        let mut last = Vec::with_capacity(alloc, DRAFT)?;
        last.extend_from_slice(header)?;
        Ok(Pages {
            full: Vec::new(alloc),
            last,
        })
    }

    /// Begins a page if the last one is full.
    pub(crate) fn turn(&mut self, alloc: Global) -> Result<(), AllocError>
        ensures { OnOk result (text_so_far self.new ≡ text_so_far self.old) }
    {
        if self.last.len() < FULL {
            return Ok(());
        }
        let next = Vec::with_capacity(alloc, ROOM)?;
        self.full.push(mem::replace(&mut self.last, next))?;
        Ok(())
    }

    /// Adds a draft that ends here to the last page, if no room is left behind it for a student's lines, and tells where
    /// the draft ends then.
    pub(crate) fn add_full(
        &mut self,
        alloc: Global,
        draft: &[u8],
        end: usize,
    ) -> Result<usize, AllocError>
        requires room { LINES ≤ length draft.now }
        requires within { end ≤ length draft.now }
        ensures text { IfOk result (λ left. text_so_far self.new ++ take left draft.now
            ≡ text_so_far self.old ++ take end draft.now) }
        ensures room { IfOk result (λ left. left + LINES ≤ length draft.now) }
    {
        if draft.len() - end >= LINES {
            return Ok(end);
        }
        self.last.extend_from_slice(&draft[..end])?;
        self.turn(alloc)?;
        Ok(0)
    }

    /// Puts another text behind this one. Its pages stay as they are.
    pub(crate) fn append(&mut self, other: Pages) -> Result<(), AllocError>
        ensures { OnOk result (text_so_far self.new ≡ text_so_far self.old ++ text_so_far other) }
    {
        let Pages { mut full, last } = other;
        self.full.push(mem::replace(&mut self.last, last))?;
        self.full.append(&mut full)
    }

    /// All pages, in order.
    pub(crate) fn finish(self) -> Result<Vec<Vec<u8>>, AllocError>
        ensures { IfOk result (λ pages. pages_text pages.items ≡ text_so_far self) }
    {
        let Pages { mut full, last } = self;
        full.push(last)?;
        Ok(full)
    }

    /// The text in one block, which the only page is where there is one.
    pub(crate) fn into_text(self, alloc: Global) -> Result<Vec<u8>, AllocError>
        ensures { IfOk result (λ text. text.items ≡ text_so_far self) }
    {
        if self.full.is_empty() {
            return Ok(self.last);
        }
        let pages = self.finish()?;
        join(alloc, pages)
    }
}

/// Writes all pages, in order, each as `write_whole` does.
pub(crate) fn write_pages<W: Write>(
    to: &mut Watched<W>,
    pages: &[Vec<u8>],
) -> Result<(), DeviceFailed>
    ensures bytes { WritesWhole (W.contents (device_of to.old)) (W.contents (device_of to.new))
        result (pages_text pages.now) }
    ensures failed { has_failed to.new ≡ (has_failed to.old || is_err result) }
{
    for page in pages {
        write_whole(to, page.as_slice())?;
    }
    Ok(())
}

/// How many bytes stand on pages. It has no clause, since it only tells how much room to take.
fn room_for(pages: &[Vec<u8>]) -> usize {
    let mut room: usize = 0;
    for page in pages {
        room = room.saturating_add(page.len());
    }
    room
}

/// The text of pages in one block. Room is taken once, and each page is let go of as soon as it is copied.
fn join(alloc: Global, pages: Vec<Vec<u8>>) -> Result<Vec<u8>, AllocError>
    ensures { IfOk result (λ text. text.items ≡ pages_text pages.items) }
{
    let mut text = Vec::with_capacity(alloc, room_for(pages.as_slice()))?;
    for page in pages {
        text.extend_from_slice(page.as_slice())?;
    }
    Ok(text)
}
