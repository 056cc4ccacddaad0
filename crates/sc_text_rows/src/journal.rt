//! The lines of a journal, both ways, and journals replayed over Market B.
use crate::comparing::{expect_text, same};
use sc_journal::{JournalFault, LineNo, Tail, line, read_line, replay};
use sc_markets::{amendment, market_b, places_text};
use sc_papers::Amendment;
use sc_repair::Clearing;
use std::alloc::{AllocError, Global};
use std::process::Abort;

/// The line of an amendment.
fn written(alloc: Global, number: LineNo, amendment: &Amendment) -> Result<String, AllocError> {
    let text = line(alloc, number, amendment)?;
    let text = String::from_utf8_lossy(alloc, text.as_slice())?;
    format!(in alloc; "{text}")
}

/// What a text reads as, written again; nothing where it is no line.
fn reread(alloc: Global, text: &str) -> Result<String, AllocError> {
    match read_line(alloc, text.as_bytes())? {
        Some(read) => written(alloc, read.number, &read.amendment),
        None => Ok(String::new(alloc)),
    }
}

/// Each text is written again as is wanted.
fn expect_reread(rt: &impl Abort, alloc: Global, table: &[(&str, &str)]) {
    for (text, want) in table {
        expect_text(rt, reread(alloc, text), want, text);
    }
}

/// Each student's place in order of entry, 0 for none, and the tail.
fn standing(alloc: Global, clearing: &Clearing, tail: Tail) -> Result<String, AllocError> {
    let places = places_text(alloc, clearing)?;
    format!(in alloc; "{places}{tail:?}")
}

/// What a replay answers.
fn told(
    alloc: Global,
    replayed: Result<(Clearing, Tail), JournalFault>,
) -> Result<String, AllocError> {
    match replayed {
        Ok((clearing, tail)) => {
            let text = standing(alloc, &clearing, tail);
            drop(clearing);
            text
        }
        Err(fault) => format!(in alloc; "{} {:?}", fault.line, fault.cause),
    }
}

/// What the replay of a journal over Market B answers.
fn replayed(alloc: Global, journal: &[u8]) -> Result<String, AllocError> {
    match market_b(alloc) {
        Ok(papers) => told(alloc, replay(alloc, papers, journal)),
        Err(fault) => format!(in alloc; "{fault}"),
    }
}

/// The replay of a journal answers what is wanted.
fn expect_replay(rt: &impl Abort, alloc: Global, journal: &[u8], want: &str) {
    expect_text(rt, replayed(alloc, journal), want, "a replay");
}

/// The replay of each journal answers what is wanted.
fn expect_replays(rt: &impl Abort, alloc: Global, table: &[(&str, &str)]) {
    for (journal, want) in table {
        expect_replay(rt, alloc, journal.as_bytes(), want);
    }
}

/// How many proposals the last settling of a replay comes to.
fn counted(
    alloc: Global,
    replayed: Result<(Clearing, Tail), JournalFault>,
) -> Result<String, AllocError> {
    match replayed {
        Ok((clearing, _)) => {
            let text = format!(in alloc; "{}", clearing.proposals_last());
            drop(clearing);
            text
        }
        Err(fault) => format!(in alloc; "{} {:?}", fault.line, fault.cause),
    }
}

/// The same of a journal over Market B.
fn proposals_after(alloc: Global, journal: &str) -> Result<String, AllocError> {
    match market_b(alloc) {
        Ok(papers) => counted(alloc, replay(alloc, papers, journal.as_bytes())),
        Err(fault) => format!(in alloc; "{fault}"),
    }
}

// As an opening and an amendment by each line leave it: the count is that of the last line, or of the opening.
#[test]
fn replays_count_the_last_line(rt: HostRuntime) {
    for (journal, want) in &[
        ("", "2"),
        ("1,enter,3,1,10,10\n", "3"),
        ("1,enter,3,1,10,10\n2,withdraw,3\n", "0"),
        ("1,enter,3,1,10,10\n2,add,10,1\n", "3"),
    ] {
        expect_text(&rt, proposals_after(rt.alloc(), journal), want, journal);
    }
}

#[test]
fn line_numbers(rt: HostRuntime) {
    for (number, next) in &[(1, 2), (999_999_998, 999_999_999)] {
        let number = LineNo::new(*number).expect(&rt, "a line");
        assert!(rt; number.next() == LineNo::new(*next));
    }
    let last = LineNo::new(999_999_999).expect(&rt, "a line");
    same(&rt, &last.get(), &999_999_999);
    assert!(rt; last.next().is_none());
    assert!(rt; LineNo::new(0).is_none());
    assert!(rt; LineNo::new(1_000_000_000).is_none());
}

#[test]
fn a_line_written(rt: HostRuntime) {
    let newcomer = amendment(rt.alloc(), "enter,3,1,10,10").expect(&rt, "an amendment");
    let number = LineNo::new(1).expect(&rt, "a line");
    let text = line(rt.alloc(), number, &newcomer).expect(&rt, "memory");
    assert!(rt; text.as_slice() == b"1,enter,3,1,10,10\n".as_slice());
}

#[test]
fn lines_both_ways(rt: HostRuntime) {
    expect_reread(
        &rt,
        rt.alloc(),
        &[
            ("1,enter,3,1,10,10", "1,enter,3,1,10,10\n"),
            ("2,withdraw,3", "2,withdraw,3\n"),
            (
                "3,rerank,999999999,1 99999 20",
                "3,rerank,999999999,1 99999 20\n",
            ),
            ("4,add,10,1", "4,add,10,1\n"),
            ("5,close,10,10000", "5,close,10,10000\n"),
            ("6,correct,1,0,", "6,correct,1,0,\n"),
            ("1,enter,3,1,10,10,20", "1,enter,3,1,10,10,20\n"),
            ("2,correct,2,0,10", "2,correct,2,0,10\n"),
            ("3,correct,2,0,10,10", "3,correct,2,0,10,10\n"),
            ("7,enter,4,0,,", "7,enter,4,0,,\n"),
            (
                "999999999,correct,1,9999,20 10",
                "999999999,correct,1,9999,20 10\n",
            ),
        ],
    );
}

#[test]
fn spellings_refused(rt: HostRuntime) {
    expect_reread(
        &rt,
        rt.alloc(),
        &[
            ("", ""),
            ("1", ""),
            ("1,", ""),
            ("1,withdraw,3\r", ""),
            ("1,withdraw,3\n", ""),
            ("01,withdraw,3", ""),
            ("1,withdraw,03", ""),
            ("1,withdraw,\"3\"", ""),
            ("1,withdraw, 3", ""),
            ("1,withdraw,3,", ""),
            ("1,withdraw,3,,,,,,,", ""),
            ("1,enter,3,1,10,10,20,", ""),
            ("1,enter,3,1,10,10,20,,,", ""),
            ("1,rerank,1,10  20", ""),
            ("1,rerank,1,10 20 ", ""),
            ("1,rerank,1", ""),
            ("1,enter,3,1,10,10,", ""),
            ("1,enter,3,1,10,10,020", ""),
            ("1,enter,3,1,10,10,0", ""),
            ("1,enter,3,1,10,10,20 30", ""),
            ("1,enter,3,1,10,10,20,", ""),
            ("3,correct,2,0,10,", ""),
            ("1,add,10,0", ""),
            ("1,add,10,00", ""),
            ("1,close,100000,1", ""),
            ("0,withdraw,3", ""),
            ("1000000000,withdraw,3", ""),
            ("1,withdraw,1000000000", ""),
            ("1,Withdraw,3", ""),
            ("1,remove,3", ""),
            ("\u{FEFF}1,withdraw,3", ""),
            ("nonsense", ""),
        ],
    );
}

#[test]
fn replays(rt: HostRuntime) {
    expect_replays(
        &rt,
        rt.alloc(),
        &[
            ("", "1:10 2:20 Whole"),
            ("1,enter,3,1,10,10\n2,withdraw,3\n", "1:10 2:20 Whole"),
            ("1,enter,3,1,10,10\n", "1:20 2:0 3:10 Whole"),
            ("1,enter,3,1,10,10\n2,withdraw,3", "1:20 2:0 3:10 Torn"),
            ("1,enter,3,1,10,10\n3,withdraw,3\n", "2 Number"),
            ("0,enter,3,1,10,10\n", "1 Shape"),
            ("1,enter,3,1,10,10,\n", "1 Shape"),
            (
                "1,enter,3,1,10,10\n2,correct,2,0,10,10\n",
                "1:20 2:10 3:0 Whole",
            ),
            ("2,enter,3,1,10,10\n", "1 Number"),
            ("1,enter,3,1,10,10\nnonsense\n", "2 Shape"),
            ("1,enter,3,1,10,10\n3,nonsense\n", "2 Shape"),
            ("1,enter,3,1,10,10\n2,withdraw,3\r\n", "2 Shape"),
            ("1,enter,3,1,10,10\n\n", "2 Shape"),
            (
                "1,enter,3,1,10,10\n2,withdraw,9\n",
                "2 Refused(UnknownStudent)",
            ),
            ("3,withdraw,9\n", "1 Number"),
        ],
    );
}

#[test]
fn a_journal_cut_short(rt: HostRuntime) {
    let journal = b"1,enter,3,1,10,10\n2,withdraw,3\n";
    for end in 0..journal.len() + 1 {
        let want = match end {
            0 | 31 => "1:10 2:20 Whole",
            1..=17 => "1:10 2:20 Torn",
            18 => "1:20 2:0 3:10 Whole",
            _ => "1:20 2:0 3:10 Torn",
        };
        expect_replay(&rt, rt.alloc(), &journal[..end], want);
    }
}
