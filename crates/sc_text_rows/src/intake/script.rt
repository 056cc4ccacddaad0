//! Scripts, and by hand from the format which of their records are amendments.
use super::{View, expect};

#[test]
fn each_kind_of_record_once(rt: HostRuntime) {
    expect(
        &rt,
        rt.alloc(),
        View::First,
        "",
        &[
            (
                "0,enter,3,1,20,10 20\n",
                "Some(Ok(Stamped { stamp: Stamp { number: 0 }, amendment: Enter { student: StudentNumber { number: 3 }, zone: Zone { number: 1 }, siblings: SchoolList { schools: [SchoolNo { number: 20 }] }, choices: SchoolList { schools: [SchoolNo { number: 10 }, SchoolNo { number: 20 }] }, continuing: None } }))",
            ),
            (
                "0,enter,3,1,,10,20\n",
                "Some(Ok(Stamped { stamp: Stamp { number: 0 }, amendment: Enter { student: StudentNumber { number: 3 }, zone: Zone { number: 1 }, siblings: SchoolList { schools: [] }, choices: SchoolList { schools: [SchoolNo { number: 10 }] }, continuing: Some(SchoolNo { number: 20 }) } }))",
            ),
            (
                "0,withdraw,3\n",
                "Some(Ok(Stamped { stamp: Stamp { number: 0 }, amendment: Withdraw { student: StudentNumber { number: 3 } } }))",
            ),
            (
                "0,rerank,3,20 10\n",
                "Some(Ok(Stamped { stamp: Stamp { number: 0 }, amendment: Rerank { student: StudentNumber { number: 3 }, choices: SchoolList { schools: [SchoolNo { number: 20 }, SchoolNo { number: 10 }] } } }))",
            ),
            (
                "0,add,20,4\n",
                "Some(Ok(Stamped { stamp: Stamp { number: 0 }, amendment: Add { school: SchoolNo { number: 20 }, count: Count { number: 4 } } }))",
            ),
            (
                "0,close,20,4\n",
                "Some(Ok(Stamped { stamp: Stamp { number: 0 }, amendment: Close { school: SchoolNo { number: 20 }, count: Count { number: 4 } } }))",
            ),
            (
                "0,correct,3,0,\n",
                "Some(Ok(Stamped { stamp: Stamp { number: 0 }, amendment: Correct { student: StudentNumber { number: 3 }, zone: Zone { number: 0 }, siblings: SchoolList { schools: [] }, continuing: None } }))",
            ),
            (
                "0,correct,3,0,,20\n",
                "Some(Ok(Stamped { stamp: Stamp { number: 0 }, amendment: Correct { student: StudentNumber { number: 3 }, zone: Zone { number: 0 }, siblings: SchoolList { schools: [] }, continuing: Some(SchoolNo { number: 20 }) } }))",
            ),
            ("nonsense\n", "Some(Err(Shape))"),
            ("", "None"),
        ],
    );
}

#[test]
fn untidy_spellings_of_a_script(rt: HostRuntime) {
    expect(
        &rt,
        rt.alloc(),
        View::First,
        "",
        &[
            (
                "\u{FEFF}\r\n 000\t,enter\t,\"03\", 1,\"\",10  20 \r\nnonsense",
                "Some(Ok(Stamped { stamp: Stamp { number: 0 }, amendment: Enter { student: StudentNumber { number: 3 }, zone: Zone { number: 1 }, siblings: SchoolList { schools: [] }, choices: SchoolList { schools: [SchoolNo { number: 10 }, SchoolNo { number: 20 }] }, continuing: None } }))",
            ),
            (
                "\n\r\" 7\" ,\"rerank\" ,0003,\"20\"",
                "Some(Ok(Stamped { stamp: Stamp { number: 7 }, amendment: Rerank { student: StudentNumber { number: 3 }, choices: SchoolList { schools: [SchoolNo { number: 20 }] } } }))",
            ),
            (
                "999999999,add,\t00020 ,0004\r",
                "Some(Ok(Stamped { stamp: Stamp { number: 999999999 }, amendment: Add { school: SchoolNo { number: 20 }, count: Count { number: 4 } } }))",
            ),
        ],
    );
}

#[test]
fn scripts(rt: HostRuntime) {
    expect(
        &rt,
        rt.alloc(),
        View::Signs,
        "",
        &[
            ("", ""),
            ("\u{FEFF}", ""),
            ("\n\r\n", ""),
            ("\u{FEFF}0,withdraw,3\r\nnonsense\r0,withdraw,4", "+-+"),
            (
                "0,enter,3,1,10,10\nnonsense\n0,withdraw,99\n0,add,77,1\n0,withdraw,3\n",
                "+-+++",
            ),
            ("0,\"withdraw,3\n0,withdraw,3\n", "-"),
            (
                "0, \"withdraw\",3\n0,with\"draw\",3\n,\nschool,zone,seats\n",
                "----",
            ),
            ("0,\u{A0}withdraw,3\n0,withdraw\0,3\n", "--"),
        ],
    );
}

#[test]
fn stamps_of_a_script(rt: HostRuntime) {
    expect(
        &rt,
        rt.alloc(),
        View::Signs,
        "",
        &[
            ("withdraw,3\n,withdraw,3\nx,withdraw,3\n", "---"),
            ("-1,withdraw,3\n0 0,withdraw,3\n0;withdraw,3\n", "---"),
            (
                "0,withdraw,3\n 1\t,withdraw,3\n000000002,withdraw,3\n",
                "+++",
            ),
            (
                "999999999,withdraw,3\n1000000000,withdraw,3\n0000000001,withdraw,3\n",
                "+--",
            ),
            ("0,0,withdraw,3\nwithdraw,0,3\n0\n", "---"),
        ],
    );
}

#[test]
fn records_that_are_no_amendment(rt: HostRuntime) {
    expect(
        &rt,
        rt.alloc(),
        View::Signs,
        "",
        &[
            (
                "0,withdraw,3\n0,Withdraw,3\n0,WITHDRAW,3\n0,withdrawn,3\n0,with draw,3\n0,withdraw;3\n",
                "+-----",
            ),
            (
                "0,withdraw\n0,withdraw,\n0,withdraw,3,\n0,withdraw,0\n0,withdraw,x\n",
                "-----",
            ),
            ("0,withdraw,999999999\n0,withdraw,1000000000\n", "+-"),
            (
                "0,enter,1,0,,\n0,enter,1,9999,1,99999\n0,enter,1,0,10\n",
                "++-",
            ),
            (
                "0,enter,1,0,0,10\n0,enter,1,10000,,\n0,enter,1,0,10\t20,\n",
                "---",
            ),
            (
                "0,rerank,1,\n0,rerank,1,10 20 10\n0,rerank,1\n0,rerank,1,10,20\n0,rerank,1,100000\n",
                "++---",
            ),
            (
                "0,rerank,1,1 2 3 4 5 6 7 8 9 10 11 12 13 14 15 16 17 18 19 20 21\n",
                "+",
            ),
            (
                "0,add,10,1\n0,add,10,10000\n0,add,10,0\n0,add,10,10001\n0,add,0,1\n",
                "++---",
            ),
            (
                "0,close,10,1\n0,close,10\n0,close,100000,1\n0,close,10,1234567890\n0,close,10,1,1\n",
                "+----",
            ),
            (
                "0,correct,1,0,\n0,correct,1,0,10  20\n0,correct,1,0\n0,correct,1,x,\n0,correct,1,0,10,20,30\n",
                "++---",
            ),
            (
                "0,enter,1,0,,10,\n0,enter,1,0,,10, 020 \n0,enter,1,0,,10,x\n0,enter,1,0,,10,0\n0,enter,1,0,,10,20 30\n0,enter,1,0,,10,20,\n",
                "++----",
            ),
            (
                "0,correct,1,0,,\n0,correct,1,0,,99999\n0,correct,1,0,,100000\n0,correct,1,0,,20,\n",
                "++--",
            ),
        ],
    );
}
