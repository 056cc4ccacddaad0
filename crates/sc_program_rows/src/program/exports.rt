//! Exports of papers into a folder.
use super::{expect, ordered, ordered_after, write, write_files};
use std::process::Abort;
use std::rt::Files;
use std::{fs, io};

/// The three files of a folder, one after the other.
fn files_in(rt: &HostRuntime, names: &[&str]) -> io::Result<String> {
    let mut all = String::new(rt.alloc());
    for name in names {
        let text = fs::read(rt, *name)?;
        let text = String::from_utf8_lossy(rt.alloc(), text.as_slice())?;
        all = format!(in rt.alloc(); "{all}{text}|")?;
    }
    Ok(all)
}

const EXPORTED: &[&str] = &["next/schools.csv", "next/roster.csv", "next/lists.csv"];

/// Takes the folder `next` away, with what an earlier test left in it.
fn without_next<R: Files + Abort + AllocGlobal>(rt: &R) {
    if let Ok(true) = fs::exists(rt, "next") {
        fs::remove_dir_all(rt, "next").expect(rt, "a folder that can be taken away");
    }
}

/// The files of Market B's papers.
const MARKET_B_FILES: &str =
    "school,zone,seats\n10,1,1\n20,0,1\n|student,zone,siblings\n1,0,20\n2,0,10\n|student,choices\n1,10 20\n2,20 10\n|";

/// Journals over Market B, and the files of the papers after each.
const EXPORTS: &[(&str, &str)] = &[
    ("", MARKET_B_FILES),
    (
        "1,enter,3,1,10,10\n2,add,20,4\n3,withdraw,1\n4,enter,1,0,,20\n",
        "school,zone,seats\n10,1,1\n20,0,5\n|student,zone,siblings\n2,0,10\n3,1,10\n1,0,\n|student,choices\n2,20 10\n3,10\n1,20\n|",
    ),
    (
        "1,correct,2,0,10,20\n",
        "school,zone,seats\n10,1,1\n20,0,1\n|student,zone,siblings,continuing\n1,0,20,\n2,0,10,20\n|student,choices\n1,10 20\n2,20 10\n|",
    ),
];

/// What an export after this journal tells, and then the three files, which are taken away again.
fn exported(rt: &HostRuntime, journal: &str) -> io::Result<String> {
    let options = &["--journal", "journal", "--to", "next"];
    let told = ordered_after(rt, ("journal", journal), "export", options)?;
    let files = files_in(rt, EXPORTED)?;
    for name in EXPORTED {
        fs::remove_file(rt, *name)?;
    }
    Ok(format!(in rt.alloc(); "{told}{files}")?)
}

#[test]
fn an_export(rt: HostRuntime) {
    write_files(&rt);
    without_next(&rt);
    fs::create_dir(&rt, "next").expect(&rt, "a folder");
    for (journal, files) in EXPORTS {
        expect(&rt, exported(&rt, journal), "0", files);
    }
    expect(&rt, ordered(&rt, "export", &["--to", "next"]), "", "0");
    for name in EXPORTED {
        fs::remove_file(&rt, *name).expect(&rt, "a file that was made");
    }
    let torn = "clearinghouse: journal torn\n0";
    expect(&rt, exported(&rt, "1,withdraw"), torn, MARKET_B_FILES);
    let none = "clearinghouse: cannot write schools.csv: no file is whole\n4";
    expect(&rt, ordered(&rt, "export", &["--to", ""]), "", none);
}

/// What an export into the folder `next` tells.
fn exporting(rt: &HostRuntime) -> io::Result<String> {
    ordered(rt, "export", &["--to", "next"])
}

#[test]
fn an_export_says_what_stands(rt: HostRuntime) {
    write_files(&rt);
    without_next(&rt);
    let none = "clearinghouse: cannot write schools.csv: no file is whole\n4";
    expect(&rt, exporting(&rt), "", none);
    fs::create_dir(&rt, "next").expect(&rt, "a folder");
    write(&rt, "next/lists.csv", "old");
    let two =
        "clearinghouse: cannot write lists.csv: it is there already; schools.csv and roster.csv are whole\n4";
    expect(&rt, exporting(&rt), "", two);
    let first = "clearinghouse: cannot write schools.csv: it is there already; no file was made\n4";
    expect(&rt, exporting(&rt), "", first);
    fs::remove_file(&rt, "next/schools.csv").expect(&rt, "a file that was made");
    let one =
        "clearinghouse: cannot write roster.csv: it is there already; schools.csv is whole\n4";
    expect(&rt, exporting(&rt), "", one);
}
