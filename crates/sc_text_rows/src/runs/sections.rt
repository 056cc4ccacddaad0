//! Bundles cut into their sections.
use crate::comparing::{same, same_in};
use sc_runs::{Bundle, split_bundle};

#[test]
fn stored_run(rt: HostRuntime) {
    let input =
        b"%seed\n0011\n%schools\nschool,zone,seats\n10,0,1\n20,0,1\n%roster\nstudent,zone,siblings\n1,0,20\n%lists\nstudent,choices\n1,10 20\n";
    let sections = Bundle {
        seed: b"0011",
        schools: b"school,zone,seats\n10,0,1\n20,0,1\n",
        roster: b"student,zone,siblings\n1,0,20\n",
        lists: b"student,choices\n1,10 20\n",
        script: None,
    };
    same(&rt, &split_bundle(input), &Some(sections));
}

#[test]
fn line_ends_and_scripts(rt: HostRuntime) {
    let sections = Bundle {
        seed: b"a b",
        schools: b"S\r\n",
        roster: b"",
        lists: b"L\r\n",
        script: Some(b""),
    };
    let front = b"%seed\r\n \ta b\t\r\n%schools\r\nS\r\n%roster\n%lists\nL\r\n%script";
    same(&rt, &split_bundle(front), &Some(sections));
    // A CR at the very end is a part of its line, which is then no marker.
    let lone = b"%seed\r\n \ta b\t\r\n%schools\r\nS\r\n%roster\n%lists\nL\r\n%script\r";
    let all = Bundle {
        lists: b"L\r\n%script\r",
        script: None,
        ..sections
    };
    same(&rt, &split_bundle(lone), &Some(all));
}

#[test]
fn markers_out_of_turn(rt: HostRuntime) {
    let sections = Bundle {
        seed: b"%roster",
        schools: b"%seed\n%schools \n",
        roster: b"%schools\n",
        lists: b"%lists\n",
        script: Some(b"%script"),
    };
    let input =
        b"%seed\n%roster\n%schools\n%seed\n%schools \n%roster\n%schools\n%lists\n%lists\n%script\n%script";
    same(&rt, &split_bundle(input), &Some(sections));
}

#[test]
fn no_bundles(rt: HostRuntime) {
    for text in &[
        "",
        "\n%seed\n%schools\n%roster\n%lists\n",
        "\u{FEFF}%seed\n%schools\n%roster\n%lists\n",
        "%seed 00\n%schools\n%roster\n%lists\n",
        "%seed\n%roster\n%schools\n%lists\n",
        "%seed\n%schools\n%roster\n%list",
    ] {
        same_in(&rt, &split_bundle(text.as_bytes()), &None, text);
    }
}
