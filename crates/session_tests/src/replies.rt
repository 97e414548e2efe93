//! The text of each kind of reply, and of what lines and files lack.

use mgn_machine::{Answer, NewSet, Refusal, Reply, Totals, UnitFigures};
use mgn_num::Cents;
use mgn_wire::{LineFault, LineReply, reply_text};
use std::alloc::Global;
use std::process::Abort;

fn figures(cents: [i64; 5]) -> Reply {
    let [
        requirement,
        exposure_requirement,
        value,
        exposure_value,
        room,
    ] = cents;
    Reply::Figures(UnitFigures {
        requirement: Cents::new(i128::from(requirement)),
        exposure_requirement: Cents::new(i128::from(exposure_requirement)),
        value: Cents::new(i128::from(value)),
        exposure_value: Cents::new(i128::from(exposure_value)),
        room: Cents::new(i128::from(room)),
    })
}

fn totals(cents: [i64; 3], accounts: u32) -> Reply {
    let [requirement, value, call] = cents;
    Reply::Totals(Totals {
        requirement: Cents::new(i128::from(requirement)),
        value: Cents::new(i128::from(value)),
        call: Cents::new(i128::from(call)),
        accounts,
    })
}

// Asserts the line that an answer is written as.
fn assert_written(rt: &impl Abort, alloc: Global, place: Option<u64>, reply: Reply, text: &str) {
    let mut out = Vec::new(alloc);
    let reply = LineReply::Answered(Answer { place, reply });
    assert!(rt; reply_text(&reply, &mut out).is_ok());
    assert!(rt; out.as_slice() == text.as_bytes(), "for {text}");
}

#[test]
fn writes_what_was_done(rt: HostRuntime) {
    let replies = [
        (4, Reply::Done, "OK 4\n"),
        (
            5,
            figures([600, 600, 1000, 1000, 400]),
            "OK 5 600 600 1000 1000 400\n",
        ),
        (
            6,
            figures([140, 140, 0, 0, -140]),
            "OK 6 140 140 0 0 -140\n",
        ),
        (7, totals([600, -50, 650], 2), "OK 7 600 -50 650 2\n"),
        (
            7,
            Reply::NewSet(NewSet {
                version: 64,
                on_call: 3,
            }),
            "OK 7 64 3\n",
        ),
    ];
    for (place, reply, text) in replies {
        assert_written(&rt, rt.alloc(), Some(place), reply, text);
    }
}

#[test]
fn writes_refusals(rt: HostRuntime) {
    let refusals = [
        (Some(8), Refusal::Missing, "ERR 8 42 MISSING\n"),
        (
            Some(1_000_000),
            Refusal::NoAccount,
            "ERR 1000000 20 NOACCT\n",
        ),
        (Some(14), Refusal::OtherOrigin, "ERR 14 34 ORIGIN\n"),
        (None, Refusal::Full, "ERR 91 FULL\n"),
        (None, Refusal::Broken, "ERR 92 BROKEN\n"),
    ];
    for (place, why, text) in refusals {
        assert_written(&rt, rt.alloc(), place, Reply::Refused(why), text);
    }
}

#[test]
fn writes_what_lines_and_files_lack(rt: HostRuntime) {
    let replies = [
        (LineReply::NotRead(LineFault::Syntax), "ERR 10 SYNTAX\n"),
        (LineReply::NotRead(LineFault::Long), "ERR 11 LONG\n"),
        (LineReply::NotRead(LineFault::Range), "ERR 12 RANGE\n"),
        (LineReply::NoSet, "ERR 40 NOSET\n"),
        (LineReply::BadSet(7), "ERR 41 BADSET 7\n"),
    ];
    for (reply, text) in replies {
        let mut out = Vec::new(rt.alloc());
        assert!(rt; reply_text(&reply, &mut out).is_ok());
        assert!(rt; out.as_slice() == text.as_bytes(), "for {text}");
    }
}
