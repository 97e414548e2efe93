//! Lists of steps of two sessions, with the replies in order of their commits.

use crate::commands::command;
use mgn_machine::Answer;
use mgn_setfile::read_set;
use mgn_wire::{LineReply, reply_text};
use mgn_world::World;
use mgn_world::phases::{Deed, Step};
use std::alloc::Global;
use std::process::Abort;
use std::test::Fail;
use worked_sets::{fut, one, two};

// The step that gathers for the second set.
fn gather_two(alloc: Global) -> Result<Deed, Fail> {
    Ok(Deed::Gather(read_set(alloc, two().as_bytes())?))
}

// The step that begins the call of a line's command.
fn begin(line: &str) -> Result<Deed, Fail> {
    Ok(Deed::Begin(command(line)?))
}

// What a step's text says: a set by its name, one of the steps, or a command that begins a call.
fn deed(alloc: Global, text: &str) -> Result<Deed, Fail> {
    match text {
        "LOOK" => Ok(Deed::Look),
        "MARK" => Ok(Deed::Mark),
        "APPLY" => Ok(Deed::Apply),
        "COMMIT" => Ok(Deed::Commit),
        "BACK" => Ok(Deed::Back),
        "CEASE" => Ok(Deed::End),
        "GATHER TWO" => gather_two(alloc),
        "PREPARE" => Ok(Deed::Prepare(0)),
        _ => begin(text),
    }
}

fn steps(alloc: Global, texts: &[(usize, &str)]) -> Result<Vec<Step>, Fail> {
    let mut steps = Vec::new(alloc);
    for (session, text) in texts {
        steps.push(Step {
            session: *session,
            deed: deed(alloc, text)?,
        })?;
    }
    Ok(steps)
}

// The world after the steps of these texts, from the set of a text on.
fn world_after(alloc: Global, set: &str, texts: &[(usize, &str)]) -> Result<World, Fail> {
    let steps = steps(alloc, texts)?;
    Ok(World::run(alloc, read_set(alloc, set.as_bytes())?, steps)?)
}

// The replies in order of their commits, a line each.
fn told(alloc: Global, world: &World) -> Result<Vec<u8>, Fail> {
    let mut out = Vec::new(alloc);
    for place in 1..=world.book().len() as u64 {
        if let Some(reply) = world.book().reply(place)? {
            let answer = Answer {
                place: Some(place),
                reply,
            };
            reply_text(&LineReply::Answered(answer), &mut out)?;
        }
    }
    Ok(out)
}

// The replies in order of their commits are these lines.
fn check_told(rt: &impl Abort, alloc: Global, world: &World, lines: &str) -> Result<(), Fail> {
    let text = told(alloc, world)?;
    assert!(rt; text.as_slice() == lines.as_bytes());
    Ok(())
}

const TRADED: &[(usize, &str)] = &[
    (1, "ORIGIN CUST GROSS"),
    (1, "OPEN A1 CUST"),
    (1, "POST A1 CASH 1000"),
    (1, "TRADE A1 1 AAA1 2 0"),
    (1, "LOOK"),
    (1, "MARK"),
    (1, "APPLY"),
    (1, "COMMIT"),
    (1, "CEASE"),
    (2, "ASK A1"),
];

const TRADED_TOLD: &str = "OK 1\nOK 2\nOK 3\nOK 4\nOK 5 600 600 1000 1000 400\n";

#[test]
fn a_trade_goes_step_by_step(rt: HostRuntime) -> Result<(), Fail> {
    let world = world_after(rt.alloc(), fut(), TRADED)?;
    check_told(&rt, rt.alloc(), &world, TRADED_TOLD)
}

// A set comes into force between the Apply of a hold and its Commit: the call is stale, looks again, and the hold has
// no room any more. A second Commit of the set does nothing, nor does a Begin on the unit that is held.
const PASSED: &[(usize, &str)] = &[
    (1, "ORIGIN CUST GROSS"),
    (1, "OPEN A1 CUST"),
    (1, "POST A1 CASH 600"),
    (1, "HOLD A1 1 AAA1 2 0"),
    (1, "LOOK"),
    (1, "MARK"),
    (1, "APPLY"),
    (3, "TRADE A1 9 AAA1 1 0"),
    (2, "GATHER TWO"),
    (2, "PREPARE"),
    (2, "COMMIT"),
    (2, "COMMIT"),
    (1, "COMMIT"),
    (1, "BACK"),
    (1, "LOOK"),
    (1, "MARK"),
    (1, "APPLY"),
    (1, "COMMIT"),
    (1, "BACK"),
    (1, "CEASE"),
    (1, "ASK A1"),
];

const PASSED_TOLD: &str = "OK 1\nOK 2\nOK 3\nOK 4 1 0\nERR 5 30 NOROOM\nOK 6 0 0 600 600 600\n";

// The first desk is that of unit 0, and has a version.
fn check_desk(rt: &impl Abort, world: &World) -> Result<(), Fail> {
    let Some(desk) = world.desks().first() else {
        return Err(Fail::new("no desk"));
    };
    assert!(rt; desk.unit() == 0 && desk.version().is_some());
    Ok(())
}

// The first desk requires these cents for its lots, and there is no second.
fn check_required(rt: &impl Abort, world: &World, cents: i128) -> Result<(), Fail> {
    let Some(requirements) = world.requirements(0) else {
        return Err(Fail::new("no requirements"));
    };
    assert!(rt; requirements.lots.amount() == cents);
    assert!(rt; world.requirements(1).is_none());
    Ok(())
}

#[test]
fn a_set_passes_a_hold(rt: HostRuntime) -> Result<(), Fail> {
    let world = world_after(rt.alloc(), one(), PASSED)?;
    check_told(&rt, rt.alloc(), &world, PASSED_TOLD)?;
    check_desk(&rt, &world)?;
    check_required(&rt, &world, 0)
}

// An order that is not held has no plan: it is answered at the first Look, which ends the call. A second Look does
// nothing, nor do Commit, Back and End, and the unit is free for another session.
const UNPLANNED: &[(usize, &str)] = &[
    (1, "ORIGIN CUST GROSS"),
    (1, "OPEN A1 CUST"),
    (1, "POST A1 CASH 1000"),
    (1, "RELEASE A1 7"),
    (1, "LOOK"),
    (1, "LOOK"),
    (1, "COMMIT"),
    (1, "BACK"),
    (1, "CEASE"),
    (2, "TRADE A1 1 AAA1 2 0"),
    (2, "LOOK"),
    (2, "MARK"),
    (2, "APPLY"),
    (1, "LOOK"),
    (2, "COMMIT"),
    (2, "CEASE"),
    (1, "ASK A1"),
];

const UNPLANNED_TOLD: &str =
    "OK 1\nOK 2\nOK 3\nERR 4 25 NOORDER\nOK 5\nOK 6 600 600 1000 1000 400\n";

#[test]
fn a_second_look_without_a_plan_does_nothing(rt: HostRuntime) -> Result<(), Fail> {
    let world = world_after(rt.alloc(), fut(), UNPLANNED)?;
    check_told(&rt, rt.alloc(), &world, UNPLANNED_TOLD)?;
    check_required(&rt, &world, 600)
}

// A hold without room is refused at its Commit, once: a second Commit does nothing, nor does a Look after the Back. The
// unit is held until the End: a Begin of another session waits for it, and after the End goes on.
const REFUSED: &[(usize, &str)] = &[
    (1, "ORIGIN CUST GROSS"),
    (1, "OPEN A1 CUST"),
    (1, "POST A1 CASH 500"),
    (1, "HOLD A1 1 AAA1 2 0"),
    (1, "LOOK"),
    (1, "MARK"),
    (1, "APPLY"),
    (1, "COMMIT"),
    (1, "COMMIT"),
    (1, "BACK"),
    (1, "BACK"),
    (1, "LOOK"),
    (1, "COMMIT"),
    (2, "HOLD A1 2 AAA1 1 0"),
    (2, "LOOK"),
    (1, "CEASE"),
    (1, "CEASE"),
    (2, "LOOK"),
    (2, "HOLD A1 2 AAA1 1 0"),
    (2, "LOOK"),
    (2, "APPLY"),
    (2, "COMMIT"),
    (2, "COMMIT"),
    (2, "CEASE"),
    (1, "ASK A1"),
];

const REFUSED_TOLD: &str = "OK 1\nOK 2\nOK 3\nERR 4 30 NOROOM\nOK 5\nOK 6 0 300 500 500 200\n";

#[test]
fn a_second_commit_after_a_refusal_does_nothing(rt: HostRuntime) -> Result<(), Fail> {
    let world = world_after(rt.alloc(), fut(), REFUSED)?;
    check_told(&rt, rt.alloc(), &world, REFUSED_TOLD)
}
