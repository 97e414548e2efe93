//! Random lists of steps beside the book of one thread that takes the commands in the order of their commits.

use crate::drawing::{Drawing, Passed, Sets};
use crate::one_thread::{OneThread, text};
use mgn_book::Book;
use mgn_machine::{Refusal, Reply};
use mgn_world::World;
use mgn_world::phases::{Deed, Step};
use std::alloc::{AllocError, Global};
use std::process::Abort;
use std::test::Fail;

const LISTS: u64 = 3_000;

// What came up in all lists.
#[derive(Clone, Copy)]
struct Counts {
    commits: u32,
    done: u32,
    refused: u32,
    without_room: u32,
    sets: u32,
    refused_sets: u32,
    stale: u32,
}

impl Counts {
    const NONE: Counts = Counts {
        commits: 0,
        done: 0,
        refused: 0,
        without_room: 0,
        sets: 0,
        refused_sets: 0,
        stale: 0,
    };

    fn count(&mut self, reply: &Reply) {
        self.commits = self.commits.saturating_add(1);
        match reply {
            Reply::Done => self.done = self.done.saturating_add(1),
            Reply::NewSet(_) => self.sets = self.sets.saturating_add(1),
            Reply::Refused(why) => self.count_refusal(*why),
            Reply::Figures(_) | Reply::Totals(_) | Reply::Statement(_) => {}
        }
    }

    fn count_stale(&mut self, is_stale: bool) {
        if is_stale {
            self.stale = self.stale.saturating_add(1);
        }
    }

    fn count_refusal(&mut self, why: Refusal) {
        self.refused = self.refused.saturating_add(1);
        match why {
            Refusal::NoRoom => self.without_room = self.without_room.saturating_add(1),
            Refusal::Missing => self.refused_sets = self.refused_sets.saturating_add(1),
            _ => {}
        }
    }
}

// What a list's book tells at a place. Counts it.
fn told(alloc: Global, book: &Book, place: u64, counts: &mut Counts) -> Result<Vec<u8>, Fail> {
    let Some(reply) = book.reply(place)? else {
        return Err(Fail::new("no reply"));
    };
    counts.count(&reply);
    text(alloc, place, reply)
}

// The reply at a place of a list's book is that of the book of one thread, at this place.
fn check_entry(
    rt: &impl Abort,
    book: &Book,
    place: u64,
    drawing: &Drawing,
    other: &mut OneThread,
    counts: &mut Counts,
) -> Result<(), Fail> {
    let told = told(other.alloc(), book, place, counts)?;
    let expected = other.follow(book, place, drawing)?;
    assert!(rt; told.as_slice() == expected.as_slice(), "at {place}");
    Ok(())
}

// All replies of a list are those of the book of one thread, which has no more.
fn check(
    rt: &impl Abort,
    book: &Book,
    drawing: &Drawing,
    other: &mut OneThread,
    counts: &mut Counts,
) -> Result<(), Fail> {
    for place in 1..=book.len() as u64 {
        check_entry(rt, book, place, drawing, other, counts)?;
    }
    assert_eq!(rt; other.len(), book.len());
    Ok(())
}

// All replies of a list's book are those of a book of one thread from the first set on.
fn check_book(
    rt: &impl Abort,
    alloc: Global,
    sets: &Sets,
    book: &Book,
    drawing: &Drawing,
    counts: &mut Counts,
) -> Result<(), Fail> {
    let mut other = OneThread::new(alloc, sets.first()?)?;
    check(rt, book, drawing, &mut other, counts)
}

// The world after a list of steps.
fn world_after(alloc: Global, sets: &Sets, steps: Vec<Step>) -> Result<World, Fail> {
    Ok(World::run(alloc, sets.first()?, steps)?)
}

// The list of a number, up to so many steps.
fn drawn(alloc: Global, sets: &Sets, number: u64, most: usize) -> Result<Vec<Step>, Fail> {
    Ok(Drawing::new(alloc, sets, number, most)?.take_steps())
}

// Adds the steps of another try of a session's call, with or without a Back before them.
fn add_try(steps: &mut Vec<Step>, session: usize, back: bool) -> Result<(), AllocError> {
    if back {
        steps.push(Step {
            session,
            deed: Deed::Back,
        })?;
    }
    for deed in [
        Deed::Look,
        Deed::Mark,
        Deed::Mark,
        Deed::Apply,
        Deed::Commit,
    ] {
        steps.push(Step { session, deed })?;
    }
    Ok(())
}

// How many entries there are after a list of steps.
fn entries_after(alloc: Global, sets: &Sets, steps: Vec<Step>) -> Result<usize, Fail> {
    let world = world_after(alloc, sets, steps)?;
    Ok(world.book().len())
}

// How many entries there are after a list up to a commit and the steps of another try, with or without a Back before
// them.
fn tried_again(
    alloc: Global,
    sets: &Sets,
    number: u64,
    passed: Passed,
    back: bool,
) -> Result<usize, Fail> {
    let mut steps = drawn(alloc, sets, number, passed.steps)?;
    add_try(&mut steps, passed.session, back)?;
    entries_after(alloc, sets, steps)
}

// Whether a commit found that its call is stale: only then can the call be tried again after a Back, and not without
// one.
fn is_stale(alloc: Global, sets: &Sets, number: u64, passed: Passed) -> Result<bool, Fail> {
    Ok(
        tried_again(alloc, sets, number, passed, true)?
            > tried_again(alloc, sets, number, passed, false)?,
    )
}

// Takes the steps of a list and compares what its book tells.
fn check_steps(
    rt: &impl Abort,
    alloc: Global,
    sets: &Sets,
    drawing: &Drawing,
    steps: Vec<Step>,
    counts: &mut Counts,
) -> Result<(), Fail> {
    let world = world_after(alloc, sets, steps)?;
    check_book(rt, alloc, sets, world.book(), drawing, counts)
}

// Draws the list of a number, takes its steps, and compares. Counts what came up.
fn check_list(
    rt: &impl Abort,
    alloc: Global,
    sets: &Sets,
    number: u64,
    counts: &mut Counts,
) -> Result<(), Fail> {
    let mut drawing = Drawing::new(alloc, sets, number, usize::MAX)?;
    let steps = drawing.take_steps();
    check_steps(rt, alloc, sets, &drawing, steps, counts)?;
    match drawing.passed() {
        Some(passed) => counts.count_stale(is_stale(alloc, sets, number, passed)?),
        None => {}
    }
    Ok(())
}

// Enough of each came up in all lists.
fn check_counts(rt: &impl Abort, counts: Counts) {
    assert!(rt; counts.commits > 50_000 && counts.done > 20_000 && counts.refused > 10_000);
    assert!(rt; counts.without_room > 500 && counts.sets > 3_000);
    assert!(rt; counts.refused_sets > 200 && counts.stale > 200);
}

// Draws and checks all lists. Enough of each came up in them.
fn check_lists(rt: &impl Abort, alloc: Global, sets: &Sets) -> Result<(), Fail> {
    let mut counts = Counts::NONE;
    for number in 0..LISTS {
        check_list(rt, alloc, sets, number, &mut counts)?;
    }
    check_counts(rt, counts);
    Ok(())
}

#[test]
fn random_lists_are_their_commits(rt: HostRuntime) -> Result<(), Fail> {
    let sets = Sets::new(rt.alloc())?;
    check_lists(&rt, rt.alloc(), &sets)
}
