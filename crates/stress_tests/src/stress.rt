//! The stress test. Whatever the threads do, the answers are those of one history; how many there are of each kind
//! varies, far above what is wanted.

ghost use Rattle.std.specs.Prelude.{◌≡◌};

use crate::drawn::{LINES, OPENING_LINES, SEED, SESSIONS, lines_of};
use crate::player::{Player, play_all};
use crate::replay::{Track, check, tracks};
use crate::text::Rest;
use crate::told::Told;
use mgn_ledger::{DayImage, Image, Pass};
use mgn_script::Plain;
use mgn_service::Service;
use mgn_setfile::read_set;
use mgn_slots::{SlotNames, Slots};
use mgn_table::{SetTable, TableName};
use std::alloc::Global;
use std::marker::Brand;
use std::process::Abort;
use std::sync::Wait;
use std::test::Fail;
use std::thread::Threads;
use worked_sets::one;

// How many answers have a place: all of them.
const ENTRIES: u64 = OPENING_LINES + SESSIONS as u64 * LINES;

const SLOTS: usize = 81_000;

type Players<'s, 't, 'r, 'a, R, T, J> = Vec<Player<'s, 't, 'r, 'a, R, T, J>>;

fn player<'s, 't, 'r, 'a, R: Wait, T: Image, J: TableName + SlotNames>(
    rt: &'r R,
    alloc: Global,
    service: &'s Service<'a, T, J>,
    lines: &'t str,
) -> Result<Player<'s, 't, 'r, 'a, R, T, J>, Fail> {
    let pass = service.pass(rt).ok_or("a pass")?;
    Ok(Player {
        alloc,
        rt,
        service,
        pass,
        lines: Rest(lines.as_bytes()),
        told: Told::nothing(alloc),
    })
}

// A player for each session.
fn seated<'s, 't, 'r, 'a, R: Wait, T: Image, J: TableName + SlotNames>(
    rt: &'r R,
    alloc: Global,
    service: &'s Service<'a, T, J>,
    lines: &'t [String],
) -> Result<Players<'s, 't, 'r, 'a, R, T, J>, Fail> {
    let mut players = Vec::with_capacity(alloc, lines.len())?;
    for text in lines {
        players.push(player(rt, alloc, service, text)?)?;
    }
    Ok(players)
}

// The passes of all sessions, and what they were told.
#[derive(Drop)]
struct Ended<'a, T: Image, J: TableName + SlotNames> {
    passes: Vec<Pass<'a, T, J>>,
    told: Vec<Told>,
}

fn parted<'s, 't, 'r, 'a, R: Wait, T: Image, J: TableName + SlotNames>(
    alloc: Global,
    players: Players<'s, 't, 'r, 'a, R, T, J>,
) -> Result<Ended<'a, T, J>, Fail> {
    let mut passes = Vec::with_capacity(alloc, players.len())?;
    let mut told = Vec::with_capacity(alloc, players.len())?;
    for player in players {
        passes.push(player.pass)?;
        told.push(player.told)?;
    }
    Ok(Ended { passes, told })
}

// The first session opens the day, and then all sessions play at the same time.
fn play<
    'a,
    R: Threads + Wait + Sync,
    T: Image + Send + Sync,
    J: TableName + SlotNames + Send + Sync,
>(
    rt: &R,
    alloc: Global,
    service: &Service<'a, T, J>,
    lines: &[String],
) -> Result<Ended<'a, T, J>, Fail> {
    let mut players = seated(rt, alloc, service, lines)?;
    if let Some(first) = players.first_mut() {
        first.ask_next(OPENING_LINES);
    }
    play_all(rt, players.as_mut_slice());
    parted(alloc, players)
}

// No answer lacks a place, as one would that says that the service is closed.
fn check_placed(rt: &impl Abort, told: &[Told]) {
    for one in told {
        assert!(rt; one.unplaced.is_empty(), "seed {SEED}");
    }
}

// All that the sessions are told. The history of the service has each answer. No command was worked out in the book: it
// would be only if more sets than there are switches had come into force while the command was under way.
fn stress<
    R: Threads + Wait + Abort + Sync,
    T: Image + Send + Sync,
    J: TableName + SlotNames + Send + Sync,
>(
    rt: &R,
    alloc: Global,
    slots: &Slots<T>,
    table: &SetTable,
    lines: &[String],
) -> Result<Vec<Told>, Fail>
    requires slots { slots.now ≡ J.slots }
    requires table { table.now ≡ J.table }
{
    let set = read_set(alloc, one().as_bytes())?;
    let service = Service::<T, J>::new(rt, alloc, slots, table, set, 1)?;
    let Ended { passes, told } = play(rt, alloc, &service, lines)?;
    let plain = service.plain_count(rt);
    let entries = service.close(passes);
    check_placed(rt, &told);
    assert!(rt; plain == 0 && entries == Ok(ENTRIES), "seed {SEED}");
    Ok(told)
}

// What the sessions are told over slots and a table of their own.
fn stressed<R: Threads + Wait + Abort + Sync>(
    rt: &R,
    alloc: Global,
    lines: &[String],
) -> Result<Vec<Told>, Fail> {
    let slots = Slots::<DayImage>::new(alloc, SLOTS)?;
    let table = SetTable::new(alloc)?;
    stress::<_, _, Brand>(rt, alloc, &slots, &table, lines)
}

// A book gives the same replies, and there are many of each kind.
fn check_by(
    rt: &impl Abort,
    alloc: Global,
    plain: &mut Plain,
    tracks: &mut [Track<'_>],
) -> Result<(), Fail> {
    let counts = check(rt, alloc, plain, tracks, ENTRIES)?;
    assert!(rt; counts.are_many(), "{counts:?}, seed {SEED}");
    Ok(())
}

// A book of one thread does so from its first set on.
fn check_tracks(rt: &impl Abort, alloc: Global, tracks: &mut [Track<'_>]) -> Result<(), Fail> {
    let set = read_set(alloc, one().as_bytes())?;
    let mut plain = Plain::new(alloc, set)?;
    check_by(rt, alloc, &mut plain, tracks)
}

fn check_told(rt: &impl Abort, alloc: Global, lines: &[String], told: &[Told]) -> Result<(), Fail> {
    let mut tracks = tracks(alloc, lines, told)?;
    check_tracks(rt, alloc, tracks.as_mut_slice())
}

// The lines of all sessions.
fn all_lines(alloc: Global) -> Result<Vec<String>, Fail> {
    let mut lines = Vec::new(alloc);
    for session in 0..SESSIONS {
        lines.push(lines_of(alloc, session)?)?;
    }
    Ok(lines)
}

#[test]
fn sixteen_sessions_have_one_history(rt: HostRuntime) -> Result<(), Fail> {
    let lines = all_lines(rt.alloc())?;
    let told = stressed(&rt, rt.alloc(), &lines)?;
    check_told(&rt, rt.alloc(), &lines, &told)
}
