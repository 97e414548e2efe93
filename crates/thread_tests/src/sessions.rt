//! Sessions on two threads: replies and figures worked out by hand. Each test says by its gate what happens while a
//! call is under way, and none rests on a schedule.

ghost use Rattle.std.specs.Prelude.{◌≡◌};

use crate::meeting::{Meeting, Until};
use crate::player::{Deed, Player, play_all};
use mgn_ledger::{DayImage, Image, Pass};
use mgn_seat::{Alone, Switches};
use mgn_service::{Point, Service};
use mgn_setfile::read_set;
use mgn_slots::{SlotNames, Slots};
use mgn_table::{SetTable, TableName};
use mgn_wire::{Line, read_line};
use std::alloc::Global;
use std::marker::Brand;
use std::process::Abort;
use std::sync::Wait;
use std::test::Fail;
use std::thread::Threads;
use std::time::Clock;
use worked_sets::{one, two};

/// How many workers share the units of a switch.
const WORKERS: usize = 2;

/// What two sessions do at the same time; calls of the first that come to a point are kept there for a time.
pub(crate) struct Scene {
    first: &'static [Deed],
    second: &'static [Deed],
    point: Point,
    until: Until,
}

/// What came of it: what both were told, how many units were worked out in the book for a command and for a switch, and
/// how many entries the history has.
#[derive(Drop)]
pub(crate) struct Played {
    pub(crate) first: Vec<u8>,
    pub(crate) second: Vec<u8>,
    pub(crate) plain: u64,
    pub(crate) late: u64,
    pub(crate) entries: u64,
}

fn player<'s, 'm, 'r, 'w, 'a, R: Wait + Clock, T: Image, J: TableName + SlotNames, W: Switches>(
    alloc: Global,
    service: &'s Service<'a, T, J>,
    meeting: &'m Meeting<'r, R>,
    workers: &'w W,
    deeds: &'static [Deed],
) -> Result<Player<'s, 'm, 'r, 'w, 'a, R, T, J, W>, Fail> {
    let pass = service.pass(meeting.rt()).ok_or("a pass")?;
    Ok(Player {
        alloc,
        service,
        meeting,
        workers,
        pass,
        deeds,
        told: Vec::new(alloc),
    })
}

/// A session's pass and what it was told.
#[derive(Drop)]
struct Ended<'a, T: Image, J: TableName + SlotNames> {
    pass: Pass<'a, T, J>,
    told: Vec<u8>,
}

// Both sessions, on threads of their own.
fn play<
    'a,
    R: Threads + Wait + Clock + Abort + Sync,
    T: Image + Send + Sync,
    J: TableName + SlotNames + Send + Sync,
    W: Switches + Sync,
>(
    rt: &R,
    alloc: Global,
    service: &Service<'a, T, J>,
    meeting: &Meeting<'_, R>,
    workers: &W,
    scene: &Scene,
) -> Result<Vec<Ended<'a, T, J>>, Fail> {
    let mut players = Vec::with_capacity(alloc, 2)?;
    players.push(player(alloc, service, meeting, workers, scene.first)?)?;
    players.push(player(alloc, service, meeting, workers, scene.second)?)?;
    play_all(rt, players.as_mut_slice());
    assert!(rt; !meeting.is_missed());
    let mut ended = Vec::with_capacity(alloc, 2)?;
    for one in players {
        ended.push(Ended {
            pass: one.pass,
            told: one.told,
        })?;
    }
    Ok(ended)
}

fn stage<
    R: Threads + Wait + Clock + Abort + Sync,
    T: Image + Send + Sync,
    J: TableName + SlotNames + Send + Sync,
    W: Switches + Sync,
>(
    rt: &R,
    alloc: Global,
    slots: &Slots<T>,
    table: &SetTable,
    workers: &W,
    scene: &Scene,
) -> Result<Played, Fail>
    requires slots { slots.now ≡ J.slots }
    requires table { table.now ≡ J.table }
{
    let set = read_set(alloc, one().as_bytes())?;
    let service = Service::<T, J>::new(rt, alloc, slots, table, set, WORKERS)?;
    let meeting = Meeting::new(rt, 1, scene.point, scene.until);
    let players = play(rt, alloc, &service, &meeting, workers, scene)?;
    end(rt, alloc, service, players)
}

// Closes the service.
fn end<'a, R: Wait, T: Image, J: TableName + SlotNames>(
    rt: &R,
    alloc: Global,
    service: Service<'a, T, J>,
    players: Vec<Ended<'a, T, J>>,
) -> Result<Played, Fail> {
    let plain = service.plain_count(rt);
    let late = service.late_count(rt);
    let mut passes = Vec::with_capacity(alloc, players.len())?;
    let mut told = Vec::with_capacity(alloc, players.len())?;
    for player in players {
        passes.push(player.pass)?;
        told.push(player.told)?;
    }
    let entries = service.close(passes).ok().ok_or("an audit")?;
    let second = told.pop().ok_or("the second session")?;
    let first = told.pop().ok_or("the first session")?;
    Ok(Played {
        first,
        second,
        plain,
        late,
        entries,
    })
}

/// Plays a scene over 80 slots, in which these work out the switches.
pub(crate) fn staged<R: Threads + Wait + Clock + Abort + Sync, W: Switches + Sync>(
    rt: &R,
    alloc: Global,
    workers: &W,
    scene: &Scene,
) -> Result<Played, Fail> {
    let slots = Slots::<DayImage>::new(alloc, 80)?;
    let table = SetTable::new(alloc)?;
    stage::<_, _, Brand, _>(rt, alloc, &slots, &table, workers, scene)
}

// Each of two orders requires 600 of 1,000, so there is room for one of them.
const ROOM_FOR_ONE: Scene = Scene {
    first: &[
        Deed::Call("ORIGIN CUST GROSS"),
        Deed::Call("OPEN A1 CUST"),
        Deed::Call("POST A1 CASH 1000"),
        Deed::Come,
        Deed::Call("HOLD A1 1 AAA1 2 0"),
    ],
    second: &[Deed::Await(1), Deed::Call("HOLD A1 2 AAA1 2 0")],
    point: Point::Prepared,
    until: Until::Come(0),
};

#[test]
fn of_two_orders_at_once_one_has_room(rt: HostRuntime) -> Result<(), Fail> {
    let played = staged(&rt, rt.alloc(), &Alone, &ROOM_FOR_ONE)?;
    let first = played.first.as_slice();
    let second = played.second.as_slice();
    let first_wins = first == "OK 1\nOK 2\nOK 3\nOK 4\n".as_bytes()
        && second == "ERR 5 30 NOROOM\n".as_bytes();
    let second_wins = first == "OK 1\nOK 2\nOK 3\nERR 5 30 NOROOM\n".as_bytes()
        && second == "OK 4\n".as_bytes();
    assert!(&rt; first_wins || second_wins);
    assert!(&rt; played.plain == 0 && played.entries == 5);
    Ok(())
}

/// An order is looked at under one set, and committed under the next, where there is no room for it.
pub(crate) const SWITCH_BETWEEN: Scene = Scene {
    first: &[
        Deed::Call("ORIGIN CUST GROSS"),
        Deed::Call("OPEN A1 CUST"),
        Deed::Call("POST A1 CASH 600"),
        Deed::Call("HOLD A1 1 AAA1 2 0"),
    ],
    second: &[Deed::Await(1), Deed::Switch, Deed::Come],
    point: Point::Applied,
    until: Until::Come(2),
};

/// The set came into force with what was worked out before, and the order went by it.
pub(crate) fn check_switch_between(rt: &impl Abort, played: &Played) {
    assert!(rt; played.first.as_slice() == "OK 1\nOK 2\nOK 3\nERR 5 30 NOROOM\n".as_bytes());
    assert!(rt; played.second.as_slice() == "OK 4 1 0\n".as_bytes());
    assert!(rt; played.plain == 0 && played.late == 0 && played.entries == 5);
}

#[test]
fn a_set_comes_into_force_beside_an_order(rt: HostRuntime) -> Result<(), Fail> {
    let played = staged(&rt, rt.alloc(), &Alone, &SWITCH_BETWEEN)?;
    check_switch_between(&rt, &played);
    Ok(())
}

// A position moves between two units while another unit gets a lot and a set comes into force.
const MOVE_BESIDE_A_SWITCH: Scene = Scene {
    first: &[
        Deed::Await(1),
        Deed::Call("MOVE 7 A1 A2 AAA1 2"),
        Deed::Call("ASK A1"),
        Deed::Call("ASK A2"),
    ],
    second: &[
        Deed::Call("ORIGIN CUST GROSS"),
        Deed::Call("OPEN A1 CUST"),
        Deed::Call("OPEN A2 CUST"),
        Deed::Call("OPEN A3 CUST"),
        Deed::Call("POST A1 CASH 1200"),
        Deed::Call("POST A2 CASH 1200"),
        Deed::Call("TRADE A1 1 AAA1 2 0"),
        Deed::Come,
        Deed::Await(2),
        Deed::Call("TRADE A3 1 AAA1 1 0"),
        Deed::Switch,
        Deed::Come,
    ],
    point: Point::Applied,
    until: Until::Come(3),
};

#[test]
fn a_move_goes_on_under_the_next_set(rt: HostRuntime) -> Result<(), Fail> {
    let played = staged(&rt, rt.alloc(), &Alone, &MOVE_BESIDE_A_SWITCH)?;
    assert!(&rt;
        played.first.as_slice()
            == "OK 10\nOK 11 0 0 1200 1200 1200\nOK 12 1200 1200 1200 1200 0\n".as_bytes()
    );
    assert!(&rt;
        played.second.as_slice()
            == "OK 1\nOK 2\nOK 3\nOK 4\nOK 5\nOK 6\nOK 7\nOK 8\nOK 9 1 1\n".as_bytes()
    );
    assert!(&rt; played.plain == 0 && played.late == 0 && played.entries == 12);
    Ok(())
}

// At each look of an order another set comes into force before its commit, as often as sets can: at the 65th it is
// held.
const LOOKS: Scene = Scene {
    first: &[
        Deed::Call("ORIGIN CUST GROSS"),
        Deed::Call("OPEN A1 CUST"),
        Deed::Call("POST A1 CASH 1200"),
        Deed::Call("HOLD A1 1 AAA1 2 0"),
        Deed::Call("ASK A1"),
    ],
    second: &[Deed::SwitchEachTime(64), Deed::Await(129), Deed::Come],
    point: Point::Applied,
    until: Until::OneMore,
};

#[test]
fn an_order_is_looked_at_under_each_set(rt: HostRuntime) -> Result<(), Fail> {
    let played = staged(&rt, rt.alloc(), &Alone, &LOOKS)?;
    assert!(&rt;
        played.first.as_slice() == "OK 1\nOK 2\nOK 3\nOK 68\nOK 69 0 1200 1200 1200 0\n".as_bytes()
    );
    assert!(&rt;
        played
            .second
            .as_slice()
            .starts_with("OK 4 1 0\nOK 5 2 0\n".as_bytes())
    );
    assert!(&rt;
        played
            .second
            .as_slice()
            .ends_with("OK 67 64 0\n".as_bytes())
    );
    assert!(&rt; played.plain == 0 && played.late == 0 && played.entries == 69);
    Ok(())
}

// While a lot is entered in one unit, another is in another one.
const TWO_UNITS: Scene = Scene {
    first: &[
        Deed::Call("ORIGIN CUST GROSS"),
        Deed::Call("OPEN A1 CUST"),
        Deed::Call("OPEN A2 CUST"),
        Deed::Call("TRADE A1 1 AAA1 1 0"),
    ],
    second: &[
        Deed::Await(1),
        Deed::Call("TRADE A2 1 AAA1 1 0"),
        Deed::Come,
    ],
    point: Point::Applied,
    until: Until::Come(2),
};

#[test]
fn commands_of_two_units_overlap(rt: HostRuntime) -> Result<(), Fail> {
    let played = staged(&rt, rt.alloc(), &Alone, &TWO_UNITS)?;
    assert!(&rt; played.first.as_slice() == "OK 1\nOK 2\nOK 3\nOK 5\n".as_bytes());
    assert!(&rt; played.second.as_slice() == "OK 4\n".as_bytes());
    assert!(&rt; played.plain == 0 && played.entries == 5);
    Ok(())
}

/// A unit gets a lot after its nets were gathered for a switch.
pub(crate) const LATE_LOT: Scene = Scene {
    first: &[
        Deed::Call("ORIGIN CUST GROSS"),
        Deed::Call("OPEN A1 CUST"),
        Deed::Call("POST A1 CASH 1000"),
        Deed::Call("TRADE A1 1 AAA1 2 0"),
        Deed::Switch,
        Deed::Call("ASK A1"),
    ],
    second: &[
        Deed::Await(1),
        Deed::Call("TRADE A1 2 AAA1 1 0"),
        Deed::Come,
    ],
    point: Point::Prepared,
    until: Until::Come(2),
};

/// The lot counted for the requirement under the new set.
pub(crate) fn check_late_lot(rt: &impl Abort, played: &Played) {
    assert!(rt;
        played.first.as_slice()
            == "OK 1\nOK 2\nOK 3\nOK 4\nOK 6 1 1\nOK 7 1800 1800 1000 1000 -800\n".as_bytes()
    );
    assert!(rt; played.second.as_slice() == "OK 5\n".as_bytes());
    assert!(rt; played.plain == 0 && played.late == 1 && played.entries == 7);
}

#[test]
fn a_late_lot_is_worked_out_at_the_switch(rt: HostRuntime) -> Result<(), Fail> {
    let played = staged(&rt, rt.alloc(), &Alone, &LATE_LOT)?;
    check_late_lot(&rt, &played);
    Ok(())
}

// A unit is opened after the nets were gathered for a switch, under whose set each contract keeps its place.
const LATE_UNIT: Scene = Scene {
    first: &[
        Deed::Call("ORIGIN CUST GROSS"),
        Deed::Call("OPEN A1 CUST"),
        Deed::Call("TRADE A1 1 AAA1 2 0"),
        Deed::Switch,
        Deed::Call("ASK A1"),
        Deed::Call("ASK A2"),
    ],
    second: &[
        Deed::Await(1),
        Deed::Call("OPEN A2 CUST"),
        Deed::Call("POST A2 CASH 1000"),
        Deed::Call("TRADE A2 1 AAA1 1 0"),
        Deed::Come,
    ],
    point: Point::Prepared,
    until: Until::Come(2),
};

#[test]
fn a_late_unit_is_worked_out_beside_those_prepared(rt: HostRuntime) -> Result<(), Fail> {
    let played = staged(&rt, rt.alloc(), &Alone, &LATE_UNIT)?;
    assert!(&rt;
        played.first.as_slice()
            == "OK 1\nOK 2\nOK 3\nOK 7 1 1\nOK 8 1200 1200 0 0 -1200\nOK 9 600 600 1000 1000 400\n".as_bytes()
    );
    assert!(&rt; played.second.as_slice() == "OK 4\nOK 5\nOK 6\n".as_bytes());
    assert!(&rt; played.plain == 0 && played.late == 1 && played.entries == 9);
    Ok(())
}

// A lot comes and goes: the unit's nets are those again that were gathered.
const LOT_COMES_AND_GOES: Scene = Scene {
    first: &[
        Deed::Call("ORIGIN CUST GROSS"),
        Deed::Call("OPEN A1 CUST"),
        Deed::Call("TRADE A1 1 AAA1 2 0"),
        Deed::Switch,
    ],
    second: &[
        Deed::Await(1),
        Deed::Call("TRADE A1 2 AAA1 1 0"),
        Deed::Call("BUST A1 2"),
        Deed::Come,
    ],
    point: Point::Prepared,
    until: Until::Come(2),
};

#[test]
fn nets_that_are_the_same_again_are_not_late(rt: HostRuntime) -> Result<(), Fail> {
    let played = staged(&rt, rt.alloc(), &Alone, &LOT_COMES_AND_GOES)?;
    assert!(&rt; played.first.as_slice() == "OK 1\nOK 2\nOK 3\nOK 6 1 1\n".as_bytes());
    assert!(&rt; played.second.as_slice() == "OK 4\nOK 5\n".as_bytes());
    assert!(&rt; played.plain == 0 && played.late == 0 && played.entries == 6);
    Ok(())
}

// Two units, each prepared by a worker that waits for the other.
fn switch_by_workers<R: Threads + Wait + Clock + Abort + Sync, T: Image, J: TableName + SlotNames>(
    rt: &R,
    alloc: Global,
    slots: &Slots<T>,
    table: &SetTable,
) -> Result<(), Fail>
    requires slots { slots.now ≡ J.slots }
    requires table { table.now ≡ J.table }
{
    let set = read_set(alloc, one().as_bytes())?;
    let service = Service::<T, J>::new(rt, alloc, slots, table, set, WORKERS)?;
    let mut pass = service.pass(rt).ok_or("a pass")?;
    let meeting = Meeting::new(rt, 1, Point::Preparing, Until::Come(2));
    for line in ["ORIGIN CUST GROSS", "OPEN A1 CUST", "OPEN A2 CUST"] {
        if let Ok(Line::Do(command)) = read_line(line.as_bytes()) {
            assert!(rt;
                service
                    .exec(rt, &mut pass, &meeting, &command)
                    .place
                    .is_some()
            );
        }
    }
    let answer = service.switch(rt, &mut pass, &meeting, read_set(alloc, two().as_bytes())?);
    assert!(rt; answer.place == Some(4) && !meeting.is_missed());
    assert!(rt; service.late_count(rt) == 0);
    Ok(())
}

#[test]
fn workers_of_a_switch_overlap(rt: HostRuntime) -> Result<(), Fail> {
    let slots = Slots::<DayImage>::new(rt.alloc(), 20)?;
    let table = SetTable::new(rt.alloc())?;
    switch_by_workers::<_, _, Brand>(&rt, rt.alloc(), &slots, &table)
}
