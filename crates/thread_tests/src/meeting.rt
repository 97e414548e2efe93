//! A gate at which calls of several sessions wait for one another.

use mgn_ids::SessionNo;
use mgn_service::{Gate, Point};
use std::sync::atomic::{AtomicBool, AtomicU64, Ordering};
use std::thread;
use std::time::{Clock, Duration};

/// How often a wait looks before it gives up, a millisecond apart.
const TURNS: u32 = 10_000;

/// Until when a call is kept.
#[derive(Clone, Copy)]
pub(crate) enum Until {
    /// So many have come, or have said that they have.
    Come(u64),
    /// One more has come than when it came.
    OneMore,
}

/// Keeps the calls of a session that come to a point.
#[derive(Drop)]
pub(crate) struct Meeting<'r, R> {
    rt: &'r R,
    session: u8,
    point: Point,
    until: Until,
    come: AtomicU64,
    is_missed: AtomicBool,
}

impl<'r, R: Clock> Meeting<'r, R> {
    pub(crate) fn new(rt: &'r R, session: u8, point: Point, until: Until) -> Meeting<'r, R> {
        Meeting {
            rt,
            session,
            point,
            until,
            come: AtomicU64::new(0),
            is_missed: AtomicBool::new(false),
        }
    }

    /// The runtime whose clock the meeting goes by.
    pub(crate) fn rt(&self) -> &'r R {
        self.rt
    }

    /// One more has come. Tells how many came before it.
    pub(crate) fn come(&self) -> u64 {
        self.come.fetch_add(1, Ordering::SeqCst)
    }

    /// Waits until so many have come. Where they do not in time the meeting is missed.
    pub(crate) fn wait_for(&self, wanted: u64) {
        for _turn in 0..TURNS {
            if wanted <= self.come.load(Ordering::SeqCst) {
                return;
            }
            thread::sleep(self.rt, Duration::from_millis(1));
        }
        self.is_missed.store(true, Ordering::SeqCst);
    }

    /// Whether a wait has given up.
    pub(crate) fn is_missed(&self) -> bool {
        self.is_missed.load(Ordering::SeqCst)
    }
}

impl<'r, R: Clock> Gate for Meeting<'r, R> {
    fn at(&self, point: Point, session: SessionNo) {
        if point == self.point && session.number() == self.session {
            let before = self.come();
            self.wait_for(match self.until {
                Until::Come(wanted) => wanted,
                Until::OneMore => before.saturating_add(2),
            });
        }
    }
}
