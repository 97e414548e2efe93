//! Random lists of steps of four sessions. A list is the same whenever it is drawn again.

ghost use Rattle.std.specs.Prelude.{◌<◌};

use crate::commands::{CLOSING, OPENING, command, has_units, line};
use mgn_params::ParamSet;
use mgn_setfile::read_set;
use mgn_world::phases::{Deed, Step};
use rand::RngExt;
use rand_pcg::Pcg32;
use std::alloc::Global;
use std::mem;
use std::test::Fail;
use worked_sets::{fut, one, two};

// The sessions of a list, and one that asks at its end and has no other step.
const SESSIONS: [usize; 4] = [1, 2, 9, 16];

const LAST_SESSION: usize = 5;

/// A set that a session switches to. Not all contracts of the others are in that of one future, so that it is refused
/// while they are in use.
#[derive(Clone, Copy)]
enum Choice {
    One,
    Two,
    Future,
}

impl Choice {
    fn draw(rng: &mut Pcg32) -> Choice {
        match rng.random_range(0u32..9) {
            0..=2 => Choice::One,
            3..=5 => Choice::Two,
            _ => Choice::Future,
        }
    }

    // The place of its set.
    fn place(self) -> usize {
        match self {
            Choice::One => 0,
            Choice::Two => 1,
            Choice::Future => 2,
        }
    }
}

/// The sets, read once, in order of their choices.
#[derive(Drop)]
pub(crate) struct Sets {
    alloc: Global,
    sets: Vec<ParamSet>,
}

impl Sets {
    pub fn new(alloc: Global) -> Result<Sets, Fail> {
        let mut sets = Vec::new(alloc);
        for text in [one(), two(), fut()] {
            sets.push(read_set(alloc, text.as_bytes())?)?;
        }
        Ok(Sets { alloc, sets })
    }

    /// The set that every list begins with.
    pub fn first(&self) -> Result<ParamSet, Fail> {
        self.copy_of(Choice::One)
    }

    fn copy_of(&self, choice: Choice) -> Result<ParamSet, Fail> {
        match self.sets.get(choice.place()) {
            Some(set) => Ok(set.copy(self.alloc)?),
            None => Err(Fail::new("no set")),
        }
    }
}

// The next step of a session's call, if it goes as its session means it to.
#[derive(Clone, Copy)]
enum Turn {
    Begin,
    Look,
    Mark,
    Apply,
    Commit,
    Back,
    End,
    Prepare,
    Switch,
}

impl Turn {
    fn draw(rng: &mut Pcg32) -> Turn {
        match rng.random_range(0u32..9) {
            0 => Turn::Begin,
            1 => Turn::Look,
            2 => Turn::Mark,
            3 => Turn::Apply,
            4 => Turn::Commit,
            5 => Turn::Back,
            6 => Turn::End,
            7 => Turn::Prepare,
            _ => Turn::Switch,
        }
    }

    // The turn after this one, in which a session did something.
    fn next(self, rng: &mut Pcg32, deed: &Deed) -> Turn {
        match self {
            Turn::Begin => match deed {
                Deed::Begin(command) if has_units(command) => Turn::Look,
                Deed::Gather(_) => Turn::Prepare,
                _ => Turn::Begin,
            },
            Turn::Look => Turn::Mark,
            Turn::Mark if rng.random_ratio(1, 4) => Turn::Mark,
            Turn::Mark => Turn::Apply,
            Turn::Apply => Turn::Commit,
            Turn::Commit => Turn::Back,
            Turn::Back => Turn::End,
            Turn::Prepare if rng.random_ratio(1, 2) => Turn::Prepare,
            Turn::Prepare => Turn::Switch,
            Turn::End | Turn::Switch => Turn::Begin,
        }
    }
}

// A session of a list: its next turn, its set, and whether its call looked, and a switch of another passed it since.
#[derive(Clone, Copy)]
struct Player {
    turn: Turn,
    set: Choice,
    looked: bool,
    passed: bool,
}

impl Player {
    fn draw(rng: &mut Pcg32) -> Player {
        Player {
            turn: Turn::Begin,
            set: Choice::draw(rng),
            looked: false,
            passed: false,
        }
    }
}

/// A commit that was passed by a switch, if both came to be: the session, and how many steps the list has up to it.
#[derive(Clone, Copy)]
pub(crate) struct Passed {
    pub session: usize,
    pub steps: usize,
}

/// A list in the making.
#[derive(Drop)]
pub(crate) struct Drawing<'a> {
    alloc: Global,
    sets: &'a Sets,
    rng: Pcg32,
    players: [Player; 4],
    opened: usize,
    steps: Vec<Step>,
    passed: Option<Passed>,
}

impl<'a> Drawing<'a> {
    /// The list of a number, up to so many steps.
    pub fn new(
        alloc: Global,
        sets: &'a Sets,
        number: u64,
        most: usize,
    ) -> Result<Drawing<'a>, Fail> {
        let mut rng = Pcg32::new(number, 54);
        let players = [
            Player::draw(&mut rng),
            Player::draw(&mut rng),
            Player::draw(&mut rng),
            Player::draw(&mut rng),
        ];
        let mut drawing = Drawing {
            alloc,
            sets,
            rng,
            players,
            opened: 0,
            steps: Vec::new(alloc),
            passed: None,
        };
        drawing.fill(most)?;
        Ok(drawing)
    }

    /// The steps, which it has no more.
    pub fn take_steps(&mut self) -> Vec<Step> {
        mem::replace(&mut self.steps, Vec::new(self.alloc))
    }

    /// The first commit of a call that a switch passed.
    pub fn passed(&self) -> Option<Passed> {
        self.passed
    }

    /// The set that a session switches to.
    pub fn set_of(&self, session: usize) -> Result<ParamSet, Fail> {
        for (own, player) in SESSIONS.iter().zip(self.players.iter()) {
            if *own == session {
                return self.sets.copy_of(player.set);
            }
        }
        Err(Fail::new("no session"))
    }

    // The steps: mostly the opening at once, and then those of the sessions.
    fn fill(&mut self, most: usize) -> Result<(), Fail> {
        let whole = self.rng.random_range(60usize..=100);
        if self.rng.random_ratio(2, 3) {
            self.opened = OPENING.len();
            self.ask_all(SESSIONS[0], OPENING)?;
        }
        for _ in 0..whole {
            if self.steps.len() >= most {
                return Ok(());
            }
            self.draw_step()?;
        }
        self.ask_all(LAST_SESSION, CLOSING)
    }

    fn ask_all(&mut self, session: usize, lines: &[&str]) -> Result<(), Fail> {
        for line in lines {
            let deed = Deed::Begin(command(line)?);
            self.steps.push(Step { session, deed })?;
        }
        Ok(())
    }

    // The next command: one of the opening while some are left, or any.
    fn draw_command(&mut self) -> Result<Deed, Fail> {
        if let Some(line) = OPENING.get(self.opened) {
            if self.rng.random_ratio(2, 3) {
                self.opened += 1;
                return Ok(Deed::Begin(command(line)?));
            }
        }
        let line = line(self.alloc, &mut self.rng)?;
        Ok(Deed::Begin(command(line.as_str())?))
    }

    // What a session does in a turn.
    fn deed(&mut self, turn: Turn, set: Choice) -> Result<Deed, Fail> {
        Ok(match turn {
            Turn::Begin if self.rng.random_ratio(1, 10) => Deed::Gather(self.sets.copy_of(set)?),
            Turn::Begin => self.draw_command()?,
            Turn::Look => Deed::Look,
            Turn::Mark => Deed::Mark,
            Turn::Apply => Deed::Apply,
            Turn::Commit | Turn::Switch => Deed::Commit,
            Turn::Back => Deed::Back,
            Turn::End => Deed::End,
            Turn::Prepare => Deed::Prepare(self.rng.random_range(0usize..5)),
        })
    }

    // One step of one of the sessions: its next one, or one time in six any.
    fn draw_step(&mut self) -> Result<(), Fail> {
        let place = self.rng.random_range(0usize..4);
        let player = self.players[place];
        let session = SESSIONS[place];
        if self.rng.random_ratio(1, 6) {
            let turn = Turn::draw(&mut self.rng);
            let deed = self.deed(turn, player.set)?;
            self.steps.push(Step { session, deed })?;
            return Ok(());
        }
        let deed = self.deed(player.turn, player.set)?;
        self.players[place].turn = player.turn.next(&mut self.rng, &deed);
        self.steps.push(Step { session, deed })?;
        self.watch(place, player);
        Ok(())
    }

    // Takes down which calls a switch passes, and the first commit of such a call.
    fn watch(&mut self, place: usize, player: Player)
        requires { place < 4 }
    {
        match player.turn {
            Turn::Look => {
                self.players[place].looked = true;
                self.players[place].passed = false;
            }
            Turn::Switch => self.pass_all(),
            Turn::Commit => {
                if player.passed && self.passed.is_none() {
                    self.passed = Some(Passed {
                        session: SESSIONS[place],
                        steps: self.steps.len(),
                    });
                }
                self.players[place].looked = false;
                self.players[place].passed = false;
            }
            _ => {}
        }
    }

    fn pass_all(&mut self) {
        for place in 0..4 {
            self.players[place].passed = self.players[place].looked;
        }
    }
}
