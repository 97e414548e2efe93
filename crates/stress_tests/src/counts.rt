//! How often each kind of request was done.

use mgn_machine::{Command, Refusal, Reply};
use mgn_wire::Line;

/// How many requests of a kind were done, and how many orders there was no room for.
#[derive(Clone, Copy, Default, Debug)]
pub(crate) struct Counts {
    trades: u32,
    busts: u32,
    holds: u32,
    fills: u32,
    releases: u32,
    moves: u32,
    posts: u32,
    draws: u32,
    questions: u32,
    switches: u32,
    without_room: u32,
}

fn add_one(count: &mut u32) {
    *count = count.saturating_add(1);
}

impl Counts {
    fn add_done(&mut self, command: &Command) {
        match command {
            Command::Trade(_) => add_one(&mut self.trades),
            Command::Bust(_, _) => add_one(&mut self.busts),
            Command::Hold(_) => add_one(&mut self.holds),
            Command::Fill(_) => add_one(&mut self.fills),
            Command::Release(_, _) => add_one(&mut self.releases),
            Command::Transfer(_) => add_one(&mut self.moves),
            Command::Post(_, _, _) => add_one(&mut self.posts),
            Command::Draw(_, _, _) => add_one(&mut self.draws),
            _ => {}
        }
    }

    /// One more was answered so.
    pub(crate) fn add(&mut self, line: &Line, reply: &Reply) {
        match (line, reply) {
            (Line::Do(command), Reply::Done) => self.add_done(command),
            (Line::Do(Command::Hold(_)), Reply::Refused(Refusal::NoRoom)) => {
                add_one(&mut self.without_room)
            }
            (_, Reply::Figures(_) | Reply::Totals(_)) => add_one(&mut self.questions),
            (_, Reply::NewSet(_)) => add_one(&mut self.switches),
            _ => {}
        }
    }

    /// Whether each switch was done, and of all else many.
    pub(crate) fn are_many(&self) -> bool {
        let often = [
            self.trades,
            self.busts,
            self.holds,
            self.fills,
            self.releases,
            self.moves,
            self.posts,
            self.draws,
            self.questions,
            self.without_room,
        ];
        self.switches == 64 && often.iter().all(|count| 500 <= *count)
    }
}
