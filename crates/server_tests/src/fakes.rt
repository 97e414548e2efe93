//! An executor that refuses, and a report that keeps what it was told.

ghost use Rattle.std.specs.Prelude.{◌≡◌, ◌⊎◌, None};
ghost use Rattle.mgn_machine.specs.declared.reply.Refusal.TheVariants.{Full, Broken};
ghost use Rattle.mgn_machine.specs.declared.reply.Reply.TheVariants.{Refused};

use mgn_machine::{Answer, Command, Refusal};
use mgn_params::ParamSet;
use mgn_server::{ConnectionFault, FaultReport};
use mgn_session::Exec;

/// Answers each command with `FULL` or with `BROKEN`, which have no place, and counts its calls.
#[derive(Drop)]
pub struct Refusing {
    pub is_full: bool,
    pub calls: u64,
}

impl Refusing {
    fn answer(&mut self) -> Answer
        ensures place { result.place ≡ None }
        ensures reply { (result.reply ≡ Refused Full) ⊎ (result.reply ≡ Refused Broken) }
    {
        self.calls = self.calls.saturating_add(1);
        if self.is_full {
            Answer::refused(Refusal::Full)
        } else {
            Answer::refused(Refusal::Broken)
        }
    }
}

impl Exec for Refusing {
    ghost use Rattle.std.specs.Prelude.{[]};

    ghost entries = { λ _. [] };

    ghost is_full = { λ _. Unit {0} };

    ghost is_broken = { λ _. Unit {0} };

    ghost does = { λ _ _ _ _. Unit {0} };

    fn exec(&mut self, _command: &Command) -> Answer {
        self.answer()
    }

    fn switch(&mut self, _set: ParamSet) -> Answer {
        self.answer()
    }
}

/// How many faults were told, and the last of them.
#[derive(Drop)]
pub struct Told {
    pub count: u64,
    pub last: Option<(usize, ConnectionFault)>,
}

impl FaultReport for Told {
    ghost tells = { λ _ _ _ _. Unit {0} };

    fn tell(&mut self, number: usize, fault: ConnectionFault) {
        self.count = self.count.saturating_add(1);
        self.last = Some((number, fault));
    }
}
