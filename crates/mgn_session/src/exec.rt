ghost use Rattle.std.specs.Prelude.{List};
ghost use Rattle.mgn_machine.specs.declared.entry.Item.{Item};
ghost use Rattle.mgn_machine.specs.declared.request.Request.TheVariants.{Do, Switch};
ghost use Rattle.mgn_session.specs.Session.{Call, Calls};

use mgn_machine::{Answer, Command};
use mgn_params::ParamSet;

/// Answers commands and switches to other sets. Contracts see the list of what was answered with a place, and what else a
/// call does.
///
/// What a call answers with a place is then the last of the list, with its place and reply. Where the answer has no
/// place, because memory could not be had, the history is full or the service is closed, the list is as it was.
pub trait Exec {
    ghost entries: { Self → List Item };

    // When its history may have no room.
    ghost is_full: { Self → Type 0 };

    // When it may be closed.
    ghost is_broken: { Self → Type 0 };

    // What else a call does.
    ghost does: { Call Self };

    /// Answers a command.
    fn exec(&mut self, command: &Command) -> Answer
        ensures { Calls entries is_full is_broken does self.old (Do command.now) result self.new };

    /// Answers a switch to a set.
    fn switch(&mut self, set: ParamSet) -> Answer
        ensures { Calls entries is_full is_broken does self.old (Switch set) result self.new };
}
