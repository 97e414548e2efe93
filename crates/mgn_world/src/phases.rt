//! Where a session is in its call, and the steps that it makes.

ghost use Rattle.std.specs.Prelude.{◌≡◌, ◌<◌, false, if◌then◌else◌, IfSome, None, Some, length, slice_index_or, slice_set};
ghost use Rattle.mgn_world.specs.declared.phases.Call.{Call};
ghost use Rattle.mgn_world.specs.declared.phases.Phase.TheVariants.{Applied, Ended, Failed, Gathered, Idle, Looked};
ghost use Rattle.mgn_world.specs.Phases.{Gathering as GatheringValue, View};

use mgn_machine::Command;
use mgn_params::{ParamSet, Version};
use mgn_plan::Plan;
use mgn_unit::{CopiedNets, PreparedUnit};
use std::marker::Model;
use std::mem;

/// A call in progress.
#[derive(Clone, Copy)]
pub struct Call {
    /// What is asked.
    pub command: Command,
    /// The version in force at its Begin.
    pub began: Version,
    /// How often it looked.
    pub looks: u32,
}

/// A margin unit, and the nets of its portfolios as they were looked at.
#[derive(Drop)]
pub struct Seen {
    pub(crate) unit: usize,
    pub(crate) nets: CopiedNets,
}

/// What a call looked at: the version in force, what its command then changes, and the units of this plan, in order of
/// their numbers.
#[derive(Drop)]
pub struct View {
    pub(crate) version: Version,
    pub(crate) plan: Plan,
    pub(crate) seen: Vec<Seen>,
}

impl Model for View {
    ghost use Rattle.mgn_world.specs.Phases.{Gathering as GatheringValue, View};

    ghost Value = { View };

    ghost view = { λ v. record { version = v.version; plan = v.plan; seen = v.seen.items } };
}

/// What was gathered for a switch: the set, the version in force, the nets of all units, and what of these was worked
/// out under the set since.
#[derive(Drop)]
pub struct Gathering {
    pub(crate) set: ParamSet,
    pub(crate) version: Version,
    pub(crate) nets: Vec<CopiedNets>,
    pub(crate) prepared: Vec<Option<PreparedUnit>>,
}

impl Model for Gathering {
    ghost use Rattle.std.specs.Prelude.{is_some, map};
    ghost use Rattle.mgn_world.specs.Phases.{Gathering, IsGathering};

    ghost Value = { Gathering };

    ghost view = { λ g. record {
      set = g.set;
      version = g.version;
      nets = g.nets.items;
      prepared = map is_some g.prepared.items;
    } };

    ghost invariant = { λ g. IsGathering g.set g.nets.items g.prepared.items };
}

/// The last step of a session's call. A call that failed has Look as its next step after Back where it was stale, else
/// End.
#[derive(Drop)]
pub enum Phase {
    /// There is no call.
    Idle,
    /// The call holds its units.
    Held(Call),
    /// It has looked.
    Looked(Call, View),
    /// Its plan is applied to the desks of its units.
    Applied(Call, View),
    /// Its commit failed; it is to look again where that is said.
    Failed(Call, View, bool),
    /// It is done, or failed for good.
    Ended(Call),
    /// A switch is gathered.
    Gathered(Gathering),
}

impl Phase {
    // The phase of a call whose plan was applied after it looked.
    fn applied(self) -> Phase
        ensures { (k : Call) (l : View) → self ≡ Looked k l → result ≡ Applied k l }
    {
        match self {
            Phase::Looked(call, view) => Phase::Applied(call, view),
            other => other,
        }
    }

    // The phase of an applied call whose commit failed.
    fn failed(self, again: bool) -> Phase
        ensures { (k : Call) (l : View) → self ≡ Applied k l → result ≡ Failed k l again }
    {
        match self {
            Phase::Applied(call, view) => Phase::Failed(call, view, again),
            other => other,
        }
    }

    // The phase of an applied call whose commit was answered.
    fn settled(self, done: bool) -> Phase
        ensures { (k : Call) (l : View) → self ≡ Applied k l →
            result ≡ (if done then Ended k else Failed k l false) }
    {
        match self {
            Phase::Applied(call, view) => {
                if done {
                    Phase::Ended(call)
                } else {
                    Phase::Failed(call, view, false)
                }
            }
            other => other,
        }
    }
}

/// Puts a session in a phase.
pub(crate) fn set_phase(phases: &mut Vec<Phase>, place: usize, phase: Phase)
    requires { place < length phases.old.items }
    ensures { phases.new.items ≡ slice_set phases.old.items place phase }
{
    phases[place] = phase;
}

/// A session's call that has looked is applied.
pub(crate) fn set_applied(phases: &mut Vec<Phase>, place: usize)
    requires { place < length phases.old.items }
    ensures { (k : Call) (l : View) → slice_index_or phases.old.items place Idle ≡ Looked k l →
        phases.new.items ≡ slice_set phases.old.items place (Applied k l) }
{
    let phase = mem::replace(&mut phases[place], Phase::Idle);
    set_phase(phases, place, phase.applied());
}

/// The commit of a session's applied call failed.
pub(crate) fn set_failed(phases: &mut Vec<Phase>, place: usize, again: bool)
    requires { place < length phases.old.items }
    ensures { (k : Call) (l : View) → slice_index_or phases.old.items place Idle ≡ Applied k l →
        phases.new.items ≡ slice_set phases.old.items place (Failed k l again) }
{
    let phase = mem::replace(&mut phases[place], Phase::Idle);
    set_phase(phases, place, phase.failed(again));
}

/// The commit of a session's applied call was answered.
pub(crate) fn set_settled(phases: &mut Vec<Phase>, place: usize, done: bool)
    requires { place < length phases.old.items }
    ensures { (k : Call) (l : View) → slice_index_or phases.old.items place Idle ≡ Applied k l →
        phases.new.items ≡ slice_set phases.old.items place (if done then Ended k else Failed k l false) }
{
    let phase = mem::replace(&mut phases[place], Phase::Idle);
    set_phase(phases, place, phase.settled(done));
}

/// What a session has gathered, which it has no more.
pub(crate) fn take_gathering(phases: &mut Vec<Phase>, place: usize) -> Option<Gathering>
    requires { place < length phases.old.items }
    ensures taken { (g : GatheringValue) → slice_index_or phases.old.items place Idle ≡ Gathered g →
        (result ≡ Some g) × (phases.new.items ≡ slice_set phases.old.items place Idle) }
    ensures other { result ≡ None → phases.new.items ≡ phases.old.items }
    ensures found { IfSome result (λ g. slice_index_or phases.old.items place Idle ≡ Gathered g) }
{
    match mem::replace(&mut phases[place], Phase::Idle) {
        Phase::Gathered(gathering) => Some(gathering),
        other => {
            set_phase(phases, place, other);
            None
        }
    }
}

/// What a session does next.
#[derive(Drop)]
pub enum Deed {
    /// Begins a call.
    Begin(Command),
    /// Looks at what the command changes.
    Look,
    /// Marks a desk.
    Mark,
    /// Applies the plan to the desks.
    Apply,
    /// Commits the command, or the set.
    Commit,
    /// Takes the plan back from the desks.
    Back,
    /// Gives the units back.
    End,
    /// Begins a switch to a set with a copy of all nets.
    Gather(ParamSet),
    /// Works out what a unit requires under the gathered set.
    Prepare(usize),
}

/// A step of a session.
#[derive(Drop)]
pub struct Step {
    /// The session's number, 1 to 16. A step of any other does nothing.
    pub session: usize,
    /// What it does.
    pub deed: Deed,
}
