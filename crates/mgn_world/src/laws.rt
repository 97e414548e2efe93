ghost use Rattle.std.specs.Prelude.{◌≡◌, ◌+◌, ◌<◌, ◌≤◌, ◌⊎◌, ℕ, suc, Bool, true, false, None, Some, List};
ghost use Rattle.mgn_params.specs.Shelves.{set_at};
ghost use Rattle.mgn_params.specs.Tables.{Tables};
ghost use Rattle.mgn_machine.specs.declared.command.Command.{Command};
ghost use Rattle.mgn_machine.specs.declared.reply.Refusal.{Refusal};
ghost use Rattle.mgn_machine.specs.declared.reply.Reply.TheVariants.{Refused};
ghost use Rattle.mgn_machine.specs.declared.request.Request.TheVariants.{Do};
ghost use Rattle.mgn_machine.specs.Step.{step};
ghost use Rattle.mgn_plan.specs.Plans.{plan_of};
ghost use Rattle.mgn_world.specs.Claims.{HasPlan, IsAmong, IsIn, IsReached, IsReplayed, KeepsSets, IsAtRest, Switches, before_close, shown_now};
ghost use Rattle.mgn_world.specs.declared.phases.Call.{Call};
ghost use Rattle.mgn_world.specs.declared.phases.Deed.TheVariants.{Commit};
ghost use Rattle.mgn_world.specs.declared.phases.Phase.TheVariants.{Applied, Ended, Failed};
ghost use Rattle.mgn_world.specs.declared.phases.Step.{Step};
ghost use Rattle.mgn_world.specs.Phases.{View};
ghost use Rattle.mgn_world.specs.World.{World, are_stale, desk_at, in_force, is_apart, is_full, lock_at, next, opening, phase_at, placed, plan_units, run, units_of};

/// A law, and no work: after every list of steps of any sessions, however they interleave, the history is legal and the
/// state is its replay by the machine of one thread. So each reply, with its figures and totals, is that of the machine
/// at its place.
pub fn every_list()
    ensures replay { (set : Tables) (steps : List Step) → IsReplayed (run (opening set) steps) }
{}

/// A law, and no work: where no session holds a unit, its desk is empty or has the unit's nets.
pub fn free_unit_rests()
    ensures { (w : World) (u : ℕ) → IsReached w → lock_at w u ≡ None → IsAtRest w.sets w.state.accounts u (desk_at w u) }
{}

/// A law, and no work: from the Apply of a call to its done Commit or its Back, the desk of each unit of its plan has
/// the unit's nets changed by exactly the plan; and the plan is what the command changes under the set that was looked
/// at, but for the end of the day.
pub fn applied_desks_have_the_plan()
    ensures applied { (w : World) (p u : ℕ) (k : Call) (l : View)
        → IsReached w → phase_at w p ≡ Applied k l → IsAmong u (plan_units l.plan)
        → HasPlan w.sets w.state.accounts l u (desk_at w u) }
    ensures failed { (w : World) (p u : ℕ) (k : Call) (l : View) (again : Bool)
        → IsReached w → phase_at w p ≡ Failed k l again → IsAmong u (plan_units l.plan)
        → HasPlan w.sets w.state.accounts l u (desk_at w u) }
    ensures plan { (w : World) (p : ℕ) (k : Call) (l : View)
        → IsReached w → phase_at w p ≡ Applied k l
        → plan_of (set_at w.sets l.version) (before_close w.state) k.command ≡ l.plan }
{}

/// A law, and no work: the desks of an applied call that is not stale fit what its command changes at this moment, in
/// every world. So no commit is refused for desks that do not fit.
pub fn never_apart()
    ensures { (w : World) (p : ℕ) (k : Call) (l : View)
        → IsReached w → phase_at w p ≡ Applied k l → are_stale w.state.version w.desks l.seen ≡ false
        → is_apart w (plan_of (in_force w) w.state k.command) ≡ false }
{}

/// A law, and no work: the commit of an applied call is one step of the machine, unless the history is full or another
/// set came into force since the call looked.
pub fn a_commit_is_one_step()
    ensures { (w : World) (p : ℕ) (k : Call) (l : View)
        → IsReached w → phase_at w p ≡ Applied k l → is_full w ≡ false
        → are_stale w.state.version w.desks l.seen ≡ false
        → next w record { session = suc p; deed = Commit } ≡ placed w p k l (step w.sets w.state (Do k.command)) }
{}

/// A law, and no work: a commit that is done leaves the desks of its plan with the nets of their units as they are
/// then, under the set in force.
pub fn done_commit_shows_the_nets()
    ensures { (w : World) (p u : ℕ) (k m : Call) (l : View)
        → IsReached w → phase_at w p ≡ Applied k l → IsAmong u (plan_units l.plan)
        → phase_at (next w record { session = suc p; deed = Commit }) p ≡ Ended m
        → desk_at (next w record { session = suc p; deed = Commit }) u
        ≡ Some (shown_now (next w record { session = suc p; deed = Commit }) u) }
{}

/// A law, and no work: where a commit was stale, another set came into force since the call looked.
pub fn stale_call_was_passed()
    ensures { (w : World) (p : ℕ) (k : Call) (l : View)
        → IsReached w → phase_at w p ≡ Failed k l true → l.version < w.state.version }
{}

/// A law, and no work: a call looks at most once more than sets came into force since its Begin.
pub fn looks_are_few()
    ensures { (w : World) (p : ℕ) (k : Call)
        → IsReached w → IsIn w p k → k.looks + k.began ≤ w.state.version + 1 }
{}

/// A law, and no work: a session holds the units of the command of its call and no others, and no unit has two holders.
pub fn a_unit_has_one_holder()
    ensures holds { (w : World) (p u : ℕ) (k : Call)
        → IsReached w → IsIn w p k → IsAmong u (units_of w.state k.command) → lock_at w u ≡ Some p }
    ensures no_others { (w : World) (p u : ℕ)
        → IsReached w → lock_at w u ≡ Some p
        → (k : Call) × (IsIn w p k × IsAmong u (units_of w.state k.command)) }
    ensures one { (w : World) (p q u : ℕ) (k m : Call)
        → IsReached w → IsIn w p k → IsIn w q m → IsAmong u (units_of w.state k.command)
        → IsAmong u (units_of w.state m.command) → p ≡ q }
{}

/// A law, and no work: a command that is refused changes no state.
pub fn refused_changes_nothing()
    ensures { (w : World) (c : Command) (why : Refusal)
        → IsReached w → (step w.sets w.state (Do c)).1 ≡ Refused why → (step w.sets w.state (Do c)).0 ≡ w.state }
{}

/// A law, and no work: a step leaves the set in force, or puts another one in force for all units at once, in which
/// nothing else of the state changes. So no two units are ever shown under two sets.
pub fn a_switch_is_one_step()
    ensures { (w : World) (e : Step) → KeepsSets w (next w e) ⊎ Switches w (next w e) }
{}
