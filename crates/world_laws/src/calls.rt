//! What the steps of a call do.

ghost use Rattle.std.specs.Prelude.{◌≡◌, ◌≢◌, ◌+◌, ◌<◌, ◌⊎◌, ℕ, false, true, Some, [], length, map};
ghost use Rattle.mgn_machine.specs.declared.command.Command.{Command};
ghost use Rattle.mgn_machine.specs.declared.reply.Reply.TheVariants.{Done};
ghost use Rattle.mgn_machine.specs.declared.request.Request.TheVariants.{Do};
ghost use Rattle.mgn_machine.specs.Step.{step};
ghost use Rattle.mgn_plan.specs.declared.plans.Plan.{Plan};
ghost use Rattle.mgn_plan.specs.declared.plans.Plan.TheVariants.{Nothing};
ghost use Rattle.mgn_plan.specs.Plans.{plan_of};
ghost use Rattle.mgn_world.specs.Claims.{IsAmong, IsReached, IsAtRest};
ghost use Rattle.mgn_world.specs.declared.phases.Call.{Call};
ghost use Rattle.mgn_world.specs.declared.phases.Deed.{Deed};
ghost use Rattle.mgn_world.specs.declared.phases.Deed.TheVariants.{Apply, Back, Begin, Commit, End, Look, Mark};
ghost use Rattle.mgn_world.specs.declared.phases.Phase.TheVariants.{Applied, Ended, Failed, Held, Idle, Looked};
ghost use Rattle.mgn_world.specs.Phases.{View};
ghost use Rattle.mgn_world.specs.World.{World, desk_at, in_force, lock_at, next, phase_at, plan_units, unit_nets, units_of};
ghost use Rattle.world_laws.specs.Calls.{AppliesPlan, AreFree, Commits, IsMissingOne, MarksOne, Takes, accounts_of, is_next, marked_under};
ghost use Rattle.world_laws.specs.Moves.{ComesTo, Enters, Frees, KeepsBook, KeepsOthers, step_of};

/// A step that is not the next one of its session's call changes nothing.
pub fn a_step_out_of_turn_changes_nothing()
    ensures { (w : World) (p : ℕ) (d : Deed) → is_next (phase_at w p) d ≡ false → next w (step_of p d) ≡ w }
{}

/// A step leaves the phases of all other sessions, what these hold, and the desk of each unit that its own does not
/// hold.
pub fn a_step_leaves_others_alone()
    ensures phases { (w : World) (p : ℕ) (d : Deed) → KeepsOthers p w (next w (step_of p d)) }
    ensures holders { (w : World) (p u q : ℕ) (d : Deed)
        → q ≢ p → lock_at w u ≡ Some q → lock_at (next w (step_of p d)) u ≡ Some q }
    ensures desks { (w : World) (p u : ℕ) (d : Deed)
        → IsReached w → lock_at w u ≢ Some p → desk_at (next w (step_of p d)) u ≡ desk_at w u }
{}

/// Begin: where its accounts are there and their units free, a command begins, and its session holds just these units.
/// The call has the version in force, and no look.
pub fn begin_takes_the_units()
    ensures { (w : World) (p : ℕ) (c : Command)
        → IsReached w → p < 16 → phase_at w p ≡ Idle → accounts_of c ≢ [] → AreFree w (accounts_of c)
        → Takes p c w (next w (step_of p (Begin c))) }
{}

/// Begin: where a session holds one of the units, nothing changes.
pub fn begin_waits_for_its_units()
    ensures { (w : World) (p u q : ℕ) (c : Command)
        → phase_at w p ≡ Idle → IsAmong u (units_of w.state c) → lock_at w u ≡ Some q
        → next w (step_of p (Begin c)) ≡ w }
{}

/// Begin: a command without units, or of which an account is not there, is one step of the machine, unless the history
/// is full; its session stays idle.
pub fn begin_without_units_commits()
    ensures { (w : World) (p : ℕ) (c : Command)
        → IsReached w → p < 16 → phase_at w p ≡ Idle → length w.history < 1000000
        → (accounts_of c ≡ []) ⊎ IsMissingOne w.state (accounts_of c)
        → Commits p (Do c) Idle w (next w (step_of p (Begin c))) }
{}

/// Look: takes the version in force, what the command then changes, and the nets of these units; it is counted.
pub fn look_takes_what_the_command_changes()
    ensures { (w : World) (p : ℕ) (k : Call) (plan : Plan)
        → phase_at w p ≡ Held k → plan_of (in_force w) w.state k.command ≡ plan → plan ≢ Nothing
        → ComesTo p (Looked record { command = k.command; began = k.began; looks = k.looks + 1 } record {
          version = w.state.version;
          plan = plan;
          seen = map (λ u. record { unit = u; nets = unit_nets (in_force w) w.state.accounts u }) (plan_units plan);
        }) w (next w (step_of p Look)) }
{}

/// Look: a command without a plan is one step of the machine, unless the history is full, and its call is over.
pub fn look_without_a_plan_commits()
    ensures enters { (w : World) (p : ℕ) (k : Call)
        → IsReached w → phase_at w p ≡ Held k → plan_of (in_force w) w.state k.command ≡ Nothing
        → length w.history < 1000000 → Enters p (Do k.command) w (next w (step_of p Look)) }
    ensures over { (w : World) (p : ℕ) (k : Call)
        → phase_at w p ≡ Held k → plan_of (in_force w) w.state k.command ≡ Nothing
        → Frees p w (next w (step_of p Look)) }
{}

/// Mark: sets one desk of the plan that is not of the looked version to it, with its unit's nets, and nothing else;
/// where there is no such desk it changes nothing.
pub fn mark_sets_one_desk()
    ensures { (w : World) (p : ℕ) (k : Call) (l : View)
        → IsReached w → phase_at w p ≡ Looked k l → MarksOne p l w (next w (step_of p Mark)) }
{}

/// Apply: where the desks of the plan's units are of the looked version, the call is applied, and nothing changes but
/// its phase and these desks.
pub fn apply_moves_desks_of_the_looked_version()
    ensures { (w : World) (p : ℕ) (k : Call) (l : View)
        → IsReached w → phase_at w p ≡ Looked k l
        → ((u : ℕ) → IsAmong u (plan_units l.plan) → marked_under (desk_at w u) ≡ Some l.version)
        → AppliesPlan p k l w (next w (step_of p Apply)) }
{}

/// Commit of an applied call: with a full history, or where another set came into force since the call looked, it comes
/// to nothing, and the latter is to look again; else it is one step of the machine.
pub fn commit_has_four_outcomes()
    ensures full { (w : World) (p : ℕ) (k : Call) (l : View)
        → phase_at w p ≡ Applied k l → length w.history ≡ 1000000
        → ComesTo p (Failed k l false) w (next w (step_of p Commit)) }
    ensures stale { (w : World) (p : ℕ) (k : Call) (l : View)
        → IsReached w → phase_at w p ≡ Applied k l → length w.history < 1000000 → l.version < w.state.version
        → ComesTo p (Failed k l true) w (next w (step_of p Commit)) }
    ensures done { (w : World) (p : ℕ) (k : Call) (l : View)
        → IsReached w → phase_at w p ≡ Applied k l → length w.history < 1000000 → l.version ≡ w.state.version
        → (step w.sets w.state (Do k.command)).1 ≡ Done
        → Commits p (Do k.command) (Ended k) w (next w (step_of p Commit)) }
    ensures refused { (w : World) (p : ℕ) (k : Call) (l : View)
        → IsReached w → phase_at w p ≡ Applied k l → length w.history < 1000000 → l.version ≡ w.state.version
        → (step w.sets w.state (Do k.command)).1 ≢ Done
        → Commits p (Do k.command) (Failed k l false) w (next w (step_of p Commit)) }
{}

/// Back: a stale call holds its units as after its Begin, and looks again; any other that failed comes to its end.
pub fn back_leads_to_look_or_end()
    ensures again { (w : World) (p : ℕ) (k : Call) (l : View)
        → phase_at w p ≡ Failed k l true → phase_at (next w (step_of p Back)) p ≡ Held k }
    ensures end { (w : World) (p : ℕ) (k : Call) (l : View)
        → phase_at w p ≡ Failed k l false → phase_at (next w (step_of p Back)) p ≡ Ended k }
    ensures book { (w : World) (p : ℕ) → KeepsBook w (next w (step_of p Back)) }
    ensures holders { (w : World) (p u : ℕ) → lock_at (next w (step_of p Back)) u ≡ lock_at w u }
{}

/// End: just the units that the session held are free, and it is idle.
pub fn end_frees_the_units()
    ensures frees { (w : World) (p : ℕ) (k : Call)
        → phase_at w p ≡ Ended k → Frees p w (next w (step_of p End)) }
    ensures book { (w : World) (p : ℕ) → KeepsBook w (next w (step_of p End)) }
{}

/// The desk of a unit that a call holds without its plan applied is empty, or has the unit's nets.
pub fn desks_rest_before_apply_and_after_back()
    ensures held { (w : World) (p u : ℕ) (k : Call)
        → IsReached w → phase_at w p ≡ Held k → lock_at w u ≡ Some p → IsAtRest w.sets w.state.accounts u (desk_at w u) }
    ensures looked { (w : World) (p u : ℕ) (k : Call) (l : View)
        → IsReached w → phase_at w p ≡ Looked k l → lock_at w u ≡ Some p
        → IsAtRest w.sets w.state.accounts u (desk_at w u) }
    ensures ended { (w : World) (p u : ℕ) (k : Call)
        → IsReached w → phase_at w p ≡ Ended k → lock_at w u ≡ Some p → IsAtRest w.sets w.state.accounts u (desk_at w u) }
{}
