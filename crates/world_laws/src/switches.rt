//! What the steps of a switch do.

ghost use Rattle.std.specs.Prelude.{◌≡◌, ◌<◌, ℕ, false, length, map, replicate};
ghost use Rattle.std.specs.List.{range_with_len};
ghost use Rattle.mgn_params.specs.Tables.{Tables};
ghost use Rattle.mgn_machine.specs.declared.reply.Refusal.{Refusal};
ghost use Rattle.mgn_machine.specs.declared.reply.Reply.TheVariants.{Refused};
ghost use Rattle.mgn_machine.specs.declared.request.Request.TheVariants.{Switch};
ghost use Rattle.mgn_machine.specs.Step.{step};
ghost use Rattle.mgn_world.specs.Claims.{IsReached};
ghost use Rattle.mgn_world.specs.declared.phases.Deed.TheVariants.{Commit, Gather, Prepare};
ghost use Rattle.mgn_world.specs.declared.phases.Phase.TheVariants.{Gathered, Idle};
ghost use Rattle.mgn_world.specs.Phases.{Gathering};
ghost use Rattle.mgn_world.specs.World.{World, in_force, next, phase_at, unit_nets};
ghost use Rattle.world_laws.specs.Calls.{Commits};
ghost use Rattle.world_laws.specs.Moves.{ComesTo, step_of};

/// Gather: an idle session takes a set, the version in force and the nets of all units; nothing of it is worked out.
pub fn gather_copies_all_nets()
    ensures { (w : World) (p : ℕ) (set : Tables)
        → IsReached w → p < 16 → phase_at w p ≡ Idle
        → ComesTo p (Gathered record {
          set = set;
          version = w.state.version;
          nets = map (unit_nets (in_force w) w.state.accounts) (range_with_len 0 w.state.units);
          prepared = replicate w.state.units false;
        }) w (next w (step_of p (Gather set))) }
{}

/// Prepare: changes nothing but what of the gathered nets was worked out.
pub fn prepare_changes_what_is_worked_out()
    ensures { (w : World) (p u : ℕ) (g : Gathering)
        → phase_at w p ≡ Gathered g
        → (h : Gathering) × (ComesTo p (Gathered h) w (next w (step_of p (Prepare u)))
        × (h.set ≡ g.set) × (h.version ≡ g.version) × (h.nets ≡ g.nets)) }
{}

/// Commit of a gathered set: one step of the machine, unless the history is full; it always ends its call.
pub fn a_set_commits_once()
    ensures commits { (w : World) (p : ℕ) (g : Gathering)
        → IsReached w → phase_at w p ≡ Gathered g → length w.history < 1000000
        → Commits p (Switch g.set) Idle w (next w (step_of p Commit)) }
    ensures full { (w : World) (p : ℕ) (g : Gathering)
        → phase_at w p ≡ Gathered g → length w.history ≡ 1000000 → ComesTo p Idle w (next w (step_of p Commit)) }
{}

/// A set that is refused changes nothing of state and sets, and so no row: its entry alone is added.
pub fn a_refused_set_changes_nothing()
    ensures state { (w : World) (p : ℕ) (g : Gathering) (why : Refusal)
        → phase_at w p ≡ Gathered g → (step w.sets w.state (Switch g.set)).1 ≡ Refused why
        → (next w (step_of p Commit)).state ≡ w.state }
    ensures sets { (w : World) (p : ℕ) (g : Gathering) (why : Refusal)
        → phase_at w p ≡ Gathered g → (step w.sets w.state (Switch g.set)).1 ≡ Refused why
        → (next w (step_of p Commit)).sets ≡ w.sets }
{}
