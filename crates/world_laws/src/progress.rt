//! A session comes to its end by steps of its own.

ghost use Rattle.std.specs.Prelude.{◌≡◌, ◌≢◌, ◌≤◌, ℕ, suc, Some, List, length};
ghost use Rattle.mgn_world.specs.Claims.{IsReached};
ghost use Rattle.mgn_world.specs.declared.phases.Phase.TheVariants.{Idle};
ghost use Rattle.mgn_world.specs.declared.phases.Step.{Step};
ghost use Rattle.mgn_world.specs.World.{World, lock_at, phase_at, run};
ghost use Rattle.world_laws.specs.Ways.{AreOf, way_out};

/// The same twelve steps of a session leave it idle, wherever it was in its call and whatever the others did.
pub fn twelve_steps_end_a_call()
    ensures { (w : World) (p : ℕ) → IsReached w → phase_at (run w (way_out p)) p ≡ Idle }
{}

/// So from every world that steps lead to there are at most twelve steps, all of the session, after which it is idle
/// and holds no unit.
pub fn a_session_can_come_to_its_end()
    ensures { (w : World) (p : ℕ) → IsReached w
        → (es : List Step) × (AreOf (suc p) es × (length es ≤ 12) × (phase_at (run w es) p ≡ Idle)
        × ((u : ℕ) → lock_at (run w es) u ≢ Some p)) }
{}
