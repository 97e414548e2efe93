//! What steps add to the history.

ghost use Rattle.std.specs.Prelude.{◌≡◌, ◌<◌, ◌≤◌, ◌⊎◌, ℕ, suc, List, length};
ghost use Rattle.mgn_machine.specs.History.{calls};
ghost use Rattle.mgn_world.specs.Claims.{IsReached};
ghost use Rattle.mgn_world.specs.declared.phases.Deed.{Deed};
ghost use Rattle.mgn_world.specs.declared.phases.Step.{Step};
ghost use Rattle.mgn_world.specs.World.{World, next, phase_at, run};
ghost use Rattle.world_laws.specs.Entries.{AddsOne, AnswersCall, IsAnswered, IsCurrent, StartsNone};
ghost use Rattle.world_laws.specs.Moves.{KeepsBook, step_of};

/// A step adds one entry at most, and that entry is of its own session.
pub fn a_step_adds_one_entry_at_most()
    ensures { (w : World) (e : Step) → ((next w e).history ≡ w.history) ⊎ AddsOne e.session w (next w e) }
{}

/// An entry is added only by a step that answers: a Begin without units, a Look without a plan, or the Commit of an
/// applied call or of a gathered set. The session's call is then answered.
pub fn entries_are_answers()
    ensures { (w : World) (p : ℕ) (d : Deed) → ((next w (step_of p d)).history ≡ w.history)
        ⊎ (AnswersCall w (phase_at w p) d × IsAnswered (phase_at (next w (step_of p d)) p)) }
{}

/// Only a full history takes nothing: a step that answers adds an entry, unless the history has 1,000,000 entries, or
/// another set came into force since an applied call looked. There are never more.
pub fn only_a_full_history_takes_nothing()
    ensures room { (w : World) (p : ℕ) (d : Deed)
        → IsReached w → p < 16 → AnswersCall w (phase_at w p) d → IsCurrent w (phase_at w p)
        → length w.history < 1000000 → AddsOne (suc p) w (next w (step_of p d)) }
    ensures full { (w : World) (p : ℕ) (d : Deed)
        → length w.history ≡ 1000000 → KeepsBook w (next w (step_of p d)) }
    ensures few { (w : World) → IsReached w → length w.history ≤ 1000000 }
{}

/// A call is answered once: after a step that added an entry no steps add another entry of its session, until it begins
/// a call or gathers again.
pub fn a_call_is_answered_once()
    ensures { (w : World) (e : Step) (es : List Step)
        → calls e.session w.history < calls e.session (next w e).history → StartsNone e.session es
        → calls e.session (run (next w e) es).history ≡ calls e.session (next w e).history }
{}
