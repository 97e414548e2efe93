//! A list of steps worked out.

ghost use Rattle.std.specs.Prelude.{◌≡◌, pos, None, Some, [], ◌∷◌, length, map, replicate, true, false};
ghost use Rattle.mgn_machine.specs.declared.reply.Refusal.TheVariants.{NoRoom};
ghost use Rattle.mgn_machine.specs.declared.reply.Reply.TheVariants.{Done, NewSet, Refused};
ghost use Rattle.mgn_world.specs.declared.phases.Phase.TheVariants.{Failed, Idle, Looked};
ghost use Rattle.mgn_world.specs.World.{lock_at, opening, phase_at, run};
ghost use Rattle.world_laws.specs.Example.{call, looked_again, over, refused, set_of, stale, view};

/// A hold of 2 contracts with 600 cents posted is applied under a set in which it costs 600. A set in which it costs
/// 602 comes into force: the commit is stale and answers nothing, the call keeps its unit and looks again, and is
/// refused for want of room. Its desk is as before, of the new version, and its unit is free.
pub fn a_set_passes_a_hold()
    ensures stale { (phase_at (run (opening (set_of 300)) stale) 0 ≡ Failed (call 0 1) (view 0) true)
        × (length (run (opening (set_of 300)) stale).history ≡ 4)
        × (lock_at (run (opening (set_of 300)) stale) 0 ≡ Some 0) }
    ensures again { phase_at (run (opening (set_of 300)) looked_again) 0 ≡ Looked (call 0 2) (view 1) }
    ensures refused { phase_at (run (opening (set_of 300)) refused) 0 ≡ Failed (call 0 2) (view 1) false }
    ensures over { let w = run (opening (set_of 300)) over in
        (w.phases ≡ replicate 16 Idle) × (w.locks ≡ None ∷ [])
        × (map (λ e. e.reply) w.history
        ≡ Done ∷ Done ∷ Done ∷ NewSet record { version = 1; on_call = 0 } ∷ Refused NoRoom ∷ [])
        × (map (λ e. e.session) w.history ≡ 1 ∷ 1 ∷ 1 ∷ 2 ∷ 1 ∷ [])
        × (w.desks ≡ Some record {
          version = 1;
          nets = record { lots = pos 0 ∷ []; buys = pos 0 ∷ []; sales = pos 0 ∷ []; all = pos 0 ∷ [] };
        } ∷ []) }
{}
