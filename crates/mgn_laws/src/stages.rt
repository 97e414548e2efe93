//! The stages of intracommodity spreads, over all stages of a commodity.

ghost use Rattle.std.specs.Prelude.{◌≡◌, ◌+◌, ◌<◌, ◌≤◌, length, slice_index};
ghost use Rattle.mgn_laws.specs.Turns.{charge_at, left_at, stages_in, starts_in, use_at};
ghost use Rattle.mgn_num.specs.Signed.{sum_below};
ghost use Rattle.mgn_span.specs.Words.{long_delta, short_delta, used_by};
ghost use Rattle.mgn_span.specs.Positions.{positions};
ghost use Rattle.mgn_span.specs.Requirement.{intra_charge};
ghost use Rattle.mgn_span.specs.Stages.{long_leg, short_leg};

use mgn_params::ParamSet;

/// What a leg has left when a stage's turn comes is its start less what all earlier stages used of it.
pub fn leaves_start_less_earlier_uses(
    set: &ParamSet,
    nets: &[i64],
    commodity: usize,
    leg: usize,
    stage: usize,
)
    ensures { let starts = starts_in set.now nets.now commodity in
        let stages = stages_in set.now commodity in
        slice_index (left_at starts stages stage) leg + sum_below (use_at starts stages leg) stage ≡ slice_index starts leg }
{
    set.limits();
}

/// What the stages charge is the sum of what each charges in its turn.
pub fn charges_stage_by_stage(set: &ParamSet, nets: &[i64], commodity: usize)
    ensures { let starts = starts_in set.now nets.now commodity in
        let stages = stages_in set.now commodity in
        intra_charge set.now (positions set.now.contracts nets.now) commodity ≡ sum_below (charge_at starts stages) (length stages) }
{}

/// What the stages use of a leg together, on which the spot month charge stands, is the sum of what each uses in its
/// turn.
pub fn uses_stage_by_stage(set: &ParamSet, nets: &[i64], commodity: usize, leg: usize)
    ensures { let starts = starts_in set.now nets.now commodity in
        let stages = stages_in set.now commodity in
        used_by starts stages leg ≡ sum_below (use_at starts stages leg) (length stages) }
{}

/// What the stages of a tier use together never exceeds its long delta on the long leg, and its short delta on the
/// short one.
pub fn uses_within_deltas(set: &ParamSet, nets: &[i64], commodity: usize, tier: usize)
    requires { tier < 8 }
    ensures long { used_by (starts_in set.now nets.now commodity) (stages_in set.now commodity) (long_leg tier)
        ≤ long_delta set.now.months (positions set.now.contracts nets.now) commodity tier }
    ensures short { used_by (starts_in set.now nets.now commodity) (stages_in set.now commodity) (short_leg tier)
        ≤ short_delta set.now.months (positions set.now.contracts nets.now) commodity tier }
{
    set.limits();
}
