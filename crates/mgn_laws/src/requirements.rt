//! What a whole requirement comes to.

ghost use Rattle.std.specs.Prelude.{◌≡◌, ◌≤ℤ◌, pos};
ghost use Rattle.mgn_laws.specs.Absent.{HoldsNone, other_nets, without};
ghost use Rattle.mgn_span.specs.Positions.{AreFlat, positions};
ghost use Rattle.mgn_span.specs.Requirement.{credit, intra_charge, minimum, requirement, risk, scan_of, spot_charge};

use mgn_params::ParamSet;

/// A unit without positions owes nothing.
#[tactic(auto, using(mgn_span::proofs::FlatLemmas::requirement_flat))]
pub fn flat_owes_nothing(set: &ParamSet, nets: &[i64])
    requires { AreFlat nets.now }
    ensures { requirement set.now nets.now ≡ pos 0 }
{}

/// No requirement is negative.
pub fn owes_at_least_nothing(set: &ParamSet, nets: &[i64])
    ensures { pos 0 ≤ℤ requirement set.now nets.now }
{}

/// A commodity in which nothing is held has neither scan risk nor a charge, a credit or a minimum, and no risk.
pub fn adds_nothing_where_nothing_is_held(set: &ParamSet, nets: &[i64], commodity: usize)
    requires { HoldsNone (positions set.now.contracts nets.now) commodity }
    ensures scan { scan_of (positions set.now.contracts nets.now) commodity ≡ pos 0 }
    ensures intra { intra_charge set.now (positions set.now.contracts nets.now) commodity ≡ 0 }
    ensures spot { spot_charge set.now (positions set.now.contracts nets.now) commodity ≡ 0 }
    ensures credit { credit set.now (positions set.now.contracts nets.now) commodity ≡ 0 }
    ensures minimum { minimum set.now (positions set.now.contracts nets.now) commodity ≡ 0 }
    ensures risk { risk set.now (positions set.now.contracts nets.now) commodity ≡ pos 0 }
{
    set.limits();
}

/// The requirement is the same under the set without that commodity, with the nets of the other contracts.
pub fn requires_same_without_what_is_not_held(set: &ParamSet, nets: &[i64], commodity: usize)
    requires { HoldsNone (positions set.now.contracts nets.now) commodity }
    ensures { requirement (without commodity set.now) (other_nets commodity set.now nets.now) ≡ requirement set.now nets.now }
{
    set.limits();
}
