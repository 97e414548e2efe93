//! Scenario totals, scan risk and the active scenario.

ghost use Rattle.std.specs.Prelude.{◌≡◌, ◌≤ℤ◌, neg_ℤ};
ghost use Rattle.mgn_laws.specs.Negated.{negated};
ghost use Rattle.mgn_laws.specs.Worst.{worst_cases};
ghost use Rattle.mgn_span.specs.Positions.{positions};
ghost use Rattle.mgn_span.specs.Requirement.{scan_of};
ghost use Rattle.mgn_span.specs.Scan.{IsActive, active, scenario_total, value_at};

use mgn_params::ParamSet;

/// The scan risk of a commodity never exceeds what its positions could lose at worst, each alone.
pub fn scans_within_worst_cases(set: &ParamSet, nets: &[i64], commodity: usize)
    ensures { scan_of (positions set.now.contracts nets.now) commodity ≤ℤ worst_cases commodity (positions set.now.contracts nets.now) }
{}

/// The active scenario is the lowest-numbered of the 16 with the largest total.
pub fn activates_lowest_largest(totals: &[i64; 16])
    ensures { IsActive (value_at totals.now) (active (value_at totals.now)) }
{}

/// Where every position is negated, long for short, the total of each scenario changes its sign: a loss is the
/// same gain.
pub fn negated_positions_negate_totals(
    set: &ParamSet,
    nets: &[i64],
    commodity: usize,
    scenario: usize,
)
    ensures { scenario_total commodity (positions set.now.contracts (negated nets.now)) scenario
        ≡ neg_ℤ (scenario_total commodity (positions set.now.contracts nets.now) scenario) }
{}
