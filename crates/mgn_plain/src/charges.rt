ghost use Rattle.std.specs.Prelude.{◌≡◌, ℕ, ◌*◌, ◌<◌, ◌≤◌, ◌^◌, pos, length, slice_index, unsigned_abs};
ghost use Rattle.mgn_span.specs.Sizes.{IsStart};
ghost use Rattle.mgn_span.specs.Spot.{spot_charge_from, spot_of};
ghost use Rattle.mgn_span.specs.Stages.{charges_of, left_by, stages_of};

use mgn_num::Cents;
use mgn_params::ParamSet;
use mgn_span::spot::spot_charge_of;
use mgn_span::spreads::form_spreads;

// What spreading and the spot month charge a commodity.
#[derive(Clone, Copy)]
pub(crate) struct Charges {
    pub intra: Cents,
    pub spot: Cents,
}

// The charges of a commodity by what its legs start with.
pub(crate) fn charges_by(set: &ParamSet, starts: &[u64; 16], commodity: usize) -> Charges
    requires commodity { commodity < length set.now.commodities }
    requires starts { (k : ℕ) → IsStart (slice_index starts.now k) }
    ensures intra { result.intra ≡ pos (charges_of starts.now (stages_of set.now.spreads commodity)) }
    ensures spot { result.spot ≡ pos (spot_charge_from starts.now (left_by starts.now (stages_of set.now.spreads commodity))
        (spot_of set.now.spots commodity)) }
    ensures small_intra { unsigned_abs result.intra ≤ 2 * 10 ^ 27 }
    ensures small_spot { unsigned_abs result.spot ≤ 10 ^ 26 }
{
    set.limits();
    let mut left = *starts;
    let intra = form_spreads(&mut left, set.spreads_in(commodity));
    let spot = spot_charge_of(starts, &left, set.spot_in(commodity));
    Charges {
        intra: Cents::new(intra as i128),
        spot: Cents::new(spot as i128),
    }
}
