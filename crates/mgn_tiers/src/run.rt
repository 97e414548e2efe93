ghost use Rattle.std.specs.Prelude.{◌≡◌, ◌+◌, ◌*◌, ◌<◌, ◌≤◌, ◌^◌, slice_index, slice_set, IfSome};
ghost use Rattle.std.specs.List.{flat_map};
ghost use Rattle.mgn_span.specs.Sizes.{IsStart};
ghost use Rattle.mgn_span.specs.Stages.{stages_of_spread};
ghost use Rattle.mgn_span.specs.Words.{AreSpreads, IsSpot};
ghost use Rattle.mgn_tiers.specs.Runs.{run_from};

use mgn_params::{SpotCharge, Spread};
use mgn_span::spot::spot_charge_of;
use mgn_span::spreads::form_spreads;
use std::marker::Model;

/// What the legs of one commodity start with, and what its stages and its spot month charge by that. The set has the
/// spreads and the spot month charge.
#[derive(Clone, Copy)]
pub(crate) struct StageRun {
    starts: [u64; 16],
    charged: u128,
    spot_charged: u128,
}

impl Model for StageRun {
    ghost use Rattle.mgn_tiers.specs.Runs.{IsRun, Run};

    ghost Value = { Run };

    ghost view = { λ r. record { starts = r.starts; charged = r.charged; spot_charged = r.spot_charged } };

    ghost invariant = { λ r. IsRun (record { starts = r.starts; charged = r.charged; spot_charged = r.spot_charged }) };

    ghost inverse = { λ r. record { starts = r.starts; charged = r.charged; spot_charged = r.spot_charged } };
}

impl StageRun {
    /// Legs that start with nothing, and charges of 0.
    pub const NOTHING: StageRun = StageRun {
        starts: [0; 16],
        charged: 0,
        spot_charged: 0,
    };

    // Forms all stages of what the legs start with.
    fn form(&mut self, spreads: &[Spread], spot: Option<SpotCharge>)
        requires spreads { AreSpreads spreads.now }
        requires spot { IfSome spot IsSpot }
        ensures { self.new ≡ run_from self.old.starts (flat_map stages_of_spread spreads.now) spot }
    {
        let mut left = self.starts;
        let charged = form_spreads(&mut left, spreads);
        let spot_charged = spot_charge_of(&self.starts, &left, spot);
        self.charged = charged;
        self.spot_charged = spot_charged;
    }

    /// Changes what the two legs of a tier start with, and forms the stages again if that is something else. All of
    /// them: in nearly every commodity the first stages have legs of most tiers, and a stage that forms nothing costs
    /// next to nothing.
    pub fn change_tier(
        &mut self,
        tier: usize,
        long: u64,
        short: u64,
        spreads: &[Spread],
        spot: Option<SpotCharge>,
    )
        requires tier { tier < 8 }
        requires long { IsStart long }
        requires short { IsStart short }
        requires spreads { AreSpreads spreads.now }
        requires spot { IfSome spot IsSpot }
        requires formed { self.old ≡ run_from self.old.starts (flat_map stages_of_spread spreads.now) spot }
        ensures { self.new ≡
            run_from (slice_set (slice_set self.old.starts tier long) (8 + tier) short) (flat_map stages_of_spread spreads.now) spot }
    {
        if self.starts[tier] != long || self.starts[8 + tier] != short {
            self.starts[tier] = long;
            self.starts[8 + tier] = short;
            self.form(spreads, spot);
        }
    }

    /// What a leg starts with.
    pub fn start(&self, leg: usize) -> u64
        requires { leg < 16 }
        ensures { result ≡ slice_index self.now.starts leg }
    {
        self.starts[leg]
    }

    /// What the stages charge.
    pub fn charge(&self) -> u128
        ensures charge { result ≡ self.now.charged }
        ensures small { result ≤ 2 * 10 ^ 27 }
    {
        self.charged
    }

    /// The spot month charge, 0 where there is none.
    pub fn spot_charge(&self) -> u128
        ensures charge { result ≡ self.now.spot_charged }
        ensures small { result ≤ 10 ^ 26 }
    {
        self.spot_charged
    }
}
