ghost use Rattle.std.specs.Prelude.{◌≡◌, ◌+◌, ◌-◌, ◌*◌, ◌<◌, ◌≤◌, ◌^◌, ◌+ℤ◌, ◌*ℤ◌, ◌≤ℤ◌, pos, unsigned_abs, length, min};
ghost use Rattle.mgn_span.specs.Scan.{price_risk2, value_at};
ghost use Rattle.mgn_span.specs.Sizes.{IsDelta};
ghost use Rattle.mgn_desk.specs.KeptRows.{HasRowRoom, IsRowMoved, row_charge};
ghost use Rattle.mgn_desk.specs.Risks.{IsRisk};

use crate::step::{Step, scaled};
use mgn_num::{Cents, TenThousandths};
use mgn_option::Minimum;
use mgn_params::{ParamSet, Work};
use mgn_scan::ScanRow;
use mgn_tiers::TierRow;
use std::marker::Model;

/// What a portfolio keeps of one commodity by its nets alone, in one place: a command that reaches it waits for few lines
/// of memory. Contracts see the totals of the scenarios, the net delta and stages, and the option minimum; what these come
/// to before credits is kept beside them.
#[derive(Clone, Copy)]
pub(crate) struct CommodityRow {
    scan: ScanRow,
    tier: TierRow,
    minimum: Minimum,
    // The scan risk with the spreading and the spot charge.
    charge: Cents,
    // Twice the price risk.
    doubled_risk: Cents,
}

impl Model for CommodityRow {
    ghost use Rattle.mgn_desk.specs.KeptRows.{KeptRow};

    ghost Value = { KeptRow };

    ghost use Rattle.mgn_desk.specs.CommodityRows.{IsRowWorked, kept_row, row_kept, row_kept_is};

    ghost view = { kept_row };

    ghost invariant = { IsRowWorked };

    ghost inverse = { row_kept };

    ghost inverse_ok = { row_kept_is };
}

impl CommodityRow {
    /// A commodity of which nothing is held.
    pub const NOTHING: CommodityRow = CommodityRow {
        scan: ScanRow::NOTHING,
        tier: TierRow::NOTHING,
        minimum: Minimum::ZERO,
        charge: Cents::ZERO,
        doubled_risk: Cents::ZERO,
    };

    /// Follows a change of the net of the contract at `i`, which is one of the commodity. One array is read.
    pub fn add(&mut self, set: &ParamSet, i: usize, step: &Step, work: &mut Work)
        requires contract { i < length set.now.contracts }
        requires room { HasRowRoom set.now i self.old step.now }
        ensures row { IsRowMoved set.now i self.old self.new step.now }
        ensures counted { work.new ≡ min (work.old + 1) (2 ^ 64 - 1) }
    {
        set.limits();
        let contract = set.contract_at(i);
        let delta = scaled(step.quantity, contract.delta);
        let mut month_delta = step.delta;
        self.scan.add(set, i, step.quantity, work);
        self.minimum.follow(set, i, step.net, step.quantity);
        self.tier.add(set, contract.month, &mut month_delta, delta);
        let risks = self.scan.risks();
        self.charge = risks.scan.plus(self.tier.charge()).plus(self.tier.spot());
        self.doubled_risk = risks.price_risk2;
    }

    /// What the commodity risks before credits, in cents: the scan risk with the spreading and the spot charge (CME SPAN).
    pub fn charge(&self) -> Cents
        ensures charge { result ≡ row_charge self.now }
        ensures small { IsRisk result }
    {
        self.charge
    }

    /// Twice the price risk, 0 to 1.1 * 10^18, in cents (own profile, after SPAN).
    pub fn doubled_risk(&self) -> Cents
        ensures doubled_risk { result ≡ price_risk2 (value_at self.now.scan) }
        ensures not_negative { pos 0 ≤ℤ result }
        ensures small { unsigned_abs result ≤ 11 * 10 ^ 17 }
    {
        self.doubled_risk
    }

    /// The net delta, in ten-thousandths (CME SPAN).
    pub fn net_delta(&self) -> TenThousandths
        ensures value { result ≡ self.now.tier.net_delta }
        ensures small { IsDelta result }
    {
        self.tier.net_delta()
    }

    /// The short option minimum, in cents (CME SPAN).
    pub fn least(&self) -> Cents
        ensures value { result ≡ pos self.now.minimum }
        ensures not_negative { pos 0 ≤ℤ result }
        ensures small { unsigned_abs result ≤ 256 * 10 ^ 16 }
    {
        self.minimum.cents()
    }
}
