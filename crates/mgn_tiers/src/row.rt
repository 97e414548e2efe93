ghost use Rattle.std.specs.Prelude.{◌≡◌, ◌*◌, ◌<◌, ◌≤◌, ◌^◌, ◌+ℤ◌, unsigned_abs, pos, length};
ghost use Rattle.mgn_params.specs.Tables.{month_at};
ghost use Rattle.mgn_span.specs.Sizes.{IsDelta};
ghost use Rattle.mgn_tiers.specs.Tiers.{HasRoom, moved, run_of};

use crate::rows::move_delta;
use crate::run::StageRun;
use mgn_num::{Cents, TenThousandths};
use mgn_params::ParamSet;
use mgn_span::Delta;
use std::marker::Model;

/// What the deltas of the months of one commodity come to: its net delta in ten-thousandths, what its legs start with,
/// and what its stages and its spot month charge. The deltas are the caller's.
#[derive(Clone, Copy)]
pub struct TierRow {
    net_delta: Delta,
    run: StageRun,
}

impl Model for TierRow {
    ghost use Rattle.mgn_tiers.specs.Runs.{Tier};

    ghost Value = { Tier };

    ghost view = { λ r. record { net_delta = r.net_delta; run = r.run } };

    ghost inverse = { λ t. record { net_delta = t.net_delta; run = t.run } };
}

impl TierRow {
    /// A commodity of which no month has a delta.
    pub const NOTHING: TierRow = TierRow {
        net_delta: Delta::ZERO,
        run: StageRun::NOTHING,
    };

    /// Adds to the delta of the month at a place, which is one of the commodity, in ten-thousandths. The stages are formed
    /// again where that changes what a leg starts with. The resulting month delta and net delta are at most
    /// 2.56 * 10^14 in size.
    pub fn add(
        &mut self,
        set: &ParamSet,
        month: usize,
        month_delta: &mut Delta,
        delta: TenThousandths,
    )
        requires month { month < length set.now.months }
        requires month_delta { IsDelta (month_delta.old +ℤ delta) }
        requires net_delta { IsDelta (self.old.net_delta +ℤ delta) }
        requires room { HasRoom self.old.run (month_at set.now.months month).tier month_delta.old (month_delta.old +ℤ delta) }
        requires formed { self.old.run ≡ run_of set.now (month_at set.now.months month).commodity self.old.run.starts }
        ensures month_delta { month_delta.new ≡ month_delta.old +ℤ delta }
        ensures net_delta { self.new.net_delta ≡ self.old.net_delta +ℤ delta }
        ensures run { self.new.run ≡
            moved set.now (month_at set.now.months month) self.old.run month_delta.old (month_delta.old +ℤ delta) }
    {
        set.limits();
        let old = *month_delta;
        let new = old.plus(delta);
        self.net_delta = self.net_delta.plus(delta);
        move_delta(&mut self.run, set, set.month_at(month), old, new);
        *month_delta = new;
    }

    /// What the intracommodity spreads charge, in cents (CME SPAN).
    pub fn charge(&self) -> Cents
        ensures value { result ≡ pos self.now.run.charged }
        ensures small { unsigned_abs result ≤ 2 * 10 ^ 27 }
    {
        Cents::new(self.run.charge() as i128)
    }

    /// The spot month charge in cents, 0 where the commodity has none.
    pub fn spot(&self) -> Cents
        ensures value { result ≡ pos self.now.run.spot_charged }
        ensures small { unsigned_abs result ≤ 10 ^ 26 }
    {
        Cents::new(self.run.spot_charge() as i128)
    }

    /// The net delta: the sum of the month deltas, in ten-thousandths (CME SPAN).
    pub fn net_delta(&self) -> TenThousandths
        ensures value { result ≡ self.now.net_delta }
        ensures small { IsDelta result }
    {
        self.net_delta.ten_thousandths()
    }
}
