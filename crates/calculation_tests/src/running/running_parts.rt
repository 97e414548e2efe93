//! All that is kept of the nets under a set.

ghost use Rattle.std.specs.Prelude.{◌≡◌, ◌*◌, ◌<◌, ◌≤◌, ◌^◌, length, pos, replicate, unsigned_abs, All, IfOk};
ghost use Rattle.mgn_span.specs.Positions.{IsNet};
ghost use Rattle.mgn_scan.specs.Totals.{AreTotals};
ghost use Rattle.mgn_option.specs.Sums.{AreSums};
ghost use Rattle.mgn_tiers.specs.Tiers.{AreTiersOf};
ghost use Rattle.mgn_inter.specs.Credited.{AreCreditsOf};

use mgn_inter::InterCredits;
use mgn_nets::Nets;
use mgn_num::{Quantity, TenThousandths};
use mgn_option::OptionSums;
use mgn_params::{ParamSet, Work};
use mgn_plain::{CommodityFigures, figures};
use mgn_scan::ScanTotals;
use mgn_tiers::TierStages;
use std::alloc::{AllocError, Global};
use std::marker::Model;
use std::process::Abort;
use std::test::Fail;

// What a month delta and a net delta are at most in size.
const LARGEST_DELTA: u128 = 256_000_000_000_000;

/// One list of nets with its totals, option sums, stages and credits. Contracts see the nets.
#[derive(Drop)]
pub(super) struct RunningParts<'a> {
    set: &'a ParamSet,
    nets: Nets,
    totals: ScanTotals,
    sums: OptionSums,
    tiers: TierStages,
    credits: InterCredits,
}

impl<'a> Model for RunningParts<'a> {
    ghost use Rattle.mgn_inter.specs.Credited.{AreCreditsOf};
    ghost use Rattle.mgn_option.specs.Sums.{AreSums};
    ghost use Rattle.mgn_scan.specs.Totals.{AreTotals};
    ghost use Rattle.std.specs.Prelude.{List, ℤ};
    ghost use Rattle.mgn_tiers.specs.Tiers.{AreTiersOf};

    ghost Value = { List ℤ };

    ghost view = { λ k. k.nets };

    ghost invariant = { λ k. AreTotals k.set.now k.nets k.totals
        × AreSums k.set.now k.nets k.sums
        × AreTiersOf k.set.now k.tiers
        × AreCreditsOf k.set.now k.credits };
}

// A net, which is within its limit.
fn some_net(rt: &impl Abort, contracts: i64) -> Quantity
    ensures { IsNet result }
{
    assert!(rt; -10_000_000 <= contracts && contracts <= 10_000_000);
    Quantity::new(contracts)
}

// A net less another one.
fn difference(new: Quantity, old: Quantity) -> Quantity
    requires new { IsNet new }
    requires old { IsNet old }
    ensures { unsigned_abs result ≤ 2 * 10 ^ 7 }
{
    new.plus(old.negated())
}

// Contracts at a scaled delta each.
fn scaled(quantity: Quantity, delta: &i64) -> TenThousandths
    requires quantity { unsigned_abs quantity ≤ 2 * 10 ^ 7 }
    requires delta { unsigned_abs delta.now ≤ 10 ^ 5 }
    ensures { unsigned_abs result ≤ 2 * 10 ^ 12 }
{
    TenThousandths::product(quantity, *delta)
}

// What the delta of its month changes by with the net of a contract.
fn delta_of(set: &ParamSet, i: usize, quantity: Quantity) -> TenThousandths
    requires contract { i < length set.now.contracts }
    requires quantity { unsigned_abs quantity ≤ 2 * 10 ^ 7 }
    ensures { unsigned_abs result ≤ 2 * 10 ^ 12 }
{
    set.limits();
    scaled(quantity, &set.contract_at(i).delta)
}

// The totals and the option sums of nets of 0.
fn flat_sums(alloc: Global, set: &ParamSet) -> Result<(ScanTotals, OptionSums), AllocError>
    ensures totals { IfOk result (λ kept. AreTotals set.now (replicate (length set.now.contracts) (pos 0)) kept.0) }
    ensures sums { IfOk result (λ kept. AreSums set.now (replicate (length set.now.contracts) (pos 0)) kept.1) }
{
    let totals = ScanTotals::new(alloc, set)?;
    let sums = OptionSums::new(alloc, set)?;
    Ok((totals, sums))
}

// The stages and the credits of nets of 0.
fn flat_stages(alloc: Global, set: &ParamSet) -> Result<(TierStages, InterCredits), AllocError>
    ensures tiers { IfOk result (λ kept. AreTiersOf set.now kept.0) }
    ensures credits { IfOk result (λ kept. AreCreditsOf set.now kept.1) }
{
    let tiers = TierStages::new(alloc, set)?;
    let credits = InterCredits::new(alloc, set)?;
    Ok((tiers, credits))
}

impl<'a> RunningParts<'a> {
    /// What is kept of nets of 0.
    pub(super) fn new(alloc: Global, set: &'a ParamSet) -> Result<RunningParts<'a>, AllocError> {
        set.limits();
        let nets = Nets::flat(alloc, set.contract_count())?;
        let (totals, sums) = flat_sums(alloc, set)?;
        let (tiers, credits) = flat_stages(alloc, set)?;
        Ok(RunningParts {
            set,
            nets,
            totals,
            sums,
            tiers,
            credits,
        })
    }

    // Brings the totals and the sums after a change of a net.
    fn add_to_sums(&mut self, rt: &impl Abort, i: usize, quantity: Quantity)
        requires { unsigned_abs quantity ≤ 2 * 10 ^ 7 }
    {
        assert!(rt; i < self.set.contract_count());
        let net = self.nets.at(i).plus(quantity);
        assert!(rt; net.size() <= 10_000_000);
        let mut work = Work::new();
        self.totals
            .add(self.set, &self.nets, i, quantity, &mut work);
        self.sums.add(self.set, &self.nets, i, quantity);
        self.nets.add(i, quantity);
        assert_eq!(rt; work.arrays(), 1);
    }

    // Brings the stages after it.
    fn add_to_tiers(&mut self, rt: &impl Abort, i: usize, quantity: Quantity)
        requires { unsigned_abs quantity ≤ 2 * 10 ^ 7 }
    {
        assert!(rt; i < self.set.contract_count());
        self.set.limits();
        let delta = delta_of(self.set, i, quantity);
        let month = self.set.contract_at(i).month;
        let own = self.tiers.month_delta(month).plus(delta);
        let commodity = self.set.month_at(month).commodity;
        let net = self.tiers.net_delta(commodity).plus(delta);
        assert!(rt; own.size() <= LARGEST_DELTA);
        assert!(rt; net.size() <= LARGEST_DELTA);
        self.tiers.add(self.set, month, delta);
    }

    // Brings the credits after the net delta and the price risk of a commodity.
    fn refresh(&mut self, rt: &impl Abort, g: usize) {
        assert!(rt; g < self.set.commodity_count());
        let risk = self.totals.price_risk2(g);
        let net = self.tiers.net_delta(g);
        self.credits.refresh(self.set, g, net, risk);
    }

    // The net of a contract.
    fn net(&self, rt: &impl Abort, i: usize) -> Quantity
        ensures { IsNet result }
    {
        assert!(rt; i < self.set.contract_count());
        self.nets.at(i)
    }

    /// Brings the net of a contract to so many, and all that is kept after it.
    pub(super) fn trade(&mut self, rt: &impl Abort, i: usize, contracts: i64) {
        let net = some_net(rt, contracts);
        let quantity = difference(net, self.net(rt, i));
        self.add_to_sums(rt, i, quantity);
        self.add_to_tiers(rt, i, quantity);
        for g in 0..self.set.commodity_count() {
            self.refresh(rt, g);
        }
        assert_eq!(rt; self.net(rt, i), net);
    }

    // Whether the totals and the sums answer what was recomputed from scratch.
    fn compare_sums(&self, rt: &impl Abort, anew: &[CommodityFigures]) {
        assert_eq!(rt; anew.len(), self.set.commodity_count());
        for g in 0..anew.len() {
            assert_eq!(rt; self.totals.scan(g), anew[g].scan, "at {g}");
            assert_eq!(rt; self.totals.active(g), anew[g].active, "at {g}");
            assert_eq!(rt; self.totals.price_risk2(g), anew[g].price_risk2, "at {g}");
            assert_eq!(rt; self.sums.minimum(g), anew[g].minimum, "at {g}");
        }
    }

    // Whether the stages and the credits do.
    fn compare_stages(&self, rt: &impl Abort, anew: &[CommodityFigures]) {
        assert_eq!(rt; anew.len(), self.set.commodity_count());
        for g in 0..anew.len() {
            assert_eq!(rt; self.tiers.charge(g), anew[g].intra, "at {g}");
            assert_eq!(rt; self.tiers.spot(g), anew[g].spot, "at {g}");
            assert_eq!(rt; self.credits.credit(g), anew[g].credit, "at {g}");
        }
    }

    /// Compares all that is kept with what the nets come to anew.
    pub(super) fn agree(&self, rt: &impl Abort, alloc: Global) -> Result<(), Fail> {
        let mut work = Work::new();
        let anew = figures(alloc, self.set, &self.nets, &mut work)?;
        self.compare_sums(rt, anew.commodities());
        self.compare_stages(rt, anew.commodities());
        self.net_deltas_agree(rt);
        assert_eq!(rt; self.sums.value(), anew.option_value());
        Ok(())
    }

    // The sum of the deltas of a commodity's positions.
    fn sum_of_deltas(&self, rt: &impl Abort, g: usize) -> i128 {
        let mut sum: i128 = 0;
        for i in 0..self.set.contract_count() {
            if self.set.contract_at(i).commodity == g {
                let delta = delta_of(self.set, i, self.net(rt, i));
                sum = sum.wrapping_add(delta.parts());
            }
        }
        sum
    }

    // Compares the net deltas with the sums over the positions.
    fn net_deltas_agree(&self, rt: &impl Abort) {
        for g in 0..self.set.commodity_count() {
            let sum = self.sum_of_deltas(rt, g);
            assert_eq!(rt; self.tiers.net_delta(g).parts(), sum, "at {g}");
        }
    }

    /// Whether a month has this delta.
    pub(super) fn expect_month_delta(&self, rt: &impl Abort, month: usize, parts: i128) {
        assert!(rt; month < self.set.month_count());
        assert_eq!(rt; self.tiers.month_delta(month).parts(), parts, "at {month}");
    }

    /// Whether a commodity has this net delta.
    pub(super) fn expect_net_delta(&self, rt: &impl Abort, g: usize, parts: i128) {
        assert!(rt; g < self.set.commodity_count());
        assert_eq!(rt; self.tiers.net_delta(g).parts(), parts, "at {g}");
    }

    /// Whether the spreads of a commodity cost so much.
    pub(super) fn expect_intra(&self, rt: &impl Abort, g: usize, cents: i128) {
        assert!(rt; g < self.set.commodity_count());
        assert_eq!(rt; self.tiers.charge(g).amount(), cents, "at {g}");
    }

    /// Whether its spot month does.
    pub(super) fn expect_spot(&self, rt: &impl Abort, g: usize, cents: i128) {
        assert!(rt; g < self.set.commodity_count());
        assert_eq!(rt; self.tiers.spot(g).amount(), cents, "at {g}");
    }
}
