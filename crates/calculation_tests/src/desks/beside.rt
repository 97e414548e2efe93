//! A desk beside the four lists of nets that it is to show.

ghost use Rattle.std.specs.Prelude.{◌≡◌, ◌<◌, ◌≤◌, ◌*◌, ◌^◌, ◌+ℤ◌, length, slice_set, unsigned_abs, All, IfOk};
ghost use Rattle.mgn_span.specs.Positions.{IsNet};
ghost use Rattle.mgn_span.specs.Scan.{value_at};
ghost use Rattle.mgn_desk.specs.Desks.{CanMoveMarked, IsMarkedBy};

use crate::sets::flat_nets;
use mgn_desk::{Desk, Moves};
use mgn_nets::{Nets, Portfolios};
use mgn_num::{Cents, Quantity};
use mgn_params::{ParamSet, Version, Work};
use mgn_plain::requirement;
use std::alloc::{AllocError, Global};
use std::marker::Model;
use std::process::Abort;
use std::test::Fail;

/// What a net is at most in size.
pub(super) const LARGEST_NET: i64 = 10_000_000;

/// The nets of one contract in the four portfolios of a unit.
pub(super) type FourNets = Portfolios<i64>;

// A net, which is within its limit.
fn some_net(rt: &impl Abort, contracts: i64) -> Quantity
    ensures { IsNet result }
{
    assert!(rt; -LARGEST_NET <= contracts && contracts <= LARGEST_NET);
    Quantity::new(contracts)
}

// A list of nets, one for each contract of a set. Contracts see the nets.
#[derive(Drop)]
struct NetList {
    nets: Vec<Quantity>,
}

impl Model for NetList {
    ghost use Rattle.mgn_span.specs.Positions.{IsNet};
    ghost use Rattle.std.specs.Prelude.{All, List, ℤ};

    ghost Value = { List ℤ };

    ghost view = { λ n. n.nets.items };

    ghost invariant = { λ n. All IsNet n.nets.items };
}

impl NetList {
    // Nets of 0.
    fn new(alloc: Global, set: &ParamSet) -> Result<NetList, AllocError>
        ensures { IfOk result (λ nets. length nets ≡ length set.now.contracts) }
    {
        let nets = flat_nets(alloc, set)?;
        Ok(NetList { nets })
    }

    // The nets in pages.
    fn paged(&self, alloc: Global) -> Result<Nets, AllocError>
        requires { length self.now ≤ 4096 }
        ensures nets { IfOk result (λ nets. nets ≡ self.now) }
        ensures limits { IfOk result (All IsNet) }
    {
        Nets::of(alloc, &self.nets)
    }

    // The net of a contract.
    fn at(&self, contract: usize) -> Quantity
        requires { contract < length self.now }
        ensures { IsNet result }
    {
        self.nets[contract]
    }

    // Writes the net of a contract.
    fn write(&mut self, contract: usize, net: Quantity)
        requires contract { contract < length self.old }
        requires net { IsNet net }
        ensures { length self.new ≡ length self.old }
    {
        self.nets[contract] = net;
    }

    // Takes over the nets of another list.
    fn copy_from(&mut self, other: &NetList)
        requires { length self.old ≡ length other.now }
        ensures { self.new ≡ other.now }
    {
        self.nets.copy_from_slice(&other.nets);
    }
}

// Two lists of nets of 0.
fn two_lists(alloc: Global, set: &ParamSet) -> Result<(NetList, NetList), AllocError>
    ensures first { IfOk result (λ lists. length lists.0 ≡ length set.now.contracts) }
    ensures second { IfOk result (λ lists. length lists.1 ≡ length set.now.contracts) }
{
    let first = NetList::new(alloc, set)?;
    let second = NetList::new(alloc, set)?;
    Ok((first, second))
}

// A desk that was marked with these nets in each portfolio.
fn marked_desk(alloc: Global, set: &ParamSet, nets: &NetList) -> Result<Desk, AllocError>
    requires { length nets.now ≡ length set.now.contracts }
    ensures { IfOk result (λ desk. IsMarkedBy set.now desk.marked) }
{
    set.limits();
    let nets = nets.paged(alloc)?;
    let nets = Portfolios {
        lots: &nets,
        buys: &nets,
        sales: &nets,
        all: &nets,
    };
    let mut desk = Desk::empty(0);
    desk.mark(alloc, Version::new(0), set, &nets)?;
    Ok(desk)
}

// A net less another one.
fn difference(new: Quantity, old: Quantity) -> Quantity
    requires new { IsNet new }
    requires old { IsNet old }
    ensures { unsigned_abs result ≤ 2 * 10 ^ 7 }
{
    new.plus(old.negated())
}

// Whether the net of a contract stays within its limit with a quantity more.
fn expect_room(rt: &impl Abort, net: Quantity, quantity: Quantity)
    requires { IsNet net }
    ensures { IsNet (net +ℤ quantity) }
{
    assert!(rt; quantity.size() <= 20_000_000);
    assert!(rt; net.plus(quantity).size() <= 10_000_000);
}

// The net of a contract in a list.
fn net_at(rt: &impl Abort, list: &NetList, i: usize) -> Quantity {
    assert!(rt; i < list.nets.len());
    list.nets[i]
}

// Whether the nets that a desk shows are those of four lists.
fn expect_same(rt: &impl Abort, set: &ParamSet, desk: &Desk, lists: [&NetList; 4])
    requires { IsMarkedBy set.now desk.now.marked }
{
    let [lots, buys, sales, all] = lists;
    for i in 0..desk.contract_count() {
        let nets = Portfolios {
            lots: net_at(rt, lots, i),
            buys: net_at(rt, buys, i),
            sales: net_at(rt, sales, i),
            all: net_at(rt, all, i),
        };
        assert_eq!(rt; desk.nets_at(i), nets);
    }
}

// How many portfolios are moved.
fn count_moved(moves: &Moves) -> u64 {
    let quantities = [moves.lots, moves.buys, moves.sales, moves.all];
    quantities
        .iter()
        .filter(|quantity| quantity.size() != 0)
        .count() as u64
}

/// A marked desk with the four lists. Contracts see the set.
#[derive(Drop)]
pub(super) struct Beside<'a> {
    set: &'a ParamSet,
    desk: Desk,
    lots: NetList,
    buys: NetList,
    sales: NetList,
    all: NetList,
}

impl<'a> Model for Beside<'a> {
    ghost use Rattle.mgn_desk.specs.Desks.{IsMarkedBy};
    ghost use Rattle.mgn_params.specs.Tables.{Tables};
    ghost use Rattle.std.specs.Prelude.{◌≡◌, length};

    ghost Value = { Tables };

    ghost view = { λ b. b.set.now };

    ghost invariant = { λ b. IsMarkedBy b.set.now b.desk.marked
        × (length b.lots ≡ length b.set.now.contracts)
        × (length b.buys ≡ length b.set.now.contracts)
        × (length b.sales ≡ length b.set.now.contracts)
        × (length b.all ≡ length b.set.now.contracts) };
}

// Whether the nets of a desk stay within their limits after moves.
#[tactic(auto, using(mgn_desk::proofs::DeskLemmas::can_move_marked))]
fn expect_rooms(rt: &impl Abort, set: &ParamSet, desk: &Desk, moves: &Moves)
    requires marked { IsMarkedBy set.now desk.now.marked }
    requires contract { moves.now.contract < length set.now.contracts }
    ensures { CanMoveMarked moves.now desk.now.marked }
{
    let nets = desk.nets_at(moves.contract);
    expect_room(rt, nets.lots, moves.lots);
    expect_room(rt, nets.buys, moves.buys);
    expect_room(rt, nets.sales, moves.sales);
    expect_room(rt, nets.all, moves.all);
}

impl<'a> Beside<'a> {
    /// A desk with nets of 0.
    pub(super) fn new(alloc: Global, set: &'a ParamSet) -> Result<Beside<'a>, AllocError> {
        let (lots, buys) = two_lists(alloc, set)?;
        let desk = marked_desk(alloc, set, &lots)?;
        let (sales, all) = two_lists(alloc, set)?;
        Ok(Beside {
            set,
            desk,
            lots,
            buys,
            sales,
            all,
        })
    }

    /// Marks the desk anew with the lists.
    pub(super) fn mark(&mut self, alloc: Global) -> Result<(), AllocError> {
        self.set.limits();
        let lots = self.lots.paged(alloc)?;
        let buys = self.buys.paged(alloc)?;
        let sales = self.sales.paged(alloc)?;
        let all = self.all.paged(alloc)?;
        let nets = Portfolios {
            lots: &lots,
            buys: &buys,
            sales: &sales,
            all: &all,
        };
        self.desk.mark(alloc, Version::new(0), self.set, &nets)
    }

    /// The same once all lists are as that of the lots.
    pub(super) fn mark_as_lots(&mut self, alloc: Global) -> Result<(), AllocError> {
        self.buys.copy_from(&self.lots);
        self.sales.copy_from(&self.lots);
        self.all.copy_from(&self.lots);
        self.mark(alloc)
    }

    /// The nets of a contract.
    pub(super) fn nets_of(&self, rt: &impl Abort, contract: usize) -> FourNets {
        assert!(rt; contract < self.set.contract_count());
        FourNets {
            lots: self.lots.at(contract).contracts(),
            buys: self.buys.at(contract).contracts(),
            sales: self.sales.at(contract).contracts(),
            all: self.all.at(contract).contracts(),
        }
    }

    // What brings the nets of a contract to these.
    fn moves_to(&self, rt: &impl Abort, contract: usize, nets: &FourNets) -> Moves
        requires { contract < length self.now.contracts }
        ensures { result.contract ≡ contract }
    {
        Moves {
            contract,
            lots: difference(some_net(rt, nets.lots), self.lots.at(contract)),
            buys: difference(some_net(rt, nets.buys), self.buys.at(contract)),
            sales: difference(some_net(rt, nets.sales), self.sales.at(contract)),
            all: difference(some_net(rt, nets.all), self.all.at(contract)),
        }
    }

    // Writes the nets of a contract in the lists.
    fn write(&mut self, rt: &impl Abort, contract: usize, nets: &FourNets) {
        assert!(rt; contract < self.set.contract_count());
        self.lots.write(contract, some_net(rt, nets.lots));
        self.buys.write(contract, some_net(rt, nets.buys));
        self.sales.write(contract, some_net(rt, nets.sales));
        self.all.write(contract, some_net(rt, nets.all));
    }

    /// Brings the nets of a contract to these, the desk by the moves that lead there. Tells the moves, and how many
    /// arrays they read.
    pub(super) fn bring_counted(
        &mut self,
        rt: &impl Abort,
        contract: usize,
        nets: &FourNets,
    ) -> (Moves, u64) {
        assert!(rt; contract < self.set.contract_count());
        let moves = self.moves_to(rt, contract, nets);
        let mut work = Work::new();
        expect_rooms(rt, self.set, &self.desk, &moves);
        self.desk.apply(self.set, &moves, &mut work);
        self.write(rt, contract, nets);
        (moves, work.arrays())
    }

    /// Brings them there by moves that read an array for each portfolio that moves.
    pub(super) fn bring(&mut self, rt: &impl Abort, contract: usize, nets: &FourNets) -> Moves {
        let (moves, arrays) = self.bring_counted(rt, contract, nets);
        assert_eq!(rt; arrays, count_moved(&moves));
        moves
    }

    /// Takes moves back, which leads to these nets.
    pub(super) fn take_back(&mut self, rt: &impl Abort, moves: &Moves, nets: &FourNets) {
        assert!(rt; moves.contract < self.set.contract_count());
        let mut work = Work::new();
        expect_rooms(rt, self.set, &self.desk, &moves.opposite());
        self.desk.take_back(self.set, moves, &mut work);
        assert_eq!(rt; work.arrays(), count_moved(moves));
        self.write(rt, moves.contract, nets);
    }

    // What a list requires, worked out anew.
    fn anew(&self, alloc: Global, nets: &NetList) -> Result<Cents, AllocError>
        requires { length nets.now ≡ length self.now.contracts }
    {
        self.set.limits();
        requirement(alloc, self.set, &nets.paged(alloc)?, &mut Work::new())
    }

    // The same of the four lists.
    fn all_anew(&self, alloc: Global) -> Result<Portfolios<Cents>, AllocError> {
        Ok(Portfolios {
            lots: self.anew(alloc, &self.lots)?,
            buys: self.anew(alloc, &self.buys)?,
            sales: self.anew(alloc, &self.sales)?,
            all: self.anew(alloc, &self.all)?,
        })
    }

    // Whether the desk shows the lists.
    fn nets_agree(&self, rt: &impl Abort) {
        expect_same(
            rt,
            self.set,
            &self.desk,
            [&self.lots, &self.buys, &self.sales, &self.all],
        );
    }

    // Whether it requires so much.
    fn expect_requirements(&self, rt: &impl Abort, anew: &Portfolios<Cents>) {
        assert_eq!(rt; self.desk.requirements(), *anew);
    }

    /// Compares the desk's nets with the lists, and what it requires with what they do. Tells the latter.
    pub(super) fn agree(&self, rt: &impl Abort, alloc: Global) -> Result<Portfolios<Cents>, Fail> {
        self.nets_agree(rt);
        let anew = self.all_anew(alloc)?;
        self.expect_requirements(rt, &anew);
        Ok(anew)
    }
}
