//! Since which place of the history each margin unit has its nets, and the set in force.

ghost use Rattle.std.specs.Prelude.{ℕ, ◌≡◌, ◌<◌, ◌≤◌, length, slice_index_or, vec_capacity};
ghost use Rattle.mgn_day.specs.Changes.{AreNoted, AreRenewed, AreSwitched, AreThere, settled};

use mgn_machine::Reply;
use mgn_plan::Plan;

/// What a command that is answered so changes of its plan.
pub fn settled(plan: &Plan, reply: &Reply) -> Plan
    ensures { result ≡ settled plan.now reply.now }
{
    match reply {
        Reply::Done => *plan,
        Reply::Figures(_)
        | Reply::Totals(_)
        | Reply::NewSet(_)
        | Reply::Statement(_)
        | Reply::Refused(_) => Plan::Nothing,
    }
}

// Notes a place for a plan's units.
fn note(places: &mut Vec<usize>, plan: &Plan, place: usize)
    requires there { AreThere plan.now (length places.old.items) }
    ensures noted { AreNoted plan.now place places.old.items places.new.items }
    ensures room { vec_capacity places.new ≡ vec_capacity places.old }
{
    match plan {
        Plan::Nothing => {}
        Plan::One(one) => places[one.unit] = place,
        Plan::Two(giver, taker) => {
            places[giver.unit] = place;
            places[taker.unit] = place;
        }
    }
}

// Notes a place for units that were not there, up to so many.
fn extend(places: &mut Vec<usize>, units: usize, place: usize)
    requires room { units ≤ vec_capacity places.old }
    requires grown { length places.old.items ≤ units }
    ensures long { length places.new.items ≡ units }
    ensures old { (u : ℕ) → u < length places.old.items →
        slice_index_or places.new.items u 0 ≡ slice_index_or places.old.items u 0 }
    ensures new { (u : ℕ) → length places.old.items ≤ u → u < units → slice_index_or places.new.items u 0 ≡ place }
    ensures room { vec_capacity places.new ≡ vec_capacity places.old }
{
    for _unit in places.len()..units {
        places.push_reserved(place);
    }
}

/// Notes a place for a plan's units, and for those that were not there.
pub fn renew(places: &mut Vec<usize>, plan: &Plan, units: usize, place: usize)
    requires room { units ≤ vec_capacity places.old }
    requires grown { length places.old.items ≤ units }
    requires there { AreThere plan.now (length places.old.items) }
    ensures renewed { AreRenewed plan.now units place places.old.items places.new.items }
    ensures room { vec_capacity places.new ≡ vec_capacity places.old }
{
    note(places, plan, place);
    extend(places, units, place);
}

// Notes a place for all units.
fn fill(places: &mut Vec<usize>, place: usize)
    ensures long { length places.new.items ≡ length places.old.items }
    ensures all { (u : ℕ) → u < length places.old.items → slice_index_or places.new.items u 0 ≡ place }
    ensures room { vec_capacity places.new ≡ vec_capacity places.old }
{
    for unit in 0..places.len() {
        places[unit] = place;
    }
}

/// Notes a place for all units, where a set came into force there.
pub fn switch(places: &mut Vec<usize>, reply: &Reply, place: usize)
    ensures switched { AreSwitched reply.now place places.old.items places.new.items }
    ensures room { vec_capacity places.new ≡ vec_capacity places.old }
{
    match reply {
        Reply::NewSet(_) => fill(places, place),
        Reply::Done
        | Reply::Figures(_)
        | Reply::Totals(_)
        | Reply::Statement(_)
        | Reply::Refused(_) => {}
    }
}
