ghost use Rattle.std.specs.Prelude.{◌≡◌, ◌<◌, ◌++◌, ◌∷◌, [], All, IfOk, IfSome, OnOk, OnErr, Ok, None, Some, false, length, position, ℕ};
ghost use Rattle.std.specs.List.{list_any};
ghost use Rattle.std.specs.Str.{bytes_eq};
ghost use Rattle.mgn_machine.specs.Refusals.{account_names, has_origin, home_of, is_net, open_home, origin_fits};
ghost use Rattle.mgn_machine.specs.Step.{originated, opened, with_account};
ghost use Rattle.mgn_unit.specs.Rows.{no_row};
ghost use Rattle.mgn_machine.specs.declared.command.Mode.TheVariants.{Net};
ghost use Rattle.mgn_plan.specs.Plans.{FollowsPlan};
ghost use Rattle.mgn_plan.specs.declared.plans.Plan.TheVariants.{Nothing};
ghost use Rattle.mgn_register.specs.BookStates.{IsKept, Steps};

use crate::register::{Register, refuse_if};
use crate::step_fault::StepFault;
use mgn_ids::{AccountName, OriginName};
use mgn_machine::{Mode, Origin, Refusal};
use mgn_params::ParamSet;
use mgn_unit::{Account, Row};
use std::alloc::{AllocError, Global};

/// How many origins there are at most.
const MOST_ORIGINS: usize = 8;

/// How many accounts there are at most.
const MOST_ACCOUNTS: usize = 1024;

/// How many margin units there are at most.
pub const MOST_UNITS: usize = 1024;

fn is_net(mode: Mode) -> bool
    ensures { result ≡ is_net mode }
{
    match mode {
        Mode::Gross => false,
        Mode::Net => true,
    }
}

fn has_origin(origins: &[Origin], name: OriginName) -> bool
    ensures { result ≡ has_origin origins.now name }
{
    origins.iter().any(|origin| origin.name == name)
}

fn origin_place(origins: &[Origin], name: OriginName) -> Option<usize>
    ensures place { result ≡ position (λ o. bytes_eq o.name name) origins.now }
    ensures within { IfSome result (λ i. i < length origins.now) }
{
    origins.iter().position(|origin| origin.name == name)
}

/// Where an origin stands, and the unit of all its accounts, if it is netted.
type Home = (usize, Option<usize>);

// Where an origin stands, and the unit of its accounts, if it is netted.
#[tactic(auto, unfolding(mgn_machine::specs::Refusals::home_of))]
pub(crate) fn home_of(origins: &[Origin], name: OriginName) -> Result<Home, Refusal>
    ensures home { result ≡ home_of origins.now name }
    ensures there { IfOk result (λ home. home.0 < length origins.now) }
    ensures within { (n : ℕ) → All (λ o. IfSome o.unit (λ u. u < n)) origins.now
        → IfOk result (λ home. IfSome home.1 (λ u. u < n)) }
{
    match origin_place(origins, name) {
        Some(place) => Ok((place, origins[place].unit)),
        None => Err(Refusal::NoOrigin),
    }
}

impl Register {
    #[tactic(auto, unfolding(mgn_machine::specs::Refusals::origin_fits))]
    fn origin_fits(&self, name: OriginName, mode: Mode) -> Result<(), Refusal>
        ensures fits { result ≡ origin_fits self.now.state name mode }
        ensures few_units { OnOk result (mode ≡ Net → self.now.state.units < 1024) }
    {
        refuse_if(self.closed, Refusal::Closed)?;
        refuse_if(
            has_origin(self.origins.as_slice(), name),
            Refusal::Duplicate,
        )?;
        refuse_if(MOST_ORIGINS <= self.origins.len(), Refusal::Limit)?;
        refuse_if(
            is_net(mode) && MOST_UNITS <= self.rows.len(),
            Refusal::Limit,
        )?;
        Ok(())
    }

    fn has_account(&self, name: AccountName) -> bool
        ensures { result ≡ list_any (bytes_eq name) (account_names self.now.state.accounts) }
    {
        self.names.has(name)
    }

    #[tactic(auto, unfolding(mgn_machine::specs::Refusals::open_home))]
    fn open_home(&self, name: AccountName, origin: OriginName) -> Result<Home, Refusal>
        ensures home { result ≡ open_home self.now.state name origin }
        ensures fresh { OnOk result (list_any (bytes_eq name) (account_names self.now.state.accounts) ≡ false) }
        ensures few { OnOk result (length self.now.state.accounts < 1024) }
        ensures few_units { IfOk result (λ home. home.1 ≡ None → self.now.state.units < 1024) }
        ensures there { IfOk result (λ home. home.0 < length self.now.state.origins) }
        ensures within { (n : ℕ) → All (λ o. IfSome o.unit (λ u. u < n)) self.now.state.origins
            → IfOk result (λ home. IfSome home.1 (λ u. u < n)) }
    {
        refuse_if(self.closed, Refusal::Closed)?;
        let home = home_of(self.origins.as_slice(), origin)?;
        refuse_if(self.has_account(name), Refusal::Duplicate)?;
        refuse_if(MOST_ACCOUNTS <= self.accounts.len(), Refusal::Limit)?;
        refuse_if(
            home.1.is_none() && MOST_UNITS <= self.rows.len(),
            Refusal::Limit,
        )?;
        Ok(home)
    }

    /// An origin more; a netted one makes its unit.
    pub fn originate(
        &mut self,
        alloc: Global,
        set: &ParamSet,
        name: OriginName,
        mode: Mode,
    ) -> Result<(), StepFault>
        requires kept { IsKept set.now self.old }
        ensures kept { IsKept set.now self.new }
        ensures steps { Steps (originated self.old.state name mode) result self.old self.new }
        ensures follows { OnOk result (FollowsPlan set.now Nothing self.old.rows self.new.rows) }
    {
        self.origin_fits(name, mode)?;
        self.origins.reserve(1)?;
        match mode {
            Mode::Gross => {
                self.origins.push_reserved(Origin { name, unit: None });
                Ok(())
            }
            Mode::Net => {
                let unit = push_flat(&mut self.rows, alloc, set)?;
                self.origins.push_reserved(Origin {
                    name,
                    unit: Some(unit),
                });
                Ok(())
            }
        }
    }

    /// An account more, in its origin's unit or in one of its own.
    pub fn open(
        &mut self,
        alloc: Global,
        set: &ParamSet,
        name: AccountName,
        origin: OriginName,
    ) -> Result<(), StepFault>
        requires kept { IsKept set.now self.old }
        ensures kept { IsKept set.now self.new }
        ensures steps { Steps (opened self.old.state name origin) result self.old self.new }
        ensures follows { OnOk result (FollowsPlan set.now Nothing self.old.rows self.new.rows) }
    {
        let (place, unit) = self.open_home(name, origin)?;
        match unit {
            Some(unit) => self.open_in(alloc, set, name, place, unit)?,
            None => self.open_own(alloc, set, name, place)?,
        }
        Ok(())
    }

    // An account more in a unit that is there.
    fn open_in(
        &mut self,
        alloc: Global,
        set: &ParamSet,
        name: AccountName,
        origin: usize,
        unit: usize,
    ) -> Result<(), AllocError>
        requires kept { IsKept set.now self.old }
        requires fresh { list_any (bytes_eq name) (account_names self.old.state.accounts) ≡ false }
        requires few { length self.old.state.accounts < 1024 }
        requires home { origin < length self.old.state.origins }
        requires unit { unit < length self.old.rows }
        ensures kept { IsKept set.now self.new }
        ensures ok { OnOk result (self.new.state ≡ with_account self.old.state name (origin, Some unit)) }
        ensures follows { OnOk result (FollowsPlan set.now Nothing self.old.rows self.new.rows) }
        ensures err { OnErr result (self.new ≡ self.old) }
    {
        self.accounts.reserve(1)?;
        self.names.push(name)?;
        self.accounts
            .push_reserved(Account::open(alloc, name, origin, unit));
        Ok(())
    }

    // An account more in a unit of its own.
    fn open_own(
        &mut self,
        alloc: Global,
        set: &ParamSet,
        name: AccountName,
        origin: usize,
    ) -> Result<(), AllocError>
        requires kept { IsKept set.now self.old }
        requires fresh { list_any (bytes_eq name) (account_names self.old.state.accounts) ≡ false }
        requires few { length self.old.state.accounts < 1024 }
        requires home { origin < length self.old.state.origins }
        requires few_units { length self.old.rows < 1024 }
        ensures kept { IsKept set.now self.new }
        ensures ok { OnOk result (self.new.state ≡ with_account self.old.state name (origin, None)) }
        ensures follows { OnOk result (FollowsPlan set.now Nothing self.old.rows self.new.rows) }
        ensures err { OnErr result (self.new ≡ self.old) }
    {
        let unit = self.rows.len();
        let row = Row::flat(alloc, set)?;
        self.rows.reserve(1)?;
        self.accounts.reserve(1)?;
        self.names.push(name)?;
        self.rows.push_reserved(row);
        self.accounts
            .push_reserved(Account::open(alloc, name, origin, unit));
        Ok(())
    }
}

// A row of nothing more, and its place.
fn push_flat(rows: &mut Vec<Row>, alloc: Global, set: &ParamSet) -> Result<usize, AllocError>
    ensures ok { OnOk result (rows.new.items ≡ rows.old.items ++ no_row set.now ∷ []) }
    ensures place { IfOk result (λ unit. unit ≡ length rows.old.items) }
    ensures err { OnErr result (rows.new.items ≡ rows.old.items) }
{
    let row = Row::flat(alloc, set)?;
    let unit = rows.len();
    rows.push(row)?;
    Ok(unit)
}
