ghost use Rattle.std.specs.Prelude.{◌≡◌, ◌+◌, ◌<◌, ◌≤◌, ◌^◌, [], length, true, IfSome, OnOk};
ghost use Rattle.mgn_book.specs.History.{HasRoom, KeepsNames, name_at};
ghost use Rattle.mgn_book.specs.Replies.{Grows};

use indexmap::IndexSet;
use mgn_ids::{AccountName, ClassName, ContractName};
use mgn_params::MOST_CONTRACTS;
use std::alloc::{AllocError, Global};
use std::marker::Model;

/// Where the names of a command may be found without a hash. Nothing rests on it.
#[derive(Clone, Copy)]
pub(crate) struct Likely {
    /// The place of the account in the book: accounts are mostly named in the order in which they are opened.
    pub account: usize,
    /// The place of the contract in the set in force.
    pub contract: usize,
}

impl Likely {
    /// Nowhere: names are looked for by hash.
    pub const NOWHERE: Likely = Likely {
        account: usize::MAX,
        contract: usize::MAX,
    };
}

/// The names of accounts, contracts and collateral classes that entries have, each once and found by its place.
/// Contracts see the lists, and for how many more names there is room.
#[derive(Drop)]
pub(crate) struct Names {
    accounts: IndexSet<AccountName>,
    contracts: IndexSet<ContractName>,
    classes: IndexSet<ClassName>,
    // By the place of a contract in a set, where its name was found last.
    found: Vec<u32>,
}

impl Model for Names {
    ghost use Rattle.indexmap.specs.IndexSet.{spare};
    ghost use Rattle.mgn_book.specs.History.{NameLists};

    ghost Value = { NameLists };

    ghost view = { λ n. record {
      accounts = n.accounts.keys;
      account_room = spare n.accounts;
      contracts = n.contracts.keys;
      contract_room = spare n.contracts;
      classes = n.classes.keys;
      class_room = spare n.classes;
    } };
}

impl Names {
    /// No names. Takes no memory.
    pub fn new(alloc: Global) -> Names
        ensures accounts { result.accounts ≡ [] }
        ensures contracts { result.contracts ≡ [] }
        ensures classes { result.classes ≡ [] }
    {
        Names {
            accounts: IndexSet::new(alloc),
            contracts: IndexSet::new(alloc),
            classes: IndexSet::new(alloc),
            found: Vec::new(alloc),
        }
    }

    /// Reserves memory for the names of one more command, which are three at most, one of them a contract's or a
    /// class's. The names stay, also where memory is refused.
    pub fn reserve(&mut self) -> Result<(), AllocError>
        ensures accounts { self.new.accounts ≡ self.old.accounts }
        ensures contracts { self.new.contracts ≡ self.old.contracts }
        ensures classes { self.new.classes ≡ self.old.classes }
        ensures ok { OnOk result (HasRoom self.new) }
    {
        if self.found.is_empty() {
            self.found = vec![in *self.found.allocator(); 0; MOST_CONTRACTS]?;
        }
        self.accounts.reserve(2)?;
        self.contracts.reserve(1)?;
        self.classes.reserve(1)
    }

    /// The account of a place.
    pub fn account(&self, place: u32) -> AccountName
        requires { place < length self.now.accounts }
        ensures { result ≡ name_at self.now.accounts place }
    {
        match self.accounts.get_index(place as usize) {
            Some(name) => *name,
            None => unreachable!(),
        }
    }

    /// The contract of a place.
    pub fn contract(&self, place: u32) -> ContractName
        requires { place < length self.now.contracts }
        ensures { result ≡ name_at self.now.contracts place }
    {
        match self.contracts.get_index(place as usize) {
            Some(name) => *name,
            None => unreachable!(),
        }
    }

    /// The collateral class of a place.
    pub fn class(&self, place: u32) -> ClassName
        requires { place < length self.now.classes }
        ensures { result ≡ name_at self.now.classes place }
    {
        match self.classes.get_index(place as usize) {
            Some(name) => *name,
            None => unreachable!(),
        }
    }

    // Whether an account stands at a place.
    fn is_account(&self, place: usize, name: AccountName) -> bool
        ensures name { result ≡ true → name_at self.now.accounts place ≡ name }
        ensures within { result ≡ true → place < length self.now.accounts }
    {
        match self.accounts.get_index(place) {
            Some(there) => *there == name,
            None => false,
        }
    }

    // Where the contract of a place in a set was found last, if that is the contract of this name.
    fn found_before(&self, name: ContractName, contract: usize) -> Option<u32>
        ensures name { IfSome result (λ place. name_at self.now.contracts place ≡ name) }
        ensures within { IfSome result (λ place. place < length self.now.contracts) }
    {
        let before = *self.found.get(contract)?;
        match self.contracts.get_index(before as usize) {
            Some(there) if *there == name => Some(before),
            _ => None,
        }
    }

    // Notes where the contract of a place in a set was found.
    fn note(&mut self, contract: usize, place: u32)
        ensures { self.new ≡ self.old }
    {
        if let Some(found) = self.found.get_mut(contract) {
            *found = place;
        }
    }

    /// The place of an account, which is added where it is not there.
    pub fn place_of_account(&mut self, name: AccountName, likely: usize) -> u32
        requires room { 1 ≤ self.old.account_room }
        requires few { length self.old.accounts < 2 ^ 32 }
        ensures name { name_at self.new.accounts result ≡ name }
        ensures within { result < length self.new.accounts }
        ensures accounts { Grows self.old.accounts self.new.accounts }
        ensures few { length self.new.accounts ≤ length self.old.accounts + 1 }
        ensures room { self.old.account_room ≤ self.new.account_room + 1 }
        ensures contracts { self.new.contracts ≡ self.old.contracts }
        ensures same_room { self.new.contract_room ≡ self.old.contract_room }
        ensures classes { self.new.classes ≡ self.old.classes }
        ensures class_room { self.new.class_room ≡ self.old.class_room }
    {
        if self.is_account(likely, name) {
            return likely as u32;
        }
        match self.accounts.insert_full(name) {
            Ok((place, _)) => place as u32,
            Err(_) => unreachable!(),
        }
    }

    /// The place of a contract, which is added where it is not there.
    pub fn place_of_contract(&mut self, name: ContractName, likely: usize) -> u32
        requires room { 1 ≤ self.old.contract_room }
        requires few { length self.old.contracts < 2 ^ 32 }
        ensures name { name_at self.new.contracts result ≡ name }
        ensures within { result < length self.new.contracts }
        ensures contracts { Grows self.old.contracts self.new.contracts }
        ensures few { length self.new.contracts ≤ length self.old.contracts + 1 }
        ensures accounts { self.new.accounts ≡ self.old.accounts }
        ensures classes { self.new.classes ≡ self.old.classes }
    {
        if let Some(place) = self.found_before(name, likely) {
            return place;
        }
        let place = match self.contracts.insert_full(name) {
            Ok((place, _)) => place as u32,
            Err(_) => unreachable!(),
        };
        self.note(likely, place);
        place
    }

    /// The place of a collateral class, which is added where it is not there.
    pub fn place_of_class(&mut self, name: ClassName) -> u32
        requires room { 1 ≤ self.old.class_room }
        requires few { length self.old.classes < 2 ^ 32 }
        ensures name { name_at self.new.classes result ≡ name }
        ensures within { result < length self.new.classes }
        ensures classes { Grows self.old.classes self.new.classes }
        ensures few { length self.new.classes ≤ length self.old.classes + 1 }
        ensures accounts { self.new.accounts ≡ self.old.accounts }
        ensures contracts { self.new.contracts ≡ self.old.contracts }
        ensures account_room { self.new.account_room ≡ self.old.account_room }
    {
        match self.classes.insert_full(name) {
            Ok((place, _)) => place as u32,
            Err(_) => unreachable!(),
        }
    }
}
