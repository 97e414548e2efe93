ghost use Rattle.std.specs.Prelude.{◌≡◌, ◌≤◌, length};
ghost use Rattle.mgn_ids.specs.Name.{name_in};

use crate::fault::IdFault;
use crate::name::Name;
use std::marker::Model;

/// The name of an account: 1 to 16 bytes of `A` to `Z` and `0` to `9`. Contracts see the list of the bytes.
#[derive(Clone, Copy, PartialEq, Eq, PartialOrd, Ord, Hash, Debug)]
pub struct AccountName {
    name: Name,
}

impl Model for AccountName {
    ghost use Rattle.std.specs.Prelude.{List, ℕ};

    ghost Value = { List ℕ };

    ghost view = { λ n. n.name };

    ghost inverse = { λ bytes. record { name = bytes } };
}

impl AccountName {
    /// The name that a word spells. `Syntax` where a byte is none of a name's or there is none, `Range` where there
    /// are more than 16. Takes no memory.
    pub fn read(word: &[u8]) -> Result<AccountName, IdFault>
        ensures { result ≡ name_in word.now }
    {
        let name = Name::read(word)?;
        Ok(AccountName { name })
    }

    /// The bytes of the name.
    pub fn as_bytes(&self) -> &[u8]
        ensures value { result.now ≡ self.now }
        ensures length { (1 ≤ length result.now) × (length result.now ≤ 16) }
    {
        self.name.as_bytes()
    }
}

/// The name of a contract: 1 to 16 bytes of `A` to `Z` and `0` to `9`. Contracts see the list of the bytes.
#[derive(Clone, Copy, PartialEq, Eq, PartialOrd, Ord, Hash, Debug)]
pub struct ContractName {
    name: Name,
}

impl Model for ContractName {
    ghost use Rattle.std.specs.Prelude.{List, ℕ};

    ghost Value = { List ℕ };

    ghost view = { λ n. n.name };

    ghost inverse = { λ bytes. record { name = bytes } };
}

impl ContractName {
    /// The name that a word spells. `Syntax` where a byte is none of a name's or there is none, `Range` where there
    /// are more than 16. Takes no memory.
    pub fn read(word: &[u8]) -> Result<ContractName, IdFault>
        ensures { result ≡ name_in word.now }
    {
        let name = Name::read(word)?;
        Ok(ContractName { name })
    }

    /// The bytes of the name.
    pub fn as_bytes(&self) -> &[u8]
        ensures value { result.now ≡ self.now }
        ensures length { (1 ≤ length result.now) × (length result.now ≤ 16) }
    {
        self.name.as_bytes()
    }
}

/// The name of a commodity: 1 to 16 bytes of `A` to `Z` and `0` to `9`. Contracts see the list of the bytes.
#[derive(Clone, Copy, PartialEq, Eq, PartialOrd, Ord, Hash, Debug)]
pub struct CommodityName {
    name: Name,
}

impl Model for CommodityName {
    ghost use Rattle.std.specs.Prelude.{List, ℕ};

    ghost Value = { List ℕ };

    ghost view = { λ n. n.name };

    ghost inverse = { λ bytes. record { name = bytes } };
}

impl CommodityName {
    /// The name that a word spells. `Syntax` where a byte is none of a name's or there is none, `Range` where there
    /// are more than 16. Takes no memory.
    pub fn read(word: &[u8]) -> Result<CommodityName, IdFault>
        ensures { result ≡ name_in word.now }
    {
        let name = Name::read(word)?;
        Ok(CommodityName { name })
    }

    /// The bytes of the name.
    pub fn as_bytes(&self) -> &[u8]
        ensures value { result.now ≡ self.now }
        ensures length { (1 ≤ length result.now) × (length result.now ≤ 16) }
    {
        self.name.as_bytes()
    }
}

/// The name of a collateral class: 1 to 16 bytes of `A` to `Z` and `0` to `9`. Contracts see the list of the bytes.
#[derive(Clone, Copy, PartialEq, Eq, PartialOrd, Ord, Hash, Debug)]
pub struct ClassName {
    name: Name,
}

impl Model for ClassName {
    ghost use Rattle.std.specs.Prelude.{List, ℕ};

    ghost Value = { List ℕ };

    ghost view = { λ n. n.name };

    ghost inverse = { λ bytes. record { name = bytes } };
}

impl ClassName {
    /// The name that a word spells. `Syntax` where a byte is none of a name's or there is none, `Range` where there
    /// are more than 16. Takes no memory.
    pub fn read(word: &[u8]) -> Result<ClassName, IdFault>
        ensures { result ≡ name_in word.now }
    {
        let name = Name::read(word)?;
        Ok(ClassName { name })
    }

    /// The bytes of the name.
    pub fn as_bytes(&self) -> &[u8]
        ensures value { result.now ≡ self.now }
        ensures length { (1 ≤ length result.now) × (length result.now ≤ 16) }
    {
        self.name.as_bytes()
    }
}

/// The name of an origin: 1 to 16 bytes of `A` to `Z` and `0` to `9`. Contracts see the list of the bytes.
#[derive(Clone, Copy, PartialEq, Eq, PartialOrd, Ord, Hash, Debug)]
pub struct OriginName {
    name: Name,
}

impl Model for OriginName {
    ghost use Rattle.std.specs.Prelude.{List, ℕ};

    ghost Value = { List ℕ };

    ghost view = { λ n. n.name };

    ghost inverse = { λ bytes. record { name = bytes } };
}

impl OriginName {
    /// The name that a word spells. `Syntax` where a byte is none of a name's or there is none, `Range` where there
    /// are more than 16. Takes no memory.
    pub fn read(word: &[u8]) -> Result<OriginName, IdFault>
        ensures { result ≡ name_in word.now }
    {
        let name = Name::read(word)?;
        Ok(OriginName { name })
    }

    /// The bytes of the name.
    pub fn as_bytes(&self) -> &[u8]
        ensures value { result.now ≡ self.now }
        ensures length { (1 ≤ length result.now) × (length result.now ≤ 16) }
    {
        self.name.as_bytes()
    }
}

/// The name of a parameter set: 1 to 16 bytes of `A` to `Z` and `0` to `9`. Contracts see the list of the bytes.
#[derive(Clone, Copy, PartialEq, Eq, PartialOrd, Ord, Hash, Debug)]
pub struct SetName {
    name: Name,
}

impl Model for SetName {
    ghost use Rattle.std.specs.Prelude.{List, ℕ};

    ghost Value = { List ℕ };

    ghost view = { λ n. n.name };

    ghost inverse = { λ bytes. record { name = bytes } };
}

impl SetName {
    /// The name that a word spells. `Syntax` where a byte is none of a name's or there is none, `Range` where there
    /// are more than 16. Takes no memory.
    pub fn read(word: &[u8]) -> Result<SetName, IdFault>
        ensures { result ≡ name_in word.now }
    {
        let name = Name::read(word)?;
        Ok(SetName { name })
    }

    /// The bytes of the name.
    pub fn as_bytes(&self) -> &[u8]
        ensures value { result.now ≡ self.now }
        ensures length { (1 ≤ length result.now) × (length result.now ≤ 16) }
    {
        self.name.as_bytes()
    }
}
