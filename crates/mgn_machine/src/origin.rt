use mgn_ids::OriginName;

/// An origin: a group of accounts of one kind, as customers or the house.
#[derive(Clone, Copy)]
pub struct Origin {
    /// Its name.
    pub name: OriginName,
    /// The margin unit of all its accounts, where it is netted; none where each account is a unit of its own.
    pub unit: Option<usize>,
}
