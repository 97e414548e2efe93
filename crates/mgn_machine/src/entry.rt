use crate::reply::Reply;
use crate::request::Recorded;
use mgn_ids::SessionNo;

/// One committed request, as contracts see it in the history.
#[derive(Drop)]
pub struct Entry {
    /// The session that asked.
    pub session: SessionNo,
    /// The number of the request among those of its session, from 1.
    pub number: u64,
    /// What was asked.
    pub request: Recorded,
    /// What was answered.
    pub reply: Reply,
}

/// One answered request, as the session that asked sees it.
#[derive(Drop)]
pub struct Item {
    /// The place of its entry in the history, from 1.
    pub place: u64,
    /// What was asked.
    pub request: Recorded,
    /// What was answered.
    pub reply: Reply,
}
