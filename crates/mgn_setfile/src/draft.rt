//! A set as far as its file is read, and as it was read.

use crate::rows::Rows;
use mgn_params::ParamSet;

/// The version of the file, 1 or 2, and the rows of the records so far.
#[derive(Drop)]
pub(crate) struct Draft {
    pub version: u64,
    pub set: Rows,
}

/// The set of a file, with the version of the format that its header names, 1 or 2.
#[derive(Drop)]
pub struct SetFile {
    pub version: u64,
    pub set: ParamSet,
}
