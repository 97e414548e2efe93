use std::marker::Brand;

/// Which table of sets is meant. A caller that makes a table picks it, at `Brand`, so that types which never meet can speak of
/// the same one.
pub trait TableName {
    ghost use Rattle.boxcar.specs.Table.{Shelves};

    ghost table: { Shelves };
}

impl TableName for Brand {
    ghost use Rattle.std.specs.Prelude.{[]};

    ghost table = { record { tag = []; buckets = [] } };
}
