//! Where the rows of a list stand among those that are kept.

ghost use Rattle.std.specs.Prelude.{◌≡◌, ◌<◌, length, slice_index};
ghost use Rattle.std.specs.Vec.{vec_capacity};
ghost use Rattle.mgn_rows.specs.Rows.{ArePlaces, listed};

// Keeps a row from now on, as it is, unless it is kept already.
pub(crate) fn keep<T: Copy>(places: &mut Vec<u16>, kept: &mut Vec<T>, i: usize)
    requires places { ArePlaces places.old.items (length kept.old.items) (vec_capacity kept.old) }
    requires row { i < length places.old.items }
    ensures places { ArePlaces places.new.items (length kept.new.items) (vec_capacity kept.new) }
    ensures kept { 0 < slice_index places.new.items i }
    ensures same { listed places.new.items kept.new.items ≡ listed places.old.items kept.old.items }
    ensures long { length places.new.items ≡ length places.old.items }
{
    if places[i] == 0 {
        let value = kept[0];
        places[i] = kept.len() as u16;
        kept.push_reserved(value);
    }
}
