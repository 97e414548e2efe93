//! Rows of equal values, as tables start and as they are made flat again.

ghost use Rattle.std.specs.Prelude.{◌≡◌, length, replicate, IfOk};

use std::alloc::{AllocError, Global};

/// A row of so many equal values. The only error is that memory was refused.
pub fn filled<T: Copy>(alloc: Global, count: usize, value: T) -> Result<Vec<T>, AllocError>
    ensures { IfOk result (λ row. row.items ≡ replicate count value) }
{
    let mut row = Vec::new(alloc);
    row.resize(count, value)?;
    Ok(row)
}

/// Writes one value at each place of a row.
pub fn fill<T: Copy>(row: &mut Vec<T>, value: T)
    ensures { row.new.items ≡ replicate (length row.old.items) value }
{
    for place in row.iter_mut() {
        *place = value;
    }
}
