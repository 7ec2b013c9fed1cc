//! Tables that are made once, with the memory for all that they ever keep.

ghost use Rattle.std.specs.Prelude.{◌≡◌, ◌+◌, ◌≤◌, ◌++◌, length, replicate, IfOk, vec_capacity, vec_len};

use std::alloc::{AllocError, Global};

/// A table of so many equal rows, in memory for so many rows in all and for no more.
pub fn copies<T: Copy>(
    alloc: Global,
    row: T,
    count: usize,
    room: usize,
) -> Result<Vec<T>, AllocError>
    requires { count ≤ room }
    ensures rows { IfOk result (λ table. table.items ≡ replicate count row) }
    ensures room { IfOk result (λ table. vec_capacity table ≡ room) }
{
    let mut table = Vec::with_capacity(alloc, room)?;
    add_copies(&mut table, row, count);
    Ok(table)
}

/// Adds so many equal rows at the end, for which there is room. It takes no memory.
pub fn add_copies<T: Copy>(table: &mut Vec<T>, row: T, count: usize)
    requires { vec_len table.old + count ≤ vec_capacity table.old }
    ensures rows { table.new.items ≡ table.old.items ++ replicate count row }
    ensures room { vec_capacity table.new ≡ vec_capacity table.old }
{
    for _ in 0..count {
        table.push_reserved(row);
    }
}

/// Adds these rows at the end, for which there is room. It takes no memory.
pub fn add_rows<T: Copy>(table: &mut Vec<T>, rows: &[T])
    requires { vec_len table.old + length rows.now ≤ vec_capacity table.old }
    ensures rows { table.new.items ≡ table.old.items ++ rows.now }
    ensures room { vec_capacity table.new ≡ vec_capacity table.old }
{
    for row in rows {
        table.push_reserved(*row);
    }
}

/// The rows are then these, for which there is room. It takes no memory.
pub fn replace_rows<T: Copy + Drop>(table: &mut Vec<T>, rows: &[T])
    requires { length rows.now ≤ vec_capacity table.old }
    ensures rows { table.new.items ≡ rows.now }
    ensures room { vec_capacity table.new ≡ vec_capacity table.old }
{
    let common = table.len().min(rows.len());
    table.truncate(common);
    table.copy_from_slice(&rows[..common]);
    add_rows(table, &rows[common..]);
}
