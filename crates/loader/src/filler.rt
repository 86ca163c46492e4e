// The loader's second pass: the cells of an image that the first pass has found good.
ghost use Rattle.std.specs.Prelude.{◌≡◌, ◌≤◌, length};
ghost use Rattle.laws.specs.Lists.{put};
ghost use Rattle.loader.specs.Faults.{walk_of};
ghost use Rattle.loader.specs.Load.{first_table, tables_codes, Fillable, Copied};

use super::{Fault, number_at};

// The version, m and n of a good image take one byte each.
const FIRST_TABLE: usize = 3;

// Copies as many numbers as cells are lent, as their codes; it ends where one is refused.
fn copy_codes(s: &[u8], at: usize, out: &mut [u64]) -> Result<usize, Fault>
    ensures { Copied (length out.old) s.now at out.old (walk_of result) out.new }
{
    let mut i = at;
    for cell in out.iter_mut() {
        let code = number_at(s, i)?;
        *cell = code.value;
        i = code.next;
    }
    Ok(i)
}

// Fills the front of the cells with the codes of n tables.
// Scheme and count are read again and passed over; that all can be read, and has room, is known from the first pass.
pub fn fill(s: &[u8], n: usize, cells: &mut [u64])
    requires { Fillable s.now (length cells.old) n 0 first_table }
    ensures { cells.new ≡ put (tables_codes n s.now first_table) cells.old }
{
    let mut i = FIRST_TABLE;
    let mut used: usize = 0;
    for _ in 0..n {
        let scheme = number_at(s, i).unwrap();
        let rows = number_at(s, scheme.next).unwrap();
        let end = used + (rows.value as usize) * tables::width(scheme.value);
        i = copy_codes(s, rows.next, &mut cells[used..end]).unwrap();
        used = end;
    }
}
