// The writer's second pass: the image of tables that the first pass has found good, into bytes that have room for it.
ghost use Rattle.std.specs.Prelude.{◌≡◌, false, ◌+◌, ◌≤◌, length};
ghost use Rattle.laws.specs.Lists.{put, Placed};
ghost use Rattle.writer.specs.Write.{encodes, image_of, too_high, write_fault};

use crate::runs;
use tables::Tables;

// Writes a run of numbers from a place on, and gives the place behind it.
// The number writer is lent the output from there on, and fills the front of that part.
fn put_run(numbers: &[u64], out: &mut [u8], start: usize) -> usize
    requires { (too_high numbers.now ≡ false) × (start + length (encodes numbers.now) ≤ length out.old) }
    ensures { Placed (encodes numbers.now) start out.old result out.new }
{
    let mut at = start;
    for x in numbers {
        at += numbers::write(&mut out[at..], *x);
    }
    at
}

// Writes the whole image: its head, then table by table.
pub fn put_image(tables: &Tables<'_>, out: &mut [u8])
    requires { let image = image_of tables.now.catalogue tables.now.cells.now in
        (write_fault tables.now.catalogue tables.now.cells.now ≡ 0) × (length image ≤ length out.old) }
    ensures { out.new ≡ put (image_of tables.now.catalogue tables.now.cells.now) out.old }
{
    let mut at = put_run(&runs::head(tables), out, 0);
    for t in 0..tables.catalogue.n {
        at = put_run(&runs::table_head(tables, t), out, at);
        at = put_run(tables.cells_of(t), out, at);
    }
}
