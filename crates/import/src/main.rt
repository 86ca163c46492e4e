#![tactic(auto)]

// The program `import M FILE..`: reads a table of attributes below M from each file of comma-separated text, and writes the image of them all to standard output.
// Else nothing is written there. The first file that is refused is told on standard error with its number, line and field; then the tables together.
ghost use Rattle.std.specs.Prelude.{◌≤◌};

use importer::Table;
use refusals::Refusal;
use std::fs::File;
use tables::Catalogue;

// The most bytes that are read of a file.
const MOST_TEXT: usize = 262144;

// The most rows that a table may have.
const MOST_ROWS: u64 = 4095;

// Why no image is written: wrong arguments, a file of which it is told already why it gives no table, or a refusal of the tables together.
#[derive(Drop)]
enum Failure {
    WrongArguments,
    NoTable,
    Refused(Refusal),
}

impl From<Refusal> for Failure {
    fn from(refusal: Refusal) -> Failure {
        Failure::Refused(refusal)
    }
}

// Tells what is wrong with a file, and that it gives no table.
fn no_table(rt: &HostRuntime, path: &[u8], why: &[u8]) -> Failure {
    teller::say(rt, path);
    teller::say(rt, why);
    Failure::NoTable
}

// Reads a file as text, one table into the front of the cells. Where there is none, what was wrong is told.
// Files are opened by names that are text, so one that is not UTF-8 is told.
fn table_of(rt: &HostRuntime, m: usize, path: &[u8], cells: &mut [u64]) -> Result<Table, Failure> {
    let Ok(name) = std::str::from_utf8(path) else {
        return Err(no_table(rt, path, b": name is not UTF-8\n"));
    };
    let mut file = match File::open(rt, name) {
        Ok(file) => file,
        Err(error) => {
            teller::fail(rt, path, &error);
            return Err(Failure::NoTable);
        }
    };
    let mut text = [0u8; MOST_TEXT + 1];
    let n = teller::read_full(&mut file, &mut text);
    drop(file);
    if MOST_TEXT < n {
        return Err(no_table(rt, path, b": input too long\n"));
    }
    match importer::read_text(m, &text[..n], cells) {
        Ok(table) => Ok(table),
        Err(fault) => {
            let failure = no_table(rt, path, b": ");
            teller::tell(
                rt,
                &[
                    u64::from(fault.refusal),
                    fault.line as u64,
                    fault.field as u64,
                ],
            );
            Err(failure)
        }
    }
}

// Writes the image of the tables.
// The buffer is made here, behind the reading of the files, so that it is not there before.
fn write_image(rt: &HostRuntime, cat: Catalogue, cells: &[u64]) -> Result<(), Failure> {
    let mut out = [0u8; 131072];
    let length = writer::write(cat, cells, &mut out)?;
    teller::send(rt, &out, length);
    Ok(())
}

// Reads the files that the arguments from the third on name, a table each, and writes their image.
fn import_files(rt: &HostRuntime, m: usize, files: usize) -> Result<(), Failure>
    requires { files ≤ 8 }
{
    let mut cells = [0u64; 8192];
    let mut schemes = [0u64; 8];
    let mut rows = [0u16; 8];
    let mut used = 0;
    for t in 0..files {
        let mut path = [0u8; 4096];
        let k = teller::arg(rt, t + 2, &mut path);
        let table = table_of(rt, m, &path[..k], &mut cells[used..])?;
        used = tables::check_count(
            MOST_ROWS,
            cells.len(),
            used,
            table.scheme,
            table.rows as u64,
        )?;
        schemes[t] = table.scheme;
        rows[t] = table.rows as u16;
    }
    let cat = tables::make_catalogue(m, files, schemes, rows)?;
    write_image(rt, cat, &cells)
}

// Writes the image of the tables that the arguments name.
// More files than there can be tables are refused before one is read.
fn import(rt: &HostRuntime) -> Result<(), Failure> {
    let count = teller::arg_count(rt);
    if count < 2 {
        return Err(Failure::WrongArguments);
    }
    if 10 < count {
        return Err(Failure::Refused(Refusal::SizesOut));
    }
    let mut word = [0u8; 64];
    let n = teller::arg(rt, 1, &mut word);
    let m = lines::read_decimal(&word[..n]).ok_or(Failure::WrongArguments)?;
    import_files(rt, m as usize, count - 2)
}

// Imports, or tells on standard error why nothing is written.
fn main(rt: HostRuntime) {
    match import(&rt) {
        Ok(()) | Err(Failure::NoTable) => {}
        Err(Failure::WrongArguments) => teller::say(&rt, b"usage: import M FILE..\n"),
        Err(Failure::Refused(refusal)) => teller::tell(&rt, &[u64::from(refusal)]),
    }
}
