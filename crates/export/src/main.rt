#![tactic(auto)]

// The program `export TABLE`: reads an image from standard input and writes one of its tables, numbered from 0, as comma-separated text.
// An image that is refused, or a table that it lacks, is told on standard error, and nothing is written.
use loader::Fault;
use refusals::Refusal;
use tables::Tables;

// The most bytes that are read.
const MOST_INPUT: usize = 65536;

// Why no text is written: arguments that name no table, an input that is too long, or a refusal and the place in the image at which it is met, or 0.
#[derive(Drop)]
enum Failure {
    WrongArguments,
    LongInput,
    Refused(Refusal, usize),
}

impl From<Fault> for Failure {
    fn from(fault: Fault) -> Failure {
        Failure::Refused(fault.refusal, fault.place)
    }
}

impl From<Refusal> for Failure {
    fn from(refusal: Refusal) -> Failure {
        Failure::Refused(refusal, 0)
    }
}

// Writes a table of which these are the cells.
// The buffer is made here, behind every refusal of the image, so that it is not there before.
fn write_table(
    rt: &HostRuntime,
    m: usize,
    scheme: u64,
    rows: usize,
    cells: &[u64],
) -> Result<(), Failure> {
    let mut out = [0u8; 262144];
    let length = exporter::write_text(m, scheme, rows, cells, &mut out)?;
    teller::send(rt, &out, length);
    Ok(())
}

// Writes a table of an image.
// The catalogue is checked again, so that the table's cells are known to lie among those that were lent.
fn export_image(rt: &HostRuntime, image: &[u8], table: usize) -> Result<(), Failure> {
    let mut cells = [0u64; 8192];
    let cat = loader::load(image, &mut cells)?;
    let tables = Tables::new(cat, &cells)?;
    if cat.n <= table {
        return Err(Failure::WrongArguments);
    }
    let scheme = cat.schemes[table];
    let rows = usize::from(cat.rows[table]);
    write_table(rt, cat.m, scheme, rows, tables.cells_of(table))
}

// Reads standard input as an image and writes a table of it.
fn export_table(rt: &HostRuntime, table: usize) -> Result<(), Failure> {
    let mut input = [0u8; MOST_INPUT + 1];
    let n = teller::read_full(&mut rt.stdin(), &mut input);
    if MOST_INPUT < n {
        return Err(Failure::LongInput);
    }
    export_image(rt, &input[..n], table)
}

// Writes the table that the argument names.
fn export(rt: &HostRuntime) -> Result<(), Failure> {
    if teller::arg_count(rt) != 2 {
        return Err(Failure::WrongArguments);
    }
    let mut word = [0u8; 64];
    let n = teller::arg(rt, 1, &mut word);
    let table = lines::read_decimal(&word[..n]).ok_or(Failure::WrongArguments)?;
    export_table(rt, table as usize)
}

// Exports, or tells on standard error why nothing is written.
fn main(rt: HostRuntime) {
    match export(&rt) {
        Ok(()) => {}
        Err(Failure::WrongArguments) => teller::say(&rt, b"usage: export TABLE\n"),
        Err(Failure::LongInput) => teller::say(&rt, b"input too long\n"),
        Err(Failure::Refused(refusal, place)) => {
            teller::tell(&rt, &[u64::from(refusal), place as u64]);
        }
    }
}
