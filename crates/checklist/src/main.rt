// The checklist: five rows that a drawing of curves goes wrong by. The rows are proved libraries; this program reads the list of the last row from standard input, and prints. The last
// line says whether all rows pass.
#![tactic(auto)]

mod report;

ghost use Rattle.std.specs.Prelude.{◌≡◌, length};

use checklist_rows::{both_edges, both_slews, empty_program, every_shape_byte};
use program_input::read_full;
use std::io;
use std::io::Read;
use trials::Row;

// Room for the list. The contract gives its length only, which lending it as a slice asks for.
fn room() -> [u8; 262144]
    ensures { 262144 ≡ length result }
{
    [0; 262144]
}

// A list that does not fit fails, as a row that tried nothing.
fn exact_row<R: Read>(input: &mut R) -> io::Result<Row> {
    let mut text = room();
    let n = read_full(input, &mut text)?;
    if n == 262144 {
        return Ok(trials::start());
    }
    Ok(exact_heights::exact_row(&text[..n]))
}

fn main(rt: HostRuntime) -> io::Result<()> {
    rt.write_all(b"row                      verdict  values\n")?;
    let empty = report::print_row(&rt, b"empty program            ", empty_program())?;
    let shapes = report::print_row(&rt, b"every shape byte         ", every_shape_byte())?;
    let edges = report::print_row(&rt, b"both edges of the paper  ", both_edges())?;
    let slews = report::print_row(&rt, b"slew at 1 and at 255     ", both_slews())?;
    let row = exact_row(&mut rt.stdin())?;
    let exact = report::print_row(&rt, b"ruler against formula    ", row)?;
    let failing = [empty, shapes, edges, slews, exact]
        .iter()
        .filter(|fails| **fails)
        .count();
    report::print_verdict(&rt, failing)
}
