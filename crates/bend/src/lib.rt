// The bend of a curve byte, read from the chart.
#![tactic(auto)]

ghost use Rattle.std.specs.Prelude.{◌≡◌, ◌<◌, get_or};
ghost use Rattle.std.specs.Float.{nan};
ghost use Rattle.bends.specs.Formula.{Charted};

use bends::chart;

// Number k of a row. Each arm reads a place that is known when this is compiled, and so does each arm of `bend`: the
// compiler then makes a table of them that is read in place, and no copy of the chart for each call.
fn in_row(row: [f32; 16], k: u8) -> f32
    requires { k < 16 }
    ensures { result ≡ get_or row k nan }
{
    match k {
        0 => row[0],
        1 => row[1],
        2 => row[2],
        3 => row[3],
        4 => row[4],
        5 => row[5],
        6 => row[6],
        7 => row[7],
        8 => row[8],
        9 => row[9],
        10 => row[10],
        11 => row[11],
        12 => row[12],
        13 => row[13],
        14 => row[14],
        _ => row[15],
    }
}

pub fn bend(curve: u8) -> f32
    ensures { Charted curve result }
{
    let rows = chart();
    let k = curve % 16;
    match curve / 16 {
        0 => in_row(rows[0], k),
        1 => in_row(rows[1], k),
        2 => in_row(rows[2], k),
        3 => in_row(rows[3], k),
        4 => in_row(rows[4], k),
        5 => in_row(rows[5], k),
        6 => in_row(rows[6], k),
        7 => in_row(rows[7], k),
        8 => in_row(rows[8], k),
        9 => in_row(rows[9], k),
        10 => in_row(rows[10], k),
        11 => in_row(rows[11], k),
        12 => in_row(rows[12], k),
        13 => in_row(rows[13], k),
        14 => in_row(rows[14], k),
        _ => in_row(rows[15], k),
    }
}
