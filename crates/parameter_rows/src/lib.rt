// The rows of the page of all parameters: number, name and byte.
#![tactic(auto)]

ghost use Rattle.std.specs.Prelude.{◌≡◌, length};
ghost use Rattle.text.specs.Text.{Puts};
ghost use Rattle.code_bytes.specs.Bytes.{byte_at, block_length};
ghost use Rattle.parameter_rows.specs.Rows.{row_text, rows_text};

use drawn_bytes::BYTES;
use parameter_cells::{put_cells, put_dot, put_rule};
use parameter_places::put_place;
use text::Writer;

fn put_row(out: &mut Writer, n: u8, b: u8)
    ensures { Puts out.old (row_text n b) out.new }
{
    put_place(out, n);
    put_rule(out, n);
    put_dot(out, n);
    put_cells(out, n, b);
}

pub fn put_rows(out: &mut Writer, block: &[u8])
    requires { length block.now ≡ block_length }
    ensures { Puts out.old (rows_text block_length (byte_at block.now)) out.new }
{
    for n in 0..BYTES {
        put_row(out, n, block[n as usize]);
    }
}
