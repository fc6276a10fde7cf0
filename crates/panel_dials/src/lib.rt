// What stands around the curve of a code's panel: the title, the frame, and the lines that say what to dial in.
#![tactic(auto)]

ghost use Rattle.text.specs.Text.{Puts};
ghost use Rattle.code_bytes.specs.Bytes.{byte_at};
ghost use Rattle.panel_dials.specs.Rest.{panel_rest};

use codes::Code;
use dials::put_dials;
use panel_frame::{put_end, put_frame, put_title};
use text::Writer;

// The rest of panel k, after its curve.
pub fn end_panel(out: &mut Writer, older: &[u8], block: &[u8], k: u8, code: Code)
    ensures { Puts out.old (panel_rest (byte_at older.now) (byte_at block.now) k code) out.new }
{
    put_title(out, k);
    put_frame(out);
    put_dials(out, older, block, code);
    put_end(out);
}
