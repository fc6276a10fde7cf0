// The panel of the arpeggio's gates: the last of a page.
#![tactic(auto)]

ghost use Rattle.text.specs.Text.{Puts};
ghost use Rattle.code_bytes.specs.Bytes.{byte_at, gates_byte};
ghost use Rattle.panel_gates.specs.GateText.{gate_text};
ghost use Rattle.arpeggio_panel.specs.Arpeggio.{arpeggio_text};

use code_bytes::{GATE_TIME, byte_at};
use panel_frame::{put_end, put_frame, put_place, put_title};
use panel_gates::put_gate;
use text::Writer;

// What is drawn, from the byte of both blocks.
fn put_gates(out: &mut Writer, older: &[u8], block: &[u8])
    ensures { Puts out.old (gate_text (byte_at older.now gates_byte) (byte_at block.now gates_byte)) out.new }
{
    let was = byte_at(older, GATE_TIME);
    let time = byte_at(block, GATE_TIME);
    put_gate(out, was, time);
}

// The panel of the gates, from the byte of both blocks.
pub fn put_arpeggio(out: &mut Writer, older: &[u8], block: &[u8])
    ensures { Puts out.old (arpeggio_text (byte_at older.now gates_byte) (byte_at block.now gates_byte)) out.new }
{
    put_place(out, 14);
    put_title(out, 14);
    put_gates(out, older, block);
    put_frame(out);
    dial_lines::put_dial(out, b"Gate time", older, block, GATE_TIME);
    put_end(out);
}
