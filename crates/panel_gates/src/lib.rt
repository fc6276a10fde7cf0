// What is drawn in the panel of the gates, over an older gate where they differ.
#![tactic(auto)]

ghost use Rattle.std.specs.Prelude.{◌<◌};
ghost use Rattle.text.specs.Text.{Puts};
ghost use Rattle.panel_gates.specs.GateText.{older_gate, gate_text};

use gates::arpeggiator_gates;
use text::{Writer, put};

// ---- the arpeggio's
fn put_older_gate(out: &mut Writer, was: u8, time: u8)
    ensures { Puts out.old (older_gate was time) out.new }
{
    if was != time {
        panel_bars::put_older_bars(out, arpeggiator_gates(was));
    }
}

// What is drawn of the gates.
pub fn put_gate(out: &mut Writer, was: u8, time: u8)
    ensures { Puts out.old (gate_text was time) out.new }
{
    put(
        out,
        b"<text y='-2600'>4 steps, starts at the left edge</text>",
    );
    put_older_gate(out, was, time);
    panel_bars::put_bars(out, arpeggiator_gates(time));
    panel_bars::put_steps(out);
}
