// A mark on a panel: a rule through the frame, with what is at it.
#![tactic(auto)]

ghost use Rattle.std.specs.Prelude.{◌<◌};
ghost use Rattle.text.specs.Text.{Puts};
ghost use Rattle.mark_rules.specs.Rules.{kind_text, rule_text, label_text, mark_text};

use fixed_point::nearest;
use marks::{Mark, MarkKind, kind_number};
use numerals::put_decimal;
use text::{Writer, put};
use words::put_word;

fn put_kind(out: &mut Writer, kind: MarkKind)
    ensures { Puts out.old (kind_text kind) out.new }
{
    put_word(
        out,
        b" dx='50'>A</text>| dx='50'>D</text>| dx='50'>S</text>| dx='50'>R</text>| class='m'>corner</text>| class='m'>cycle</text>| class='m'>tap</text>| class='m'>width</text>| class='m'>sweep</text>",
        kind_number(kind) as usize,
    )
}

fn put_rule(out: &mut Writer, row: usize, across: u64)
    requires { row < 8 }
    ensures { Puts out.old (rule_text row across) out.new }
{
    put(out, b"<path class='v' d='M");
    put_decimal(out, across);
    put(out, b"-2500V");
    put_decimal(out, 40 + 230 * row as u64);
    put(out, b"'/>");
}

fn put_label(out: &mut Writer, row: usize, across: u64, kind: MarkKind)
    requires { row < 8 }
    ensures { Puts out.old (label_text row across kind) out.new }
{
    put(out, b"<text x='");
    put_decimal(out, across);
    put(out, b"' y='");
    put_decimal(out, 220 + 230 * row as u64);
    put(out, b"'");
    put_kind(out, kind);
}

pub fn put_mark(out: &mut Writer, row: usize, mark: Mark)
    requires { row < 8 }
    ensures { Puts out.old (mark_text row mark) out.new }
{
    let across = nearest(mark.at, 5000);
    put_rule(out, row, across);
    put_label(out, row, across, mark.kind);
}
