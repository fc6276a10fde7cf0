// The chart of bends as one page of SVG, A4 landscape: a cell for each of the 256 curve bytes.
#![tactic(auto)]

ghost use Rattle.text.specs.Text.{Puts};
ghost use Rattle.chart_page.specs.ChartPage.{head_text, cells_text, chart_text};

use chart_cells::put_cell;
use text::{Writer, put};

// Styles; what the page is, how to read it, and how good a bend is; every other row on grey, and a rule where the bend has doubled.
fn put_head(out: &mut Writer)
    ensures { Puts out.old head_text out.new }
{
    put(
        out,
        b"<svg xmlns='http://www.w3.org/2000/svg' width='297mm' height='210mm' viewBox='0 0 29700 21000'>\n\
          <style>@page{size:A4 landscape;margin:0}text{font:390px Helvetica,Arial,sans-serif}\
          .c{font-size:370px;font-weight:bold}.h{font-size:560px;font-weight:bold}.m{font-size:320px}\
          path{stroke:#000;stroke-width:30}.z{stroke:#e8e8e8;stroke-width:28300;stroke-dasharray:1190}</style>\n\
          <title>Bends of the curve bytes</title>\n\
          <rect width='29700' height='21000' fill='#fff'/>\n\
          <text class='h' x='700' y='1130'>Bends of the curve bytes</text>\
          <text class='m' x='9000' y='760'>In bold the curve byte c; below it its bend, rounded to six places, and the bits of the f32. From rule to rule the bend doubles.</text>\
          <text class='m' x='9000' y='1180'>The f32 differs from 2^((c - 128) / 64) by at most one part in 1,048,576 of that.</text>\n\
          <path class='z' d='M14850 1400V20440'/>\
          <path d='M700 1400H29000M700 6160H29000M700 10920H29000M700 15680H29000M700 20440H29000'/>\n",
    )
}

fn put_cells(out: &mut Writer)
    ensures { Puts out.old (cells_text 256) out.new }
{
    for c in 0..256u16 {
        put_cell(out, c as u8);
    }
}

// Puts the page.
pub fn page(out: &mut Writer)
    ensures { Puts out.old chart_text out.new }
{
    put_head(out);
    put_cells(out);
    put(out, b"</svg>\n");
}
