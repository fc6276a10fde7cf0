// The styles and the foot of a page, and the head of a sheet.
#![tactic(auto)]

ghost use Rattle.text.specs.Text.{Puts};
ghost use Rattle.page_head.specs.Head.{style_text, head_text, foot_text};

use compared_blocks::BLOCK;
use provenance::{put_file, put_name};
use text::{Writer, put};

// ---- head
pub fn put_style(out: &mut Writer)
    ensures { Puts out.old style_text out.new }
{
    put(
        out,
        b"<svg xmlns='http://www.w3.org/2000/svg' width='297mm' height='210mm' viewBox='0 0 29700 21000'>\n<style>@page{size:A4 landscape;margin:0}text{font:260px Helvetica,Arial,sans-serif}.h{font-size:360px}.n{font-size:560px;font-weight:bold}.t{font-size:360px;font-weight:bold}.d{font-size:280px}.b{font-weight:bold}.m{font-size:240px;text-anchor:middle}path,polyline{fill:none;stroke:#000}.f{stroke-width:15}.r{stroke-width:12;stroke-dasharray:80 60}.v{stroke-width:8}.c{stroke-width:32;stroke-linejoin:round}.u{stroke:#999;stroke-width:70;stroke-linejoin:round}.g{fill:#bbb;stroke-width:20}</style>\n<rect width='29700' height='21000' fill='#fff'/>\n",
    )
}

pub fn put_head(out: &mut Writer, file: &[u8], block: &[u8; BLOCK])
    ensures { Puts out.old (head_text file.now block.now) out.new }
{
    put(out, b"<title>");
    put_name(out, file, block);
    put(
        out,
        b"</title>\n<text class='h' x='1150' y='1450'>DeepMind 12 program</text><text class='n' x='5500' y='1450'>",
    );
    put_name(out, file, block);
    put(out, b"</text><path class='f' d='M1150 1750H28550'/>\n")
}

// ---- foot
pub fn put_foot(out: &mut Writer, file: &[u8], block: &[u8])
    ensures { Puts out.old (foot_text file.now block.now) out.new }
{
    put(
        out,
        b"<text x='1150' y='20200'>Bold: the bytes to dial in, 0 to 255. A, D, S, R: attack, decay, sustain, release. Dashed: the rest level. May start anywhere: a cycle that runs on, drawn from its start. Each bar is struck anew. A frame is 50 mm by 25 mm.</text>\n<text x='1150' y='20540'>",
    );
    put_file(out, file, block);
    put(
        out,
        b". All 242 parameters are on a page of their own: juvrada parameters.</text>\n</svg>\n",
    )
}
