// All 242 parameters of a program as one page of SVG, A4 landscape: four columns of number, name and byte.
#![tactic(auto)]

ghost use Rattle.std.specs.Prelude.{◌≡◌, length};
ghost use Rattle.text.specs.Text.{Puts};
ghost use Rattle.code_bytes.specs.Bytes.{block_length};
ghost use Rattle.parameters_page.specs.ParametersPage.{style_text, head_text, foot_text, parameters_of, parameters_text, page_answer};

use drawn_bytes::BYTES;
use parameter_rows::put_rows;
use provenance::{put_file, put_name};
use refusals::Refusal;
use text::{Writer, put};

// ---- head and foot
fn put_style(out: &mut Writer)
    ensures { Puts out.old style_text out.new }
{
    put(
        out,
        b"<svg xmlns='http://www.w3.org/2000/svg' width='297mm' height='210mm' viewBox='0 0 29700 21000'>\n\
          <style>@page{size:A4 landscape;margin:0}text{font:250px Helvetica,Arial,sans-serif}\
          .h{font-size:360px}.n{font-size:560px;font-weight:bold}.k{text-anchor:end;fill:#444}\
          .b{text-anchor:end;font-weight:bold}.m{font-size:260px}path{stroke:#000;stroke-width:15}\
          .z{stroke:#eee;stroke-width:6100;stroke-dasharray:290}</style>\n\
          <rect width='29700' height='21000' fill='#fff'/>\n\
          <path class='z' d='M4200 1900V19590'/><path class='z' d='M11300 1900V19590'/>\
          <path class='z' d='M18400 1900V19590'/><path class='z' d='M25500 1900V19010'/>\n",
    )
}

fn put_head(out: &mut Writer, file: &[u8], block: &[u8])
    requires { length block.now ≡ block_length }
    ensures { Puts out.old (head_text file.now block.now) out.new }
{
    put(out, b"<title>");
    put_name(out, file, block);
    put(
        out,
        b", parameters</title>\n<text class='h' x='1150' y='1450'>DeepMind 12 parameters</text><text class='n' x='6000' y='1450'>",
    );
    put_name(out, file, block);
    put(out, b"</text><path d='M1150 1750H28550'/>\n");
}

fn put_foot(out: &mut Writer, file: &[u8], block: &[u8])
    ensures { Puts out.old (foot_text file.now block.now) out.new }
{
    put(
        out,
        b"<text class='m' x='1150' y='20200'>Number, name and, in bold, the byte to dial in, 0 to 255. A dot: the sheet draws a curve from it.</text>\n<text class='m' x='1150' y='20540'>",
    );
    put_file(out, file, block);
    put(
        out,
        b". The curves are on the sheet: juvrada sheet.</text>\n</svg>\n",
    );
}

// ---- the whole
fn put_page(out: &mut Writer, file: &[u8], block: &[u8])
    requires { length block.now ≡ block_length }
    ensures { Puts out.old (parameters_of file.now block.now) out.new }
{
    put_style(out);
    put_head(out, file, block);
    put_rows(out, block);
    put_foot(out, file, block);
}

// Puts the page of a block's parameters. `file` is the name of the block's file. Of a block of another length nothing is put.
pub fn page(out: &mut Writer, file: &[u8], block: &[u8]) -> Result<(), Refusal>
    ensures text { Puts out.old (parameters_text file.now block.now) out.new }
    ensures answer { result ≡ page_answer block.now }
{
    if block.len() != BYTES as usize {
        return Err(Refusal::Block);
    }
    put_page(out, file, block);
    Ok(())
}
