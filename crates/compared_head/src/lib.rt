// The head of a page that holds two programs against each other.
#![tactic(auto)]

ghost use Rattle.text.specs.Text.{Puts};
ghost use Rattle.compared_head.specs.Compared.{compared_title, side_text, compared_head};

use compared_blocks::{BLOCK, Blocks};
use provenance::{put_file, put_name};
use text::{Writer, put};

fn put_compared_title(out: &mut Writer, oldfile: &[u8], file: &[u8], blocks: Blocks)
    ensures { Puts out.old (compared_title oldfile.now blocks.entry.old.now file.now blocks.entry.new.now) out.new }
{
    let Blocks { old, new } = blocks;
    put(out, b"<title>Comparison of ");
    put_name(out, oldfile, old);
    put(out, b" and ");
    put_name(out, file, new);
    put(
        out,
        b"</title>\n<style>.w{font-size:200px;fill:#555}.s{font-size:240px}.s .b{font-size:280px}.n .h{font-weight:normal}</style>\n",
    )
}

// One of the two programs, after its start.
fn put_side(out: &mut Writer, start: &[u8], file: &[u8], block: &[u8; BLOCK])
    ensures { Puts out.old (side_text start.now file.now block.now) out.new }
{
    put(out, start);
    put_name(out, file, block);
    put(out, b"<tspan class='h' dx='400'>");
    put_file(out, file, block);
    put(out, b"</tspan></text>");
}

pub fn put_compared_head(out: &mut Writer, oldfile: &[u8], file: &[u8], blocks: Blocks)
    ensures { Puts out.old (compared_head oldfile.now blocks.entry.old.now file.now blocks.entry.new.now) out.new }
{
    let Blocks { old, new } = blocks;
    put_compared_title(out, oldfile, file, blocks);
    put_side(
        out,
        b"<text class='h' x='1150' y='950'>DeepMind 12 comparison</text><text class='h' x='5700' y='950'>old</text><text class='n' x='6500' y='950'>",
        oldfile,
        old,
    );
    put_side(
        out,
        b"<text class='h' x='5700' y='1560'>new</text><text class='n' x='6500' y='1560'>",
        file,
        new,
    );
    put(
        out,
        b"<path class='f' d='M1150 1750H28550'/><path class='u' d='M1150 1960H1750'/><text x='1850' y='2030'>grey: the old program, where its curve or gate differs. <tspan class='w'>was</tspan> in small: its byte, where that differs. Bytes that are not on this page may differ too: juvrada compare lists them.</text>\n",
    )
}
