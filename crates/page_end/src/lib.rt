// What follows the codes' panels on a page: the arpeggio's panel, and the foot.
#![tactic(auto)]

ghost use Rattle.text.specs.Text.{Puts};
ghost use Rattle.page_end.specs.End.{page_end};

use arpeggio_panel::put_arpeggio;
use page_head::put_foot;
use text::Writer;

pub fn end_page(out: &mut Writer, file: &[u8], older: &[u8], block: &[u8])
    ensures { Puts out.old (page_end file.now older.now block.now) out.new }
{
    put_arpeggio(out, older, block);
    put_foot(out, file, block);
}
