// Writes the chart of bends on standard output.
#![tactic(auto)]

ghost use Rattle.std.specs.Prelude.{◌≡◌, length};

use std::io;
use text::Writer;

// Room for the page, which has some 40,000 bytes. The contract gives its length only, which lending it as a slice asks for.
fn buffer() -> [u8; 65536]
    ensures { 65536 ≡ length result }
{
    [0; 65536]
}

fn main(rt: HostRuntime) -> io::Result<()> {
    let mut text = buffer();
    let mut page = Writer::new(&mut text);
    chart_page::page(&mut page);
    match page.whole() {
        Some(text) => rt.write_all(text),
        None => rt.write_all(b"the page is too long\n"),
    }
}
