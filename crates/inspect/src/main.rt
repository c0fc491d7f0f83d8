// Prints what is in the capture on standard input, a line for each record.
#![tactic(auto)]

use base::limits::MAX_CAPTURE;
use page::Page;
use std::io;
use std::io::Read;

fn main(rt: HostRuntime) -> io::Result<()> {
    let heap = rt.alloc();
    let mut input = Vec::new(heap);
    rt.stdin()
        .take(MAX_CAPTURE as u64 + 1)
        .read_to_end(&mut input)?;
    let mut page = Page::with_room(heap, capture::INSPECT_ROOM)?;
    capture::inspect(&mut page, input.as_slice());
    print!(rt; "{}", page.as_str())
}
