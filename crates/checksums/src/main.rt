// Prints published Adler-32 values and some over long runs of one byte, to be compared with what zlib gives.
#![tactic(auto)]

use base::adler32;
use std::io;

fn main(rt: HostRuntime) -> io::Result<()> {
    for text in [
        "",
        "a",
        "abc",
        "message digest",
        "abcdefghijklmnopqrstuvwxyz",
        "Wikipedia",
    ] {
        println!(rt; "{:08x} {text}", adler32(text.as_bytes()))?;
    }
    let heap = rt.alloc();
    for length in [1, 3_839, 3_840, 3_841, 7_681, 65_536, 1_000_000] {
        for byte in [0u8, 1, 255] {
            let run = vec![in heap; byte; length]?;
            println!(rt; "{:08x} {length} of {byte}", adler32(run.as_slice()))?;
        }
    }
    Ok(())
}
