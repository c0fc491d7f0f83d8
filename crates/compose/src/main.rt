// Turns a text on standard input into a capture on standard output. The token for sealed packets is the first argument, in
// hexadecimal.
#![tactic(auto)]

use anyhow::{Context, anyhow};
use base::limits::{MAX_CAPTURE, MAX_TOKEN};
use composing::compose;
use std::env;
use std::io::{Read, Write};
use stores::{TokenCoder, Untokened};
use words::hex_into;

fn token_coder(word: &[u8]) -> Option<TokenCoder> {
    let mut token = [0; MAX_TOKEN];
    let size = hex_into(word, &mut token)?;
    TokenCoder::new(token.get(..size)?).ok()
}

fn main(rt: HostRuntime) -> anyhow::Result<()> {
    let heap = rt.alloc();
    let mut text = Vec::new(heap);
    rt.stdin().read_to_end(&mut text)?;
    let mut area = [0; MAX_CAPTURE];
    let mut args = env::args(&rt)?;
    let _program = args.next();
    let composed = match args.next() {
        None => compose(&Untokened, text.as_slice(), &mut area),
        Some(word) => {
            let coder = token_coder(word.as_bytes()).context(
                "the token is not 1 to 64 bytes in hexadecimal",
            )?;
            compose(&coder, text.as_slice(), &mut area)
        }
    };
    match composed {
        Ok(size) => Ok(rt.stdout().write_all(&area[..size])?),
        Err(bad) => {
            eprintln!(rt; "{bad}: no capture is written")?;
            Err(anyhow!("no capture is written"))
        }
    }
}
