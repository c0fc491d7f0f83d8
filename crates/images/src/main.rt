// Puts entries of all five kinds into an image, in memory that was not zero before, and compares the image with the one that
// `samples/image.py` writes.
#![tactic(auto)]

use anyhow::Context;
use base::Refusal;
use outlets::{ImageOutlet, image_fits};
use parts::{Entry, Outlet};
use std::fs;

const CAPACITY: usize = 6;

const SIZE: usize = 160;

fn put_all<O: Outlet>(outlet: &mut O) -> Result<(), Refusal> {
    outlet.put(Entry::delivered(7, b"a message"))?;
    outlet.put(Entry::missing(8, 10))?;
    outlet.put(Entry::made_up(8, b"a message made up"))?;
    outlet.put(Entry::written_off(9, 10))?;
    outlet.put(Entry::closed(10))
}

fn main(rt: HostRuntime) -> anyhow::Result<()> {
    let expected = fs::read(&rt, "five_kinds.image")?;
    let mut memory = [255; SIZE];
    image_fits(memory.len(), CAPACITY).context("the memory does not fit an image")?;
    let mut outlet = ImageOutlet::new(&mut memory, CAPACITY);
    put_all(&mut outlet).context("the image is full")?;
    if outlet.view() == expected.as_slice() {
        println!(rt; "the image is equal to the expected one")?;
    } else {
        println!(rt; "the image is not equal to the expected one")?;
    }
    Ok(())
}
