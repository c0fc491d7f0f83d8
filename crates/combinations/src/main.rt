// Runs one script over every shelf with every outlet. What it prints is the same for all of them.
#![tactic(auto)]

use anyhow::Context;
use outlets::{ImageOutlet, Record, TableOutlet, image_fits, table_fits};
use parts::{Outlet, Shelf};
use rows::Row;
use shelves::{HeapShelf, Held, OrderedShelf, shelf_fits};
use std::io;

mod passing;

const PLACES: usize = 3;

const SHELF_BYTES: usize = 4_096 * PLACES;

const ENTRIES: usize = 3;

const MESSAGE_BYTES: usize = 9;

const IMAGE_BYTES: usize = 7 + 17 * ENTRIES + MESSAGE_BYTES;

fn hold<S: Shelf>(rt: HostRuntime, shelf: &mut S, first: u64, body: &[u8]) -> io::Result<()> {
    match shelf.put(first, 1, body) {
        Ok(()) => println!(rt; "held {first}"),
        Err(refusal) => println!(rt; "not held {first}: {refusal}"),
    }
}

fn pass<S: Shelf, O: Outlet>(rt: HostRuntime, shelf: &mut S, outlet: &mut O) -> io::Result<()> {
    let mut buffer = [255; 4_096];
    match passing::pass_lowest(shelf, outlet, &mut buffer) {
        Ok(Some(first)) => println!(rt;
            "passed {first}, left {} {}",
            outlet.entries_left(),
            outlet.bytes_left()
        ),
        Ok(None) => println!(rt; "nothing is held"),
        Err(refusal) => println!(rt; "not passed: {refusal}"),
    }
}

fn script<S: Shelf, O: Outlet>(rt: HostRuntime, shelf: &mut S, outlet: &mut O) -> io::Result<()> {
    hold(rt, shelf, 9, b"nine")?;
    hold(rt, shelf, 4, b"four")?;
    hold(rt, shelf, 6, b"six")?;
    hold(rt, shelf, 4, b"again")?;
    hold(rt, shelf, 4, &[1; 4_097])?;
    hold(rt, shelf, 1, b"one")?;
    pass(rt, shelf, outlet)?;
    hold(rt, shelf, 1, b"one")?;
    for _ in 0..3u8 {
        pass(rt, shelf, outlet)?;
    }
    let _ = shelf.take(9);
    pass(rt, shelf, outlet)
}

fn over_both_outlets<S: Shelf>(
    rt: HostRuntime,
    shelf: &mut S,
    other: &mut S,
) -> anyhow::Result<()> {
    let mut records = [Record::Closed(0); ENTRIES];
    let mut area = [0; MESSAGE_BYTES];
    let mut memory = [0; IMAGE_BYTES];
    table_fits(records.len()).context("the memory does not fit an outlet")?;
    image_fits(memory.len(), ENTRIES).context("the memory does not fit an outlet")?;
    println!(rt; "with a table")?;
    let mut table = TableOutlet::new(&mut records, &mut area);
    script(rt, shelf, &mut table)?;
    println!(rt; "with an image")?;
    let mut image = ImageOutlet::new(&mut memory, ENTRIES);
    script(rt, other, &mut image)?;
    Ok(())
}

fn main(rt: HostRuntime) -> anyhow::Result<()> {
    let empty = Row {
        number: 0,
        part: Held {
            count: 0,
            size: 0,
            place: 0,
        },
    };
    let mut rows = [empty; PLACES];
    let mut other_rows = [empty; PLACES];
    let mut bytes = [0; SHELF_BYTES];
    let mut other_bytes = [0; SHELF_BYTES];
    shelf_fits(rows.len(), bytes.len()).context("the memory does not fit a shelf")?;
    println!(rt; "rows in order")?;
    let mut ordered = OrderedShelf::new(&mut rows, &mut bytes);
    let mut other_ordered = OrderedShelf::new(&mut other_rows, &mut other_bytes);
    over_both_outlets(rt, &mut ordered, &mut other_ordered)?;
    println!(rt; "rows as a heap")?;
    let mut heap = HeapShelf::new(&mut rows, &mut bytes);
    let mut other_heap = HeapShelf::new(&mut other_rows, &mut other_bytes);
    over_both_outlets(rt, &mut heap, &mut other_heap)
}
