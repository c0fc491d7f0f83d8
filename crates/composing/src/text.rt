// A capture from all lines of a text.
ghost use Rattle.std.specs.Prelude.{◌≡◌, ◌≤◌, ◌++◌, IfOk, Some, codes, decimal};
ghost use Rattle.composing.specs.Lines.{composed_of, capture_in, size_in, area_after};

use crate::data::Workspace;
use crate::kinds::{put_line, stage_after};
use base::limits::MAX_CAPTURE;
use base::zero_from;
use parts::SealingCoder;
use std::error::Error;
use std::fmt;
use words::Lines;

/// The number of a text's first bad line, from 1.
#[derive(Clone, Copy, Debug)]
pub struct BadLine {
    pub line: usize,
}

impl fmt::Display for BadLine {
    ghost output = { λ b. Some (codes "line " ++ (decimal b.line ++ codes " is bad")) };

    fn fmt<W: fmt::Write>(&self, f: &mut fmt::Formatter<W>) -> fmt::Result {
        write!(f, "line {} is bad", self.line)
    }
}

impl Error for BadLine {}

// All lines of a text, into an area, which is lent: nothing here takes memory from a heap.
fn compose_lines<C: SealingCoder>(
    coder: &C,
    text: &[u8],
    area: &mut [u8; MAX_CAPTURE],
) -> Result<usize, BadLine>
    ensures capture { capture_in result area.new ≡ composed_of (C.OpeningCoder.ready coder.now) (C.SealingCoder.seals coder.now) text.now }
    ensures within { IfOk result (λ n. n ≤ 65536) }
{
    let mut workspace = Workspace::new();
    let mut stage = None;
    // Counted by hand, since the number behind the last line is told too.
    let mut number = 1;
    let mut size = 0;
    for line in Lines::new(text) {
        let added = put_line(coder, stage, line, &mut workspace, &mut area[size..]);
        size += added.ok_or(BadLine { line: number })?;
        stage = stage_after(stage, line);
        number += 1;
    }
    match stage {
        Some(_) => Ok(size),
        None => Err(BadLine { line: number }),
    }
}

/// Writes the capture that a text describes, zeros behind it, and answers its size. Where a line is bad it answers the number
/// of the first such line, from 1, and leaves only zeros.
pub fn compose<C: SealingCoder>(
    coder: &C,
    text: &[u8],
    area: &mut [u8; MAX_CAPTURE],
) -> Result<usize, BadLine>
    ensures answer { result ≡ size_in (composed_of (C.OpeningCoder.ready coder.now) (C.SealingCoder.seals coder.now) text.now) }
    ensures after { area.new ≡ area_after (composed_of (C.OpeningCoder.ready coder.now) (C.SealingCoder.seals coder.now) text.now) }
    ensures within { IfOk result (λ n. n ≤ 65536) }
{
    let answer = compose_lines(coder, text, area);
    zero_from(area, answer.unwrap_or(0));
    answer
}
