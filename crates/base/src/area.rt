// Writes into areas of bytes.
ghost use Rattle.std.specs.Prelude.{◌≡◌, ◌+◌, ◌-◌, ◌++◌, length, take, replicate, if◌then◌else◌, Some, None, nat_le};
ghost use Rattle.base.specs.Areas.{written_at};

/// Writes a part over an area from a place on and answers where it ends. Where it does not fit, nothing is written.
pub fn write_at(area: &mut [u8], at: usize, part: &[u8]) -> Option<usize>
    ensures end { result ≡ (if nat_le (at + length part.now) (length area.old) then Some (at + length part.now) else None) }
    ensures after { area.new ≡ (if nat_le (at + length part.now) (length area.old) then written_at area.old at part.now else area.old) }
{
    let end = at.checked_add(part.len()).filter(|&end| end <= area.len())?;
    area[at..end].copy_from_slice(part);
    Some(end)
}

/// Sets every byte of an area to 0.
pub fn zero(area: &mut [u8])
    ensures { area.new ≡ replicate (length area.old) 0 }
{
    area.fill(0);
}

/// Sets every byte of an area from a place on to 0.
pub fn zero_from(area: &mut [u8], at: usize)
    ensures { area.new ≡ take at area.old ++ replicate (length area.old - at) 0 }
{
    // By an index: what `get_mut` lends comes back with nothing known of it but its length.
    if at < area.len() {
        zero(&mut area[at..]);
    }
}
