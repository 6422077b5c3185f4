// Bytes at offsets: past the end a byte reads as 0 and a store changes nothing, so that no caller has to know a length.
ghost use Rattle.std.specs.Prelude.{◌≡◌, ◌+◌, ◌*◌, replicate};
ghost use Rattle.std.proofs.lemmas.List.Edits.{sets};
ghost use Rattle.base_lists.specs.Bounded.{all_to};
ghost use Rattle.base_bytes.specs.Bytes.{byte, number, is_zero, Reach};

pub fn byte_at(bytes: &[u8], offset: usize) -> u8
    ensures { result ≡ byte bytes.now offset }
{
    if offset < bytes.len() {
        bytes[offset]
    } else {
        0
    }
}

pub fn number_at(bytes: &[u8], offset: usize) -> u16
    ensures { result ≡ number bytes.now offset }
{
    if offset < bytes.len() {
        u16::from_be_bytes([byte_at(bytes, offset), byte_at(bytes, offset + 1)])
    } else {
        0
    }
}

// The number of two halves of two bytes each.
pub fn long_number(high: u16, low: u16) -> u32
    ensures { result ≡ high * 65536 + low }
{
    u32::from(high) * 65536 + u32::from(low)
}

// How many of some places from an offset on lie below a length.
pub fn reach(length: usize, start: usize, places: usize) -> usize
    ensures { Reach length start places result }
{
    length.saturating_sub(start).min(places)
}

// Whether some bytes from an offset on are zero. The loop has no exit, so that it is compiled to vector instructions, and counts in 32 bits,
// which a small controller has in one register.
pub fn are_zero(bytes: &[u8], start: usize, count: u32) -> bool
    ensures { result ≡ all_to (is_zero bytes.now start) count }
{
    let within = reach(bytes.len(), start, count as usize) as u32;
    let mut clear = true;
    for i in 0..within {
        clear &= bytes[start + i as usize] == 0;
    }
    clear
}

// Copies bytes into a buffer from an offset on. Not by `copy_from_slice`, which makes numbers of pointers: firmware/retarget.py refuses that.
pub fn put(buffer: &mut [u8], start: usize, source: &[u8])
    ensures { buffer.new ≡ sets buffer.old start source.now }
{
    let within = reach(buffer.len(), start, source.len());
    for i in 0..within {
        buffer[start + i] = source[i];
    }
}

// Stores zeros into a buffer from an offset on.
pub fn put_zeros(buffer: &mut [u8], start: usize, count: usize)
    ensures { buffer.new ≡ sets buffer.old start (replicate count 0) }
{
    let within = reach(buffer.len(), start, count);
    if 0 < within {
        buffer[start..start + within].fill(0);
    }
}
