// The check of a 512-byte block.
ghost use Rattle.std.specs.Prelude.{◌≡◌};
ghost use Rattle.base_bytes.specs.Check.{block_check};

use crate::bytes;

// The check of the block that starts at an offset, whatever its bytes 510 and 511 hold. It reads as the flashing station's sheet: from byte 509 down to byte 0,
// a running total of the bytes and a running total of these totals. A byte past the end counts 0, so both totals are 0 down to the first byte within.
// Counted in 32 bits, which a small controller has in one register.
pub fn block_check(bytes: &[u8], start: usize) -> u16
    ensures { result ≡ block_check bytes.now start }
{
    let mut total: u32 = 0;
    let mut totals: u32 = 0;
    let within = bytes::reach(bytes.len(), start, 510) as u32;
    for i in (0..within).rev() {
        let byte = u32::from(bytes[start + i as usize]);
        total += byte;
        totals += total;
    }
    (totals % 65521) as u16
}
