// The system's words for an error, as C's strerror has them.
ghost use Rattle.base_text.specs.Text.{Counts};

use base_text::{Writer, below};
use std::fmt::Write;
use std::io;

fn write_error(error: io::Error, buffer: &mut [u8]) -> usize {
    let mut text = Writer::new(buffer);
    let _ = write!(text, "{error}");
    text.at
}

// The index at which ` (os error 2)` begins, or a text's length. No words of the system have a bracket.
fn before_number(text: &[u8]) -> usize {
    match text.iter().position(|byte| *byte == b'(') {
        Some(at) if 0 < at => at - 1,
        _ => text.len(),
    }
}

pub(crate) fn words_of(error: io::Error, buffer: &mut [u8]) -> usize
    ensures { Counts result buffer.new }
{
    let end = write_error(error, buffer);
    let length = below(buffer, end);
    let words = before_number(&buffer[..length]);
    below(buffer, words)
}
