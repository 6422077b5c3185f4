// Texts written to a lent buffer one behind the other.
#![tactic(auto)]

ghost use Rattle.std.specs.Prelude.{◌≡◌, ◌%◌, min, length, take};
ghost use Rattle.base_text.specs.Text.{wrote, Counts, digits_in, decimal, hex_digit, hex_byte};

use std::fmt;
use std::fmt::Write;

// A buffer that texts go to, and the index past the last. What lies past the buffer's end is dropped, and the index tells how much room
// the texts take, so that no caller has to reckon lengths.
#[derive(Drop)]
pub struct Writer<'a> {
    pub buffer: &'a mut [u8],
    pub at: usize,
}

fn hex_digit(x: u8) -> u8
    ensures { result ≡ hex_digit (x % 16) }
{
    let digit = x % 16;
    if digit < 10 {
        b'0' + digit
    } else {
        b'A' + (digit - 10)
    }
}

impl<'a> Writer<'a> {
    // At the buffer's front.
    pub fn new(buffer: &'a mut [u8]) -> Writer<'a>
        ensures same_buffer { result.buffer.ghost_name ≡ buffer.entry.ghost_name }
        ensures bytes { result.buffer.now ≡ buffer.old }
        ensures at { result.at ≡ 0 }
    {
        Writer { buffer, at: 0 }
    }

    #[tactic(auto, unfolding(crate::specs::Text::wrote))]
    pub fn append(&mut self, text: &[u8])
        ensures { self.new ≡ wrote text.now self.old }
    {
        base_bytes::put(self.buffer, self.at, text);
        self.at = self.at.saturating_add(text.len());
    }

    // By hand: no library's printing names the places, on which the edit nineteen_digits_both has code and definition agree.
    #[tactic(auto, using(crate::proofs::Appends::writing, crate::proofs::Digits::digits_ends))]
    fn digits(&mut self, n: u64, places: u8)
        ensures { self.new ≡ wrote (digits_in places n) self.old }
    {
        if places == 0 {
            return;
        }
        if n < 10 {
            self.append(&[b'0' + n as u8]);
            return;
        }
        self.digits(n / 10, places - 1);
        self.append(&[b'0' + (n % 10) as u8]);
    }

    #[tactic(auto, unfolding(crate::specs::Text::decimal))]
    pub fn decimal(&mut self, n: u64)
        ensures { self.new ≡ wrote (decimal n) self.old }
    {
        self.digits(n, 20);
    }

    #[tactic(auto, unfolding(crate::specs::Text::hex_byte))]
    pub fn hex(&mut self, byte: u8)
        ensures { self.new ≡ wrote (hex_byte byte) self.old }
    {
        self.append(&[hex_digit(byte / 16), hex_digit(byte)]);
    }

    // How many bytes of the texts stand in the buffer.
    pub fn length(&self) -> usize
        ensures value { result ≡ min self.now.at (length self.now.buffer.now) }
        ensures counts { Counts result self.now.buffer.now }
    {
        below(self.buffer, self.at)
    }

    // The texts, as far as they stand in the buffer.
    pub fn written(&self) -> &[u8]
        ensures { result.now ≡ take self.now.at self.now.buffer.now }
    {
        &self.buffer[..self.length()]
    }
}

impl Write for Writer<'_> {
    ghost write_str_gives = { λ w text w'. w' ≡ wrote text w };

    fn write_str(&mut self, text: &str) -> fmt::Result {
        self.append(text.as_bytes());
        Ok(())
    }
}

// How many bytes at the front of a buffer lie below an index.
pub fn below(buffer: &[u8], at: usize) -> usize
    ensures value { result ≡ min at (length buffer.now) }
    ensures counts { Counts result buffer.now }
{
    at.min(buffer.len())
}
