// Bytes and little-endian numbers, each appended to what is written. Where one does not fit, nothing is changed.
ghost use Rattle.std.specs.Prelude.{◌≡◌, [], ◌++◌, length, drop};
ghost use Rattle.frames.specs.Little.{little};
ghost use Rattle.writing.specs.Written.{written, rest, Overwrites, Writes};
ghost use Rattle.writing.specs.Plain.{number_bytes};

use crate::put::{put_inside, put_numbers};
use crate::writer::Writer;
use field::field::Field;
use field::file_field::FileField;
use frames::format::Format;

impl<'a> Writer<'a> {
    // Nothing is written yet.
    pub fn new(buffer: &'a mut [u8]) -> Writer<'a>
        ensures written { written result ≡ [] }
        ensures rest { rest result ≡ buffer.old }
        ensures same { result.buffer.ghost_name ≡ buffer.entry.ghost_name }
    {
        Writer { buffer, len: 0 }
    }

    // The bytes so far.
    pub fn written(&self) -> &[u8]
        ensures { result.now ≡ written self.now }
    {
        &self.buffer[..self.len]
    }

    // How many bytes there is room for yet.
    pub fn room(&self) -> usize
        ensures { result ≡ length (rest self.now) }
    {
        self.buffer.len() - self.len
    }

    // Inlined, as the step below it is, so that a few bytes are stored and not copied by a call.
    #[inline(always)]
    pub fn put(&mut self, bytes: &[u8])
        ensures { Writes self.old bytes.now self.new }
    {
        if bytes.len() <= self.room() {
            put_inside(self.buffer, self.len, bytes);
            self.len += bytes.len();
        }
    }

    // A 4-byte number. Apart from the next, since a bound for whatever has little-endian bytes would be no plainer.
    pub fn put_word(&mut self, word: u32)
        ensures { Writes self.old (little 4 word) self.new }
    {
        self.put(&word.to_le_bytes());
    }

    // An 8-byte number.
    pub fn put_long(&mut self, long: u64)
        ensures { Writes self.old (little 8 long) self.new }
    {
        self.put(&long.to_le_bytes());
    }

    // A 4-byte number and an 8-byte number.
    fn put_pair(&mut self, word: u32, long: u64)
        ensures { Writes self.old (little 4 word ++ little 8 long) self.new }
    {
        if self.room() >= 12 {
            put_inside(self.buffer, self.len, &word.to_le_bytes());
            put_inside(self.buffer, self.len + 4, &long.to_le_bytes());
            self.len += 12;
        }
    }

    // An item of a list: a wire, and its coefficient's number.
    pub fn put_item(&mut self, wire: u32, coefficient: u64)
        ensures { Writes self.old (little 4 wire ++ little 8 coefficient) self.new }
    {
        self.put_pair(wire, coefficient);
    }

    // The numbers of elements, 8 bytes each, where there is room for them all.
    pub fn put_numbers<F: FileField>(&mut self, values: &[F])
        ensures { Writes self.old (number_bytes F.ops F.prime values.now) self.new }
    {
        if values.len() <= self.room() / 8 {
            put_numbers(self.buffer, self.len, values);
            self.len += 8 * values.len();
        }
    }

    // The start of a file: which format, and how many sections there are.
    pub fn put_start(&mut self, format: Format, sections: u32)
        ensures { Writes self.old (little 4 format.magic ++ (little 4 format.version ++ little 4 sections)) self.new }
    {
        if self.room() >= 12 {
            self.put_word(format.magic);
            self.put_word(format.version);
            self.put_word(sections);
        }
    }

    // The head of a section: its kind, and the size of what follows.
    pub fn put_head(&mut self, kind: u32, size: usize)
        ensures { Writes self.old (little 4 kind ++ little 8 size) self.new }
    {
        self.put_pair(kind, size as u64);
    }

    // What is written from a place on, once more.
    pub fn put_again(&mut self, from: usize)
        ensures { Writes self.old (drop from (written self.old)) self.new }
    {
        if from <= self.len && self.len - from <= self.room() {
            self.buffer.copy_within(from..self.len, self.len);
            self.len += self.len - from;
        }
    }

    // A 4-byte number over what is written, from a place on.
    pub fn put_word_at(&mut self, at: usize, word: u32)
        ensures { Overwrites self.old at (little 4 word) self.new }
    {
        if at <= self.len && self.len - at >= 4 {
            put_inside(self.buffer, at, &word.to_le_bytes());
        }
    }
}
