// The words of a line, each with its place.
ghost use Rattle.std.specs.Prelude.{◌≡◌, ◌+◌, ◌-◌, ◌^◌, length, min};
ghost use Rattle.std.specs.Iterator.{at_most};

use crate::mistake::{Mistake, Place, Unread};
use std::alloc::{AllocError, Global};
use std::num::ParseIntError;
use std::str::FromStr;

impl Place {
    // Where the line begins that so many lines stand above.
    pub fn below(lines: usize) -> Place
        ensures line { result.line ≡ min (lines + 1) (2 ^ 64 - 1) }
        ensures column { result.column ≡ 1 }
    {
        Place {
            line: lines.saturating_add(1),
            column: 1,
        }
    }

    // So many bytes further on in the line.
    pub fn after(self, bytes: usize) -> Place
        ensures line { result.line ≡ self.line }
        ensures column { result.column ≡ min (self.column + bytes) (2 ^ 64 - 1) }
    {
        Place {
            line: self.line,
            column: self.column.saturating_add(bytes),
        }
    }

    // That something else was expected here.
    pub fn wrong(self, expected: &'static str) -> Unread
        ensures { result ≡ Unread.Mistake (record { place = self; expected = expected.entry }) }
    {
        Unread::Mistake(Mistake {
            place: self,
            expected,
        })
    }
}

// A word, or a piece of one.
#[derive(Clone, Copy)]
pub struct Word<'a> {
    pub text: &'a str,
    pub place: Place,
}

// What is left of a line, word by word, and where it begins.
#[derive(Clone, Copy)]
pub struct Words<'a> {
    rest: &'a str,
    place: Place,
}

// A number as a script has it.
pub trait Number: FromStr<Err = ParseIntError> {
    // What is said where a word is none.
    const EXPECTED: &'static str;
}

impl Number for u32 {
    const EXPECTED: &'static str = "a number from 0 to 4294967295";
}

impl Number for u16 {
    const EXPECTED: &'static str = "an axis number from 0 to 65535";
}

impl Number for i16 {
    const EXPECTED: &'static str = "a number from -32768 to 32767";
}

impl Number for i32 {
    const EXPECTED: &'static str = "a number from -2147483648 to 2147483647";
}

impl<'a> Word<'a> {
    pub fn wrong(self, expected: &'static str) -> Unread {
        self.place.wrong(expected)
    }

    // What stands before a sign and what behind it, if the sign is there.
    pub fn cut(self, sign: char) -> Option<(Word<'a>, Word<'a>)> {
        let (before, behind) = self.text.split_once(sign)?;
        let place = self.place.after(before.len()).after(1);
        Some((
            Word {
                text: before,
                place: self.place,
            },
            Word {
                text: behind,
                place,
            },
        ))
    }

    pub fn number<N: Number>(self) -> Result<N, Unread> {
        self.text.parse().map_err(|_| self.wrong(N::EXPECTED))
    }

    // The pieces between commas; none of an empty word.
    pub fn pieces(self, heap: Global) -> Result<Vec<Word<'a>>, AllocError> {
        let mut all = Vec::new(heap);
        if self.text.is_empty() {
            return Ok(all);
        }
        let mut place = self.place;
        for text in self.text.split(',') {
            all.push(Word { text, place })?;
            place = place.after(text.len()).after(1);
        }
        Ok(all)
    }
}

impl<'a> Words<'a> {
    // The words of a text that begins at a place.
    pub fn new(place: Place, text: &'a str) -> Words<'a> {
        Words { rest: text, place }
    }
}

// Each step passes over the white space, takes the word behind it, and allocates nothing.
impl<'a> Iterator for Words<'a> {
    type Item = Word<'a>;

    ghost remaining = { λ s. at_most (length s.rest.now) };

    fn next(&mut self) -> Option<Word<'a>> {
        let rest = self.rest.trim_start();
        let text = rest.split_whitespace().next()?;
        let place = self.place.after(self.rest.len() - rest.len());
        self.rest = rest.get(text.len()..)?;
        self.place = place.after(text.len());
        Some(Word { text, place })
    }
}
