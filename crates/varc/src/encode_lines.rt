// varc encode: one request a line, and its answer: the bytes of a number, of packed values or of an INDEX, in hex.
use crate::Failure;
use encode::{PackedDeltas, Uint32Var};
use hex::FromHexError;
use index::{ByteStrings, Index};
use std::alloc::{AllocError, AllocFailed, Global};
use std::fmt;
use std::io::{BufRead, BufReader};
use std::str::SplitWhitespace;
use whole::{ToVecError, to_vec};

// Why a line has no answer.
#[derive(Clone, Copy)]
enum Mistake<'a> {
    // The first word is none of the commands.
    Command(&'a str),
    // A word that is no number of 32 bits.
    Unsigned(&'a str),
    // A word that is no signed number of 32 bits.
    Signed(&'a str),
    // A word that is neither whole bytes in hex nor '-'.
    Hex(&'a str),
    // `number` takes one number.
    OneNumber,
    // The answer would be longer than a table may be.
    TooLong,
    // No memory is left.
    Memory,
}

impl<'a> From<AllocError> for Mistake<'a> {
    fn from(_e: AllocError) -> Mistake<'a> {
        Mistake::Memory
    }
}

impl<'a> From<ToVecError> for Mistake<'a> {
    fn from(_e: ToVecError) -> Mistake<'a> {
        Mistake::Memory
    }
}

impl<'a, T: Drop> From<AllocFailed<T>> for Mistake<'a> {
    fn from(_e: AllocFailed<T>) -> Mistake<'a> {
        Mistake::Memory
    }
}

impl<'a> fmt::Display for Mistake<'a> {
    fn fmt<W: fmt::Write>(&self, f: &mut fmt::Formatter<W>) -> fmt::Result {
        match *self {
            Mistake::Command(word) => write!(f, "'{word}' is none of number, packed and index"),
            Mistake::Unsigned(word) => write!(f, "'{word}' is no number from 0 to 4294967295"),
            Mistake::Signed(word) => write!(
                f,
                "'{word}' is no number from -2147483648 to 2147483647"
            ),
            Mistake::Hex(word) => write!(
                f,
                "'{word}' is neither bytes in hex, two digits each, nor '-'"
            ),
            Mistake::OneNumber => write!(f, "number takes one number"),
            Mistake::TooLong => write!(f, "refused (13): more than 268435455 bytes"),
            Mistake::Memory => write!(f, "no memory is left"),
        }
    }
}

// A number of 32 bits, and nothing after it.
fn one_number(mut words: SplitWhitespace<'_>) -> Result<u32, Mistake<'_>> {
    match (words.next(), words.next()) {
        (Some(word), None) => word.parse().map_err(|_| Mistake::Unsigned(word)),
        _ => Err(Mistake::OneNumber),
    }
}

// Signed numbers of 32 bits.
fn numbers<'a>(heap: Global, words: SplitWhitespace<'a>) -> Result<Vec<i32>, Mistake<'a>> {
    words
        .map(|word| word.parse().map_err(|_| Mistake::Signed(word)))
        .try_collect(heap)
}

// The bytes that a word has in hex, two digits each; none for '-'. A word that is no such bytes is refused before anything is
// allocated: `decode` makes room for all of them first.
fn hex_bytes<'a>(heap: Global, word: &'a str) -> Result<Vec<u8>, Mistake<'a>> {
    if word == "-" {
        return Ok(Vec::new(heap));
    }
    if !word.bytes().all(|c| c.is_ascii_hexdigit()) {
        return Err(Mistake::Hex(word));
    }
    hex::decode(heap, word).map_err(|e| match e {
        FromHexError::OutOfMemory => Mistake::Memory,
        _ => Mistake::Hex(word),
    })
}

// The INDEX of some items.
fn index_bytes<'a>(heap: Global, words: SplitWhitespace<'a>) -> Result<Vec<u8>, Mistake<'a>> {
    let items: Vec<Vec<u8>> = words.map(|word| hex_bytes(heap, word)).try_collect(heap)?;
    let slices: Vec<&[u8]> = items.iter().map(|item| item.as_slice()).collect(heap)?;
    let index = Index::from_items(ByteStrings(slices.as_slice())).map_err(|_| Mistake::TooLong)?;
    Ok(to_vec(heap, &index)?)
}

// The bytes that a command and the words behind it ask for.
fn answer<'a>(
    heap: Global,
    command: &'a str,
    words: SplitWhitespace<'a>,
) -> Result<Vec<u8>, Mistake<'a>> {
    match command {
        "number" => Ok(to_vec(heap, &Uint32Var(one_number(words)?))?),
        "packed" => {
            let values = numbers(heap, words)?;
            Ok(to_vec(heap, &PackedDeltas(values.as_slice()))?)
        }
        "index" => index_bytes(heap, words),
        other => Err(Mistake::Command(other)),
    }
}

// Bytes in hex; '-' where there are none. They are printed as they come: `hex::encode` would fill a `String` first.
#[derive(Clone, Copy)]
struct Hex<'a>(pub &'a [u8]);

impl<'a> fmt::Display for Hex<'a> {
    fn fmt<W: fmt::Write>(&self, f: &mut fmt::Formatter<W>) -> fmt::Result {
        if self.0.is_empty() {
            return f.write_str("-");
        }
        for b in self.0 {
            write!(f, "{b:02x}")?;
        }
        Ok(())
    }
}

// Answers each line of standard input on a line of its own. Blank lines and those that begin with '#' are passed over.
pub fn encode(rt: &HostRuntime) -> Result<(), Failure> {
    let heap = rt.alloc();
    let mut refused = false;
    let input = BufReader::new(heap, rt.stdin()).map_err(Failure::Input)?;
    for line in input.lines(heap) {
        let line = line.map_err(Failure::Input)?;
        let text = line.as_str().trim();
        if text.starts_with('#') {
            continue;
        }
        let mut words = text.split_whitespace();
        let Some(command) = words.next() else {
            continue;
        };
        match answer(heap, command, words) {
            Ok(bytes) => {
                let hex = Hex(bytes.as_slice());
                println!(rt; "{hex}")?;
            }
            Err(mistake) => {
                println!(rt; "error: {mistake}")?;
                refused = true;
            }
        }
    }
    if refused {
        Err(Failure::Refused)
    } else {
        Ok(())
    }
}
