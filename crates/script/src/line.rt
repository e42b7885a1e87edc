// Reading a script, line by line.
use crate::call::{Call, Deltas, Id, Line, Script, Stroke};
use crate::mistake::{Place, Unread};
use crate::word::{Number, Word, Words};
use deltas::Part;
use format::{Coordinate, Transform};
use hex::FromHex;
use memory::{NO_VARIATION_INDEX, Pair, Span};
use std::alloc::Global;

const FIRST: &str = "'job NUMBER' as the first call";

const ONCE: &str = "each field once";

const FIELDS: &str = "gid, reset, cond, axes, axis_var, transform_var, translate_x, translate_y, \
    rotation, scale_x, scale_y, skew_x, skew_y, center_x or center_y";

// An axis and its start, peak and end.
fn coordinate(word: Word<'_>) -> Result<Coordinate, Unread> {
    let wrong = word.wrong("axis:start:peak:end");
    let (axis, rest) = word.cut(':').ok_or(wrong)?;
    let (start, rest) = rest.cut(':').ok_or(wrong)?;
    let (peak, end) = rest.cut(':').ok_or(wrong)?;
    Ok(Coordinate {
        axis: axis.number()?,
        start: start.number()?,
        peak: peak.number()?,
        end: end.number()?,
    })
}

// An axis and its value.
fn pair(word: Word<'_>) -> Result<Pair, Unread> {
    let (axis, value) = word.cut(':').ok_or(word.wrong("axis:value"))?;
    Ok(Pair {
        axis: axis.number()?,
        value: value.number()?,
    })
}

// A count, as a part or a span has it.
fn count(n: usize) -> Result<u32, Unread> {
    u32::try_from(n).map_err(|_| Unread::Memory)
}

// What was appended to a list since it had so many records.
fn since<T>(list: &Vec<T>, before: usize) -> Result<Span, Unread> {
    Ok(Span {
        place: count(before)?,
        count: count(list.len().saturating_sub(before))?,
    })
}

// Sets a field that was not set before.
fn put<T: Copy>(field: &mut Option<T>, word: Word<'_>, value: T) -> Result<(), Unread> {
    if field.is_some() {
        return Err(word.wrong(ONCE));
    }
    *field = Some(value);
    Ok(())
}

// The number of a transform that bears a name.
fn transform_number<'t>(transform: &'t mut Transform, name: &str) -> Option<&'t mut Option<i16>> {
    match name {
        "translate_x" => Some(&mut transform.translate_x),
        "translate_y" => Some(&mut transform.translate_y),
        "rotation" => Some(&mut transform.rotation),
        "scale_x" => Some(&mut transform.scale_x),
        "scale_y" => Some(&mut transform.scale_y),
        "skew_x" => Some(&mut transform.skew_x),
        "skew_y" => Some(&mut transform.skew_y),
        "center_x" => Some(&mut transform.center_x),
        "center_y" => Some(&mut transform.center_y),
        _ => None,
    }
}

// Nothing more may follow.
fn nothing(mut rest: Words<'_>) -> Result<(), Unread> {
    match rest.next() {
        None => Ok(()),
        Some(word) => Err(word.wrong("the line's end")),
    }
}

// A call that takes no words.
fn alone(call: Call, rest: Words<'_>) -> Result<Call, Unread> {
    nothing(rest)?;
    Ok(call)
}

// Appends the bytes of a word in hex. A word that is none is refused before anything is appended.
fn push_hex(all: &mut Vec<u8>, word: Word<'_>) -> Result<(), Unread> {
    let wrong = word.wrong("bytes in hex, two digits each");
    let text = word.text.as_bytes();
    if text.len() % 2 != 0 || !text.iter().all(|c| c.is_ascii_hexdigit()) {
        return Err(wrong);
    }
    for digits in text.chunks_exact(2) {
        let [byte] = <[u8; 1]>::from_hex(digits).map_err(|_| wrong)?;
        all.push(byte)?;
    }
    Ok(())
}

// The bytes of a line, in hex, in one word or more, where they were not given before.
fn bytes(
    heap: Global,
    field: &mut Option<Vec<u8>>,
    twice: Unread,
    words: Words<'_>,
) -> Result<(), Unread> {
    if field.is_some() {
        return Err(twice);
    }
    let mut all = Vec::new(heap);
    for word in words {
        push_hex(&mut all, word)?;
    }
    *field = Some(all);
    Ok(())
}

// What was read so far.
#[derive(Drop)]
struct Reader<'a> {
    heap: Global,
    job: Option<u32>,
    lines: Vec<Line<'a>>,
    parts: Vec<Part>,
    coordinates: Vec<Coordinate>,
    values: Vec<i32>,
    pairs: Vec<Pair>,
    coverage: Option<Vec<u8>>,
    conditions: Option<Vec<u8>>,
}

impl<'a> Reader<'a> {
    fn new(heap: Global) -> Reader<'a> {
        Reader {
            heap,
            job: None,
            lines: Vec::new(heap),
            parts: Vec::new(heap),
            coordinates: Vec::new(heap),
            values: Vec::new(heap),
            pairs: Vec::new(heap),
            coverage: None,
            conditions: None,
        }
    }

    // The place of the line that bears a name.
    fn named(&self, name: &str) -> Option<usize> {
        self.lines.iter().position(|line| line.name == Some(name))
    }

    // A part of a delta set, AXES=VALUES.
    fn part(&mut self, word: Word<'a>) -> Result<Part, Unread> {
        let (axes, values) = word.cut('=').ok_or(word.wrong("a part, AXES=VALUES"))?;
        let axes = axes.pieces(self.heap)?;
        for piece in axes.iter() {
            self.coordinates.push(coordinate(*piece)?)?;
        }
        let values = values.pieces(self.heap)?;
        for piece in values.iter() {
            self.values.push(piece.number()?)?;
        }
        Ok(Part {
            axes: count(axes.len())?,
            values: count(values.len())?,
        })
    }

    fn deltas(&mut self, words: Words<'a>) -> Result<Deltas, Unread> {
        let parts = self.parts.len();
        let coordinates = self.coordinates.len();
        let values = self.values.len();
        for word in words {
            let part = self.part(word)?;
            self.parts.push(part)?;
        }
        Ok(Deltas {
            parts: since(&self.parts, parts)?,
            coordinates: since(&self.coordinates, coordinates)?,
            values: since(&self.values, values)?,
        })
    }

    // The name that a delta set's line begins with, if any, and what follows.
    fn name(&self, words: Words<'a>) -> Result<(Option<&'a str>, Words<'a>), Unread> {
        let mut rest = words;
        let Some(word) = rest.next() else {
            return Ok((None, words));
        };
        let Some(name) = word.text.strip_suffix(':') else {
            return Ok((None, words));
        };
        if name.is_empty() || name.contains('=') || name.contains(':') {
            return Err(word.wrong("a name and a colon, or a part AXES=VALUES"));
        }
        if self.named(name).is_some() {
            return Err(word.wrong("a name that no line before this one has"));
        }
        Ok((Some(name), rest))
    }

    // A temporary id: a number, 'none' or @NAME.
    fn id(&self, word: Word<'a>) -> Result<Id, Unread> {
        match word.text.strip_prefix('@') {
            Some("") => Err(word.wrong("a name behind '@'")),
            Some(name) => self
                .named(name)
                .map(Id::Of)
                .ok_or(word.wrong("the name of a line before this one")),
            None if word.text == "none" => Ok(Id::Number(NO_VARIATION_INDEX)),
            None => word
                .text
                .parse()
                .map(Id::Number)
                .map_err(|_| word.wrong("an id: a number, 'none' or @NAME")),
        }
    }

    // The axis values of a component.
    fn axes(&mut self, word: Word<'a>) -> Result<Span, Unread> {
        let before = self.pairs.len();
        let pieces = word.pieces(self.heap)?;
        for piece in pieces.iter() {
            self.pairs.push(pair(*piece)?)?;
        }
        since(&self.pairs, before)
    }

    fn component(&mut self, words: Words<'a>, end: Place) -> Result<Stroke, Unread> {
        let mut reset = None;
        let mut gid = None;
        let mut condition = None;
        let mut axes = None;
        let mut axis_values_var = None;
        let mut transform_var = None;
        let mut transform = Transform::default();
        for word in words {
            if word.text == "reset" {
                put(&mut reset, word, ())?;
                continue;
            }
            let (field, value) = word.cut('=').ok_or(word.wrong("'reset' or FIELD=VALUE"))?;
            match field.text {
                "gid" => put(&mut gid, field, value.number()?)?,
                "cond" => put(&mut condition, field, value.number()?)?,
                "axes" => put(&mut axes, field, self.axes(value)?)?,
                "axis_var" => put(&mut axis_values_var, field, self.id(value)?)?,
                "transform_var" => put(&mut transform_var, field, self.id(value)?)?,
                name => {
                    let number = transform_number(&mut transform, name).ok_or(field.wrong(FIELDS))?;
                    put(number, field, value.number()?)?;
                }
            }
        }
        Ok(Stroke {
            reset_unspecified_axes: reset.is_some(),
            gid: gid.ok_or(end.wrong("gid=NUMBER"))?,
            condition,
            axes,
            axis_values_var,
            transform_var,
            transform,
        })
    }

    // Reads one line.
    fn line(&mut self, start: Place, text: &'a str) -> Result<(), Unread> {
        let mut rest = Words::new(start, text);
        let end = start.after(text.len());
        let Some(command) = rest.next() else {
            return Ok(());
        };
        if self.job.is_none() && command.text != "job" {
            return Err(command.wrong(FIRST));
        }
        let mut given = None;
        let call = match command.text {
            "job" => {
                if self.job.is_some() {
                    return Err(command.wrong("one 'job NUMBER', as the first call"));
                }
                let word = rest.next().ok_or(end.wrong(u32::EXPECTED))?;
                self.job = Some(word.number()?);
                return nothing(rest);
            }
            "coverage" => {
                let twice = command.wrong("'coverage' once");
                return bytes(self.heap, &mut self.coverage, twice, rest);
            }
            "conditions" => {
                let twice = command.wrong("'conditions' once");
                return bytes(self.heap, &mut self.conditions, twice, rest);
            }
            "deltas" => {
                let (name, rest) = self.name(rest)?;
                given = name;
                Call::Deltas(self.deltas(rest)?)
            }
            "component" => Call::Component(self.component(rest, end)?),
            "begin" => alone(Call::Begin, rest)?,
            "close" => alone(Call::Close, rest)?,
            "cancel" => alone(Call::Cancel, rest)?,
            _ => {
                return Err(command.wrong(
                    "job, deltas, begin, component, close, cancel, coverage or conditions",
                ));
            }
        };
        self.lines.push(Line {
            number: start.line,
            name: given,
            call,
        })?;
        Ok(())
    }
}

// Reads a whole script.
pub fn read<'a>(heap: Global, text: &'a str) -> Result<Script<'a>, Unread> {
    let mut reader = Reader::new(heap);
    // Counted here, and not by `enumerate`, as the place behind the last line is asked for too.
    let mut lines: usize = 0;
    for whole in text.lines() {
        let text = whole.split_once('#').map_or(whole, |(before, _)| before);
        reader.line(Place::below(lines), text)?;
        lines = lines.saturating_add(1);
    }
    let job = reader.job.ok_or(Place::below(lines).wrong(FIRST))?;
    Ok(Script {
        job,
        lines: reader.lines,
        parts: reader.parts,
        coordinates: reader.coordinates,
        values: reader.values,
        pairs: reader.pairs,
        coverage: reader.coverage,
        conditions: reader.conditions,
    })
}
