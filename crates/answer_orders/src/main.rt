// Answers cases of the outer calls Read and Order, one line for each; tests/README.md has their form.
#![tactic(auto)]

ghost use Rattle.std.specs.Prelude.{IfSome, ◌≤◌};

use packed::{Refused, Summary};
use std::io;
use std::io::{Read, Write};
use text::Page;

const MAX_FILE: usize = 2800;

const MAX_BUFFER: usize = 256;

type Line = Page<2048>;

#[derive(Drop)]
enum Call {
    Read,
    ById,
    PlusPlus,
}

impl Call {
    fn named(name: &[u8]) -> Option<Call> {
        match name {
            b"read  " => Some(Call::Read),
            b"byid  " => Some(Call::ById),
            b"vf2pp " => Some(Call::PlusPlus),
            _ => None,
        }
    }
}

// A case: the call, and the length of the answer buffer.
#[derive(Drop)]
struct Case {
    call: Call,
    buffer: usize,
    ghost within: { buffer ≤ 256 },
}

impl Case {
    fn of(header: &[u8]) -> Option<Case> {
        let header = header.as_array::<16>()?;
        if header[10] != b' ' || header[15] != b' ' {
            return None;
        }
        Some(Case {
            call: Call::named(&header[..6])?,
            buffer: text::number(&header[6..10]).filter(|n| *n <= MAX_BUFFER)?,
        })
    }
}

// How long the file of a case is.
fn file_length(header: &[u8]) -> Option<usize>
    ensures { IfSome result (λ length. length ≤ 2800) }
{
    let header = header.as_array::<16>()?;
    text::number(&header[11..15]).filter(|n| *n <= MAX_FILE)
}

fn put_refused(line: &mut Line, refused: Refused) {
    let number = usize::from(refused.refusal);
    line.put_outcome(b"refused", number as u64, refused.file as u64);
}

fn put_read(line: &mut Line, answer: Result<Summary, Refused>) {
    match answer {
        Ok(summary) => {
            line.put_bytes(b"graph");
            line.put_field(u64::from(summary.directed));
            line.put_field(summary.nodes as u64);
            line.put_field(summary.edges as u64);
        }
        Err(refused) => put_refused(line, refused),
    }
}

fn put_order(line: &mut Line, answer: Result<usize, Refused>) {
    match answer {
        Ok(nodes) => {
            line.put_bytes(b"ordered");
            line.put_field(nodes as u64);
        }
        Err(refused) => put_refused(line, refused),
    }
}

fn answer_read<W: Write>(out: &mut W, file: &[u8]) -> io::Result<()> {
    let mut line = Line::new();
    put_read(&mut line, packed::read(file));
    line.write_line(out)
}

fn answer_order<W: Write>(
    out: &mut W,
    file: &[u8],
    plus_plus: bool,
    buffer: &mut [u8],
) -> io::Result<()> {
    let mut line = Line::new();
    put_order(&mut line, order::order(file, plus_plus, buffer));
    line.put_fields(buffer);
    line.write_line(out)
}

// Reads the file of a case and answers the case. Is it one? The rest of the header is looked at when the line is read: no part of a case
// is left in the input.
fn answer<R: Read, W: Write>(input: &mut R, out: &mut W, header: &[u8]) -> io::Result<bool> {
    let Some(length) = file_length(header) else {
        return Ok(false);
    };
    let mut line = [0u8; 5601];
    let mut bytes = [0u8; MAX_FILE];
    let file = &mut bytes[..length];
    if !text::read_decoded(input, &mut line, file)? {
        return Ok(false);
    }
    let Some(case) = Case::of(header) else {
        return Ok(false);
    };
    let mut space = [255u8; MAX_BUFFER];
    let buffer = &mut space[..case.buffer];
    match case.call {
        Call::Read => answer_read(out, file)?,
        Call::ById => answer_order(out, file, false, buffer)?,
        Call::PlusPlus => answer_order(out, file, true, buffer)?,
    }
    Ok(true)
}

fn main(rt: HostRuntime) -> io::Result<()> {
    text::answer_cases(&mut rt.stdin(), &mut io::writer(&rt), &mut [0; 16], answer)
}
