// Answers cases of the outer calls Start, Continue and Check, and of listings by Start and Continue; tests/README.md has their form.
#![tactic(auto)]

ghost use Rattle.std.specs.Prelude.{IfSome, ◌≡◌, ◌+◌, ◌≤◌, length};

use calls::Advanced;
use packed::Refused;
use records::Record;
use run::Ending;
use std::io;
use std::io::{Read, Write};
use std::ops::ControlFlow;
use step::Top;
use text::Page;

const MAX_FILE: usize = 2800;

const MAX_SETTINGS: usize = 16;

const MAX_GIVEN: usize = 256;

const MAX_BUDGET: usize = 65535;

const MAX_BUFFER: usize = 512;

type Line = Page<4096>;

#[derive(Drop)]
enum Call {
    Start,
    Continue,
    Check,
    List,
}

impl Call {
    fn named(letter: u8) -> Option<Call> {
        match letter {
            b's' => Some(Call::Start),
            b'c' => Some(Call::Continue),
            b'k' => Some(Call::Check),
            b'l' => Some(Call::List),
            _ => None,
        }
    }
}

// A case's header: the call's letter, the lengths of the case's parts, the budget and the length of the answer buffer.
#[derive(Drop)]
struct Header {
    letter: u8,
    length0: usize,
    length1: usize,
    settings: usize,
    given: usize,
    budget: u16,
    buffer: usize,
    ghost within: { (length0 ≤ 2800) × (length1 ≤ 2800) × (settings ≤ 16) × (given ≤ 256) × (buffer ≤ 512) },
}

impl Header {
    fn of(header: &[u8]) -> Option<Header> {
        let header = header.as_array::<42>()?;
        if header[5] != b' ' {
            return None;
        }
        Some(Header {
            letter: header[0],
            length0: number_within(&header[6..12], MAX_FILE)?,
            length1: number_within(&header[12..18], MAX_FILE)?,
            settings: number_within(&header[18..24], MAX_SETTINGS)?,
            given: number_within(&header[24..30], MAX_GIVEN)?,
            budget: number_within(&header[30..36], MAX_BUDGET)? as u16,
            buffer: number_within(&header[36..], MAX_BUFFER)?,
        })
    }

    // How many bytes the parts have.
    fn count(&self) -> usize
        ensures value { result ≡ self.now.length0 + self.now.length1 + self.now.settings + self.now.given }
        ensures upper_bound { result ≤ 5872 }
    {
        self.length0 + self.length1 + self.settings + self.given
    }

    fn split<'a>(&self, bytes: &'a [u8]) -> Case<'a>
        requires { self.now.length0 + self.now.length1 + self.now.settings ≤ length bytes.now }
    {
        let (file0, rest) = bytes.split_at(self.length0);
        let (file1, rest) = rest.split_at(self.length1);
        let (settings, given) = rest.split_at(self.settings);
        Case {
            file0,
            file1,
            settings,
            given,
            budget: self.budget,
        }
    }
}

// A number of the header with the space after it, where it is not too large.
fn number_within(text: &[u8], most: usize) -> Option<usize>
    requires { length text.now ≡ 6 }
    ensures { IfSome result (λ n. n ≤ most) }
{
    let number = text.strip_suffix(b" ")?;
    text::number(number).filter(|n| *n <= most)
}

// The parts of a case. `given` is a record or a map.
#[derive(Clone, Copy)]
struct Case<'a> {
    file0: &'a [u8],
    file1: &'a [u8],
    settings: &'a [u8],
    given: &'a [u8],
    budget: u16,
}

impl<'a> Case<'a> {
    fn start<W: Write>(&self, out: &mut W) -> io::Result<()> {
        let mut line = Line::new();
        match calls::start(self.file0, self.file1, self.settings) {
            Ok(started) => {
                line.put_bytes(b"started");
                put_record(&mut line, &started);
            }
            Err(refused) => put_refused(&mut line, refused),
        }
        line.write_line(out)
    }

    // Has the case a record?
    fn continue_search<W: Write>(&self, out: &mut W, buffer: &mut [u8]) -> io::Result<bool> {
        let Some(given) = self.given.as_array::<137>() else {
            return Ok(false);
        };
        let record = record_of(given);
        let continued = calls::continue_search(
            self.file0,
            self.file1,
            self.settings,
            record,
            self.budget,
            buffer,
        );
        let mut line = Line::new();
        put_continued(&mut line, continued.answer);
        put_record(&mut line, &continued.after);
        line.put_bytes(b" buffer");
        line.put_fields(buffer);
        line.write_line(out)?;
        Ok(true)
    }

    fn check<W: Write>(&self, out: &mut W) -> io::Result<()> {
        let mut line = Line::new();
        match calls::check(self.file0, self.file1, self.settings, self.given) {
            Ok(true) => line.put_bytes(b"yes"),
            Ok(false) => line.put_bytes(b"no"),
            Err(refused) => put_refused(&mut line, refused),
        }
        line.write_line(out)
    }

    // A whole listing, the same budget for each Continue. Nothing here says that it ends, so the loop counts its turns.
    fn list<W: Write>(&self, out: &mut W, buffer: &mut [u8]) -> io::Result<()> {
        let mut after = match calls::start(self.file0, self.file1, self.settings) {
            Ok(started) => started,
            Err(refused) => return print_refused(out, refused),
        };
        let mut tally = Tally::default();
        for _ in 0..u64::MAX {
            let continued = calls::continue_search(
                self.file0,
                self.file1,
                self.settings,
                after,
                self.budget,
                buffer,
            );
            after = continued.after;
            let accepted = after.accepted;
            if self
                .print_listed(out, continued.answer, &mut tally, accepted, buffer)?
                .is_break()
            {
                break;
            }
        }
        Ok(())
    }

    // Writes what an answer adds to a listing. With budget 0 a pause would follow a pause for ever, so it ends there.
    fn print_listed<W: Write>(
        &self,
        out: &mut W,
        answer: Result<Advanced, Refused>,
        tally: &mut Tally,
        accepted: u32,
        map: &[u8],
    ) -> io::Result<ControlFlow<()>> {
        let Advanced { ending, steps } = match answer {
            Ok(advanced) => advanced,
            Err(refused) => {
                print_refused(out, refused)?;
                return Ok(ControlFlow::Break(()));
            }
        };
        tally.add_steps(steps);
        match ending {
            Ending::Found => {
                tally.add_map();
                print_map(out, map)?;
                return Ok(ControlFlow::Continue(()));
            }
            Ending::Paused if self.budget != 0 => return Ok(ControlFlow::Continue(())),
            _ => tally.print_end(out, name_of(ending), accepted)?,
        }
        Ok(ControlFlow::Break(()))
    }
}

// How a listing goes: its maps and steps so far, and the steps up to the first map. Nothing bounds a listing's length, so its numbers
// are sums that wrap.
#[derive(Default, Drop)]
struct Tally {
    maps: usize,
    steps: usize,
    first: Option<usize>,
}

impl Tally {
    fn add_steps(&mut self, steps: usize) {
        self.steps = self.steps.wrapping_add(steps);
    }

    fn add_map(&mut self) {
        self.maps = self.maps.wrapping_add(1);
        self.first = self.first.or(Some(self.steps));
    }

    // The last line of a listing, a line of its steps, and the line that ends it.
    fn print_end<W: Write>(&self, out: &mut W, ending: &[u8], accepted: u32) -> io::Result<()> {
        let mut line = Line::new();
        line.put_outcome(ending, self.maps as u64, u64::from(accepted));
        line.put_bytes(b"\nsteps");
        line.put_field(self.steps as u64);
        match self.first {
            Some(steps) => line.put_field(steps as u64),
            None => line.put_bytes(b" -"),
        }
        line.put_bytes(b"\n.");
        line.write_line(out)
    }
}

fn print_map<W: Write>(out: &mut W, map: &[u8]) -> io::Result<()> {
    let mut line = Line::new();
    line.put_map(map);
    line.write_line(out)
}

fn put_refused(line: &mut Line, refused: Refused) {
    let number = usize::from(refused.refusal);
    line.put_outcome(b"refused", number as u64, refused.file as u64);
}

fn print_refused<W: Write>(out: &mut W, refused: Refused) -> io::Result<()> {
    let mut line = Line::new();
    put_refused(&mut line, refused);
    line.write_line(out)
}

fn name_of(ending: Ending) -> &'static [u8] {
    match ending {
        Ending::Found => b"found",
        Ending::None => b"none",
        Ending::Limit => b"limit",
        Ending::Paused => b"paused",
    }
}

fn put_continued(line: &mut Line, answer: Result<Advanced, Refused>) {
    match answer {
        Ok(Advanced { ending, steps }) => {
            line.put_bytes(name_of(ending));
            line.put_field(steps as u64);
        }
        Err(refused) => put_refused(line, refused),
    }
}

fn put_top(line: &mut Line, top: Top) {
    match top {
        Top::Outer => line.put_bytes(b" outer"),
        Top::Inner(position) => {
            line.put_bytes(b" inner");
            line.put_field(position as u64);
        }
        Top::Unwind => line.put_bytes(b" unwind"),
    }
}

fn put_record(line: &mut Line, record: &Record) {
    line.put_bytes(b" record");
    line.put_field(record.depth as u64);
    put_top(line, record.top);
    line.put_field(u64::from(record.accepted));
    line.put_fields(&record.path);
}

// A record's bytes: depth 2, top 1 (0 Outer, 1 Inner, 2 Unwind), position 2, accepted 4, path 128.
fn record_of(given: &[u8; 137]) -> Record {
    let [d0, d1, kind, p0, p1, a0, a1, a2, a3, ..] = *given;
    let mut path = [0u8; 128];
    path.copy_from_slice(&given[9..]);
    Record {
        depth: usize::from(u16::from_be_bytes([d0, d1])),
        path,
        top: top_of(kind, usize::from(u16::from_be_bytes([p0, p1]))),
        accepted: u32::from_be_bytes([a0, a1, a2, a3]),
    }
}

fn top_of(kind: u8, position: usize) -> Top {
    match kind {
        0 => Top::Outer,
        1 => Top::Inner(position),
        _ => Top::Unwind,
    }
}

// Reads the parts of a case and answers the case. Is it one? The call is looked at when the line is read: no part of a case is left in
// the input.
fn answer<R: Read, W: Write>(input: &mut R, out: &mut W, header: &[u8]) -> io::Result<bool> {
    let Some(header) = Header::of(header) else {
        return Ok(false);
    };
    let mut line = [0u8; 11745];
    let mut bytes = [0u8; 5872];
    let bytes = &mut bytes[..header.count()];
    if !text::read_decoded(input, &mut line, bytes)? {
        return Ok(false);
    }
    let Some(call) = Call::named(header.letter) else {
        return Ok(false);
    };
    let case = header.split(bytes);
    let mut space = [255u8; MAX_BUFFER];
    let buffer = &mut space[..header.buffer];
    match call {
        Call::Start => case.start(out)?,
        Call::Continue => return case.continue_search(out, buffer),
        Call::Check => case.check(out)?,
        Call::List => case.list(out, buffer)?,
    }
    Ok(true)
}

fn main(rt: HostRuntime) -> io::Result<()> {
    text::answer_cases(&mut rt.stdin(), &mut io::writer(&rt), &mut [0; 42], answer)
}
