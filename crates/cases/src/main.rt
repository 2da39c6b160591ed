#![tactic(auto)]
// Runs stored cases: each is a header of 12 bytes (the letter of the call, the text's length and the buffer's in five digits each, LF) and
// the text. Each is answered by a line: the reply's numbers, and a sum over every byte of the buffer, which is filled with a pattern before the call.
// The letter T is `ringkit_rewrite_table`, R is `ringkit_route`, B is `ringkit_route_best`, l is `ringkit_route_lowered`, m is `ringkit_route_lowered_best`,
// S is `ringkit_rewrite_sheet`, W is `ringkit_write_matrix`, M is `ringkit_report`, of many plans, and a digit is `ringkit_read_matrix` with so many fibres,
// of a SONET ring; a to j are the same with 0 to 9 fibres, of an SDH ring.
// C is `ringkit_check` and P is `ringkit_parallel`: these lend no buffer, so their lines have reason, line and byte,
// and for P the two places. Any other letter ends the run.
ghost use Rattle.std.specs.Prelude.{◌<◌};

use crossing::Pair;
use family::Family;
use reasons::Refusal;
use std::alloc::Global;
use std::io::{self, BufReader, BufWriter, Read, Write};

const ROOM: usize = 40000;

const PATTERN: u8 = 85;

// The most cases that a run answers.
const CASES: usize = 100000;

fn digit(b: u8) -> usize
    ensures { result < 10 }
{
    if b.is_ascii_digit() {
        usize::from(b - b'0')
    } else {
        0
    }
}

// The number that digits spell, of which the last five count.
fn number(digits: &[u8]) -> usize
    ensures { result < 100000 }
{
    let mut n = 0;
    for b in digits {
        n = (n * 10 + digit(*b)) % 100000;
    }
    n
}

fn sum_of(s: &[u8]) -> u64 {
    let mut sum: u64 = 0;
    for b in s {
        sum = (sum * 31 + u64::from(*b)) % 1000003;
    }
    sum
}

// What a case asks for: a call that fills a buffer, or one that is lent none.
#[derive(Clone, Copy)]
enum Call {
    Filling(Filling),
    Check,
    Parallel,
}

#[derive(Clone, Copy)]
enum Filling {
    RewriteTable,
    Route,
    RouteBest,
    RouteLowered,
    RouteLoweredBest,
    RewriteSheet,
    WriteMatrix,
    Report,
    ReadMatrix(u32, Family),
}

fn read_matrix(fibres: u8, family: Family) -> Call {
    Call::Filling(Filling::ReadMatrix(u32::from(fibres), family))
}

fn call_of(letter: u8) -> Option<Call> {
    match letter {
        b'T' => Some(Call::Filling(Filling::RewriteTable)),
        b'R' => Some(Call::Filling(Filling::Route)),
        b'B' => Some(Call::Filling(Filling::RouteBest)),
        b'l' => Some(Call::Filling(Filling::RouteLowered)),
        b'm' => Some(Call::Filling(Filling::RouteLoweredBest)),
        b'S' => Some(Call::Filling(Filling::RewriteSheet)),
        b'W' => Some(Call::Filling(Filling::WriteMatrix)),
        b'M' => Some(Call::Filling(Filling::Report)),
        b'0'..=b'9' => Some(read_matrix(letter - b'0', Family::Sonet)),
        b'a'..=b'j' => Some(read_matrix(letter - b'a', Family::Sdh)),
        b'C' => Some(Call::Check),
        b'P' => Some(Call::Parallel),
        _ => None,
    }
}

// The next `size` bytes of the input, or fewer where it ends.
fn next_bytes<R: Read>(alloc: Global, input: &mut R, size: usize) -> io::Result<Vec<u8>> {
    let mut bytes = Vec::new(alloc);
    input.by_ref().take(size as u64).read_to_end(&mut bytes)?;
    Ok(bytes)
}

// The answer of a call that fills a buffer.
fn filled(call: Filling, text: &[u8], buffer: &mut [u8]) -> Result<usize, Refusal> {
    match call {
        Filling::RewriteTable => ringkit::ringkit_rewrite_table(text, buffer),
        Filling::Route => ringkit::ringkit_route(text, buffer),
        Filling::RouteBest => ringkit::ringkit_route_best(text, buffer),
        Filling::RouteLowered => ringkit::ringkit_route_lowered(text, buffer),
        Filling::RouteLoweredBest => ringkit::ringkit_route_lowered_best(text, buffer),
        Filling::RewriteSheet => ringkit::ringkit_rewrite_sheet(text, buffer),
        Filling::WriteMatrix => matrix_calls::ringkit_write_matrix(text, buffer),
        Filling::Report => report_calls::ringkit_report(text, buffer),
        Filling::ReadMatrix(fibres, family) => {
            matrix_calls::ringkit_read_matrix(text, fibres, family, buffer)
        }
    }
}

// The numbers that are written of a refusal: its reason, line and byte; 0 for each where there is none.
fn told(refusal: Option<Refusal>) -> (u32, u32, u32) {
    match refusal {
        Some(refusal) => (refusal.reason.number(), refusal.line, refusal.byte),
        None => (0, 0, 0),
    }
}

fn answer_check<W: Write>(output: &mut W, text: &[u8]) -> io::Result<()> {
    let (reason, line, byte) = told(ringkit::ringkit_check(text).err());
    writeln!(output, "{reason} {line} {byte}")
}

// The two places, or 0 and 0 where no two rows are parallel or the sheet is refused.
fn answer_parallel<W: Write>(output: &mut W, text: &[u8]) -> io::Result<()> {
    let pair = match ringkit::ringkit_parallel(text) {
        Ok(pair) => pair,
        Err(refusal) => {
            let (reason, line, byte) = told(Some(refusal));
            return writeln!(output, "{reason} {line} {byte} 0 0");
        }
    };
    let Pair::Are(first, second) = pair else {
        return writeln!(output, "0 0 0 0 0");
    };
    writeln!(output, "0 0 0 {first} {second}")
}

// The call is lent so much of a buffer that is filled with the pattern; the sum is over all of it.
fn answer_filled<W: Write>(
    alloc: Global,
    output: &mut W,
    call: Filling,
    text: &[u8],
    room: usize,
) -> io::Result<()> {
    let mut buffer = vec![in alloc; PATTERN; ROOM]?;
    let lent = room.min(buffer.len());
    let answer = filled(call, text, &mut buffer[..lent]);
    let length = answer.unwrap_or(0);
    let (reason, line, byte) = told(answer.err());
    let sum = sum_of(&buffer);
    writeln!(output, "{reason} {line} {byte} {length} {sum}")
}

// One case; false at the end of the input and at an unknown letter.
fn one_case<R: Read, W: Write>(alloc: Global, input: &mut R, output: &mut W) -> io::Result<bool> {
    let header = next_bytes(alloc, input, 12)?;
    if header.len() < 12 {
        return Ok(false);
    }
    let Some(call) = call_of(header[0]) else {
        return Ok(false);
    };
    let size = number(&header[1..6]);
    let text = next_bytes(alloc, input, size)?;
    if text.len() < size {
        return Ok(false);
    }
    match call {
        Call::Check => answer_check(output, &text)?,
        Call::Parallel => answer_parallel(output, &text)?,
        Call::Filling(call) => answer_filled(alloc, output, call, &text, number(&header[6..11]))?,
    }
    Ok(true)
}

fn main(rt: HostRuntime) -> io::Result<()> {
    let mut input = BufReader::new(rt.alloc(), rt.reader())?;
    let mut output = BufWriter::new(rt.alloc(), io::writer(&rt))?;
    for _ in 0..CASES {
        if !one_case(rt.alloc(), &mut input, &mut output)? {
            break;
        }
    }
    output.flush()
}
