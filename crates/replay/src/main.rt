// Answers of the published Rust, replayed without it. Standard input holds inputs
// and answers that host/record wrote down, from the unchanged Rust (README.md); each
// input goes to the proved function, and its answer and its buffers are compared.
// For each function a line: its name, how many answers are equal, how many are not. A file of another form: `malformed`.
#![tactic(auto)]

mod answer;
mod counts;
mod errors;
mod frames;
mod kind;
mod packing;
mod reader;
mod rotations;

ghost use Rattle.std.specs.Prelude.{◌≡◌, ◌≤◌, length, IfOk};

use kind::Kind;
use reader::{Malformed, Reader};
use std::io::Read;
use std::{fmt, io};

// How many answers of a function came out, and how many did not.
#[derive(Clone, Copy, Debug, Default)]
struct Tally {
    equal: u64,
    different: u64,
}

impl fmt::Display for Tally {
    fn fmt<W: fmt::Write>(&self, f: &mut fmt::Formatter<W>) -> fmt::Result {
        let equal = self.equal;
        let different = self.different;
        write!(f, "{equal} equal, {different} different")
    }
}

// Whether the next record's answer came out.
fn record(kind: Kind, reader: &mut Reader<'_>) -> Result<bool, Malformed> {
    // Kept: a match on the enum of kinds; a table of closures would say no more and be longer.
    match kind {
        Kind::PackIndices => packing::pack(reader),
        Kind::UnpackIndices => packing::unpack(reader),
        Kind::WireIndexBits => counts::wire_bits(reader),
        Kind::DefaultTrainingSamples => counts::samples(reader),
        Kind::WriteCompact => frames::write(reader),
        Kind::ParseCompact => frames::parse(reader),
        Kind::Mse => errors::mse(reader),
        Kind::Apply => rotations::apply(reader),
        Kind::ApplyInverse => rotations::apply_inverse(reader),
        Kind::NearestIndex => errors::nearest(reader),
        Kind::MseForCodebook => errors::mean_error(reader),
    }
}

// Every record, a tally for each kind.
fn replay(file: &[u8]) -> Result<[Tally; 11], Malformed> {
    let mut reader = Reader::new(file)?;
    let mut tallies = [Tally {
        equal: 0,
        different: 0,
    }; 11];
    // Each record takes a byte at least, so there are no more of them than bytes.
    for _ in file {
        if reader.is_at_end() {
            break;
        }
        let kind = Kind::try_from(reader.u8()?)?;
        let same = record(kind, &mut reader)?;
        let tally = &mut tallies[kind as usize];
        if same {
            tally.equal += 1;
        } else {
            tally.different += 1;
        }
    }
    Ok(tallies)
}

fn run(rt: &impl Print, file: &[u8]) -> io::Result<()> {
    match replay(file) {
        Ok(tallies) => {
            for (kind, tally) in Kind::ALL.iter().zip(tallies.iter()) {
                println!(rt; "{kind}: {tally}")?;
            }
            Ok(())
        }
        Err(_) => println!(rt; "malformed"),
    }
}

// Room for the whole file.
const ROOM: usize = 131_072;

// Reads until `buf` is full or the input ends, and gives how many bytes it put at the start of `buf`.
fn read_full(input: &mut impl Read, buf: &mut [u8]) -> io::Result<usize>
    ensures { IfOk result (λ n. n ≤ length buf.new) }
{
    let mut done = 0;
    // Kept: each turn reads as much as the input gives at a time, until the room is full or the input ends.
    while done < buf.len() {
        let n = input.read(&mut buf[done..])?;
        if n == 0 {
            break;
        }
        done += n;
    }
    Ok(done)
}

fn main(rt: HostRuntime) -> io::Result<()> {
    let mut buf = [0; ROOM];
    let n = read_full(&mut rt.reader(), &mut buf)?;
    run(&rt, &buf[..n])
}
