// Answers a shade listing: lines with ten values on standard input, lines with a number and a factor on standard output.
#![tactic(auto)]

ghost use Rattle.std.specs.Prelude.{◌≡◌, true, [], IfOk, MatchResult};
ghost use Rattle.lines.specs.Line.{bytes_of};
ghost use Rattle.listing.specs.Reading.{wants_more, last_printed, reading_of};

use lines::output::OutputLine;
use listing::reader::{Reader, Stage};
use std::io;
use std::io::Read;

// Tells of a failure.
fn reported<T>(rt: &impl Eprint, stream: &str, outcome: io::Result<T>) -> io::Result<T>
    ensures { result ≡ outcome }
{
    if let Err(error) = &outcome {
        let _ = eprintln!(rt; "{stream}: {error}");
    }
    outcome
}

fn write_out(rt: &(impl Print + Eprint), bytes: &[u8]) -> io::Result<()> {
    reported(rt, "standard output", rt.write_all(bytes))
}

// Prints what the lines print that end in a piece, and says whether to go on: only where more is wanted. A piece of 2,048 bytes has at
// most as many lines, each answered by at most 19 bytes, so that there is room for all answers.
fn print_answers(rt: &(impl Print + Eprint), reader: &mut Reader, piece: &[u8]) -> io::Result<bool>
    ensures { IfOk result (λ going. going ≡ wants_more reader.new.stage) }
{
    let mut out = [0u8; 65536];
    let used = reader.answer_piece(piece, &mut out, 0);
    write_out(rt, &out[..used])?;
    Ok(reader.wants_more())
}

// Reads a piece and answers its lines. After a wrong names line nothing is read: the input may stay open for ever.
fn read_piece(
    rt: &(impl Print + Eprint),
    input: &mut impl Read,
    reader: &mut Reader,
) -> io::Result<bool>
    requires { wants_more reader.old.stage ≡ true }
    ensures { IfOk result (λ going. going ≡ true → wants_more reader.new.stage ≡ true) }
{
    let mut piece = [0u8; 2048];
    let n = reported(rt, "standard input", input.read(&mut piece))?;
    if n == 0 {
        return Ok(false);
    }
    print_answers(rt, reader, &piece[..n])
}

// Nothing says that the input ends, so the loop has a bound, which no run comes to.
fn read_all(
    rt: &(impl Print + Eprint),
    input: &mut impl Read,
    reader: &mut Reader,
) -> io::Result<()>
    requires { wants_more reader.old.stage ≡ true }
{
    for _ in 0..u64::MAX {
        if !read_piece(rt, input, reader)? {
            break;
        }
    }
    Ok(())
}

// What the end of the input prints. Where a read or a write has failed the listing is over: what was read of the last line may be cut
// short, and is not answered.
fn last_line(outcome: io::Result<()>, reader: Reader) -> OutputLine
    ensures { MatchResult outcome (λ _. bytes_of result ≡ last_printed reader.stage (reading_of reader).held) (λ _. bytes_of result ≡ []) }
{
    match outcome {
        Ok(()) => reader.input_over(),
        Err(_error) => OutputLine::nothing(),
    }
}

fn answer_input(rt: &(impl Print + Eprint), input: &mut impl Read) -> io::Result<()> {
    write_out(rt, b"number factor\n")?;
    let mut reader = Reader::line_start(Stage::Names);
    let outcome = read_all(rt, input, &mut reader);
    write_out(rt, last_line(outcome, reader).as_slice())
}

// Failures have been told of.
fn main(rt: HostRuntime) {
    let mut input = rt.stdin();
    let _ = answer_input(&rt, &mut input);
}
