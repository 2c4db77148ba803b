// Replays answers of the published Rust: calls the code with what is in six files and compares. Prints for each file how many
// records it has and how many of them come out otherwise. `oracle/README.md` has the files' format.
#![tactic(auto)]

ghost use Rattle.std.specs.Io.{ReadsAtMost};

use kept_answers::parts::record_end;
use std::io::Read;
use std::rt::Files;
use std::{fs, io};
use words::word_at;

// How many records there were, and how many came out otherwise.
#[derive(Clone, Copy, Default)]
struct Tally {
    count: u64,
    different: u64,
}

impl Tally {
    // One record more. The zeros behind a block's last record are none.
    fn add_record(&mut self, kept: &[u8]) {
        if word_at(kept, 0) == 0 {
            return;
        }
        self.count = self.count.wrapping_add(1);
        if kept_answers::differs(kept) {
            self.different = self.different.wrapping_add(1);
        }
    }

    // All records of a block.
    fn add_block(&mut self, block: &[u8]) {
        let mut rest = block;
        // No index: what is left of the block goes down a record at a time.
        while !rest.is_empty() {
            let (record, behind) = rest.split_at(record_end(rest, 0));
            self.add_record(record);
            rest = behind;
        }
    }
}

// Reads until the block is full or the file ends. Answers how many bytes were read, which the library's `read_exact` does not tell.
fn read_full(file: &mut impl Read, block: &mut [u8]) -> io::Result<usize>
    ensures { ReadsAtMost result block.new }
{
    let mut done = 0;
    // No index: how far a read gets is known after it.
    while done < block.len() {
        let n = file.read(&mut block[done..])?;
        if n == 0 {
            break;
        }
        done += n;
    }
    Ok(done)
}

// Reads a block and replays it. Answers how many bytes it has. No record lies in two blocks, and only the last one is shorter than the
// buffer.
fn read_block(file: &mut impl Read, tally: &mut Tally) -> io::Result<usize> {
    let mut block = [0u8; 65536];
    let n = read_full(file, &mut block)?;
    tally.add_block(&block[..n]);
    Ok(n)
}

// Nothing says that a file ends, so the loop has a bound, which no file comes to.
fn replayed(file: &mut impl Read) -> io::Result<Tally> {
    let mut tally = Tally::default();
    for _ in 0..u64::MAX {
        if read_block(file, &mut tally)? == 0 {
            break;
        }
    }
    Ok(tally)
}

// A file that cannot be opened is named on standard error, and those behind it are replayed all the same.
fn report(rt: &(impl Files + Print + Eprint), name: &str) -> io::Result<()> {
    let mut file = match fs::open(rt, name) {
        Ok(file) => file,
        Err(error) => return eprintln!(rt; "{name}: {error}"),
    };
    let tally = replayed(&mut file)?;
    println!(rt; "{name} {}, different {}", tally.count, tally.different)
}

fn main(rt: HostRuntime) -> io::Result<()> {
    report(&rt, "runs")?;
    report(&rt, "factors")?;
    report(&rt, "leaves")?;
    report(&rt, "listings")?;
    report(&rt, "days")?;
    report(&rt, "strips")
}
