// A listing read piece by piece. All that is kept of the input is a part of one line, so a line may have any length.
ghost use Rattle.std.specs.Prelude.{◌≡◌};
ghost use Rattle.text.specs.Text.{same_text, lines_of, filled, used_after};
ghost use Rattle.lines.specs.Line.{bytes_of};
ghost use Rattle.listing.specs.Listing.{names, body};
ghost use Rattle.listing.specs.Reading.{line_start, with_part, after, line_over, printed, wants_more, last_printed, read_on, printed_on, reading_of};

use lines::line::line_answer;
use lines::output::{OutputLine, output_line};
use objects::answers::Refusal;
use text::{append, line_end, same_text};

// The names line is awaited, or a line with values, or the listing has ended.
#[derive(Clone, Copy)]
pub enum Stage {
    Names,
    Values,
    Over,
}

// What is kept between two pieces: the first `count` bytes of a line, in an array so that a reader can be copied.
#[derive(Clone, Copy)]
pub struct Reader {
    pub stage: Stage,
    pub count: usize,
    pub line: [u8; 170],
}

fn is_names(line: &[u8]) -> bool
    ensures { result ≡ same_text line.now names }
{
    same_text(
        line,
        b"altitude azimuth base height width tilt orientation shade distance transparency",
    )
}

// What a line prints.
fn printed(stage: Stage, line: &[u8]) -> OutputLine
    ensures { bytes_of result ≡ printed stage line.now }
{
    match stage {
        Stage::Names => {
            if is_names(line) {
                OutputLine::nothing()
            } else {
                output_line(Err(Refusal::Line))
            }
        }
        Stage::Values => output_line(line_answer(line)),
        Stage::Over => OutputLine::nothing(),
    }
}

// What comes after a line.
fn after(stage: Stage, line: &[u8]) -> Stage
    ensures { result ≡ after stage line.now }
{
    match stage {
        Stage::Names => {
            if is_names(line) {
                Stage::Values
            } else {
                Stage::Over
            }
        }
        Stage::Values => Stage::Values,
        Stage::Over => Stage::Over,
    }
}

impl Reader {
    // At the start of a line: of the names line, to begin with.
    pub fn line_start(stage: Stage) -> Self
        ensures { reading_of result ≡ line_start stage }
    {
        Reader {
            stage,
            count: 0,
            line: [0; 170],
        }
    }

    // What is kept of the line that is being read.
    fn held(&self) -> &[u8]
        ensures { result.now ≡ (reading_of self.now).held }
    {
        &self.line[..self.count.min(self.line.len())]
    }

    // More of the line that is being read.
    pub fn take_part(&mut self, part: &[u8])
        ensures { reading_of self.new ≡ with_part (reading_of self.old) part.now }
    {
        let count = self.count;
        self.count = append(&mut self.line, count, part);
    }

    // The line that is being read has ended. Answers what is printed.
    pub fn line_over(&mut self) -> OutputLine
        ensures { (reading_of self.new ≡ line_over (reading_of self.old))
            × (bytes_of result ≡ printed self.old.stage (reading_of self.old).held) }
    {
        let output = printed(self.stage, self.held());
        self.stage = after(self.stage, self.held());
        self.count = 0;
        output
    }

    // Whether anything that follows can still be answered: nothing is after a wrong names line.
    pub fn wants_more(&self) -> bool
        ensures { result ≡ wants_more self.now.stage }
    {
        match self.stage {
            Stage::Names | Stage::Values => true,
            Stage::Over => false,
        }
    }

    // Answers the lines that end in a piece: puts what they print behind the first `used` bytes of a list, as far as there is room. Answers
    // how many are used then.
    pub fn answer_piece(&mut self, piece: &[u8], list: &mut [u8], used: usize) -> usize
        ensures { (reading_of self.new ≡ read_on (reading_of self.old) piece.now)
            × (result ≡ used_after list.old used (printed_on (reading_of self.old) piece.now))
            × (list.new ≡ filled list.old used (printed_on (reading_of self.old) piece.now)) }
    {
        let mut count = used;
        let mut rest = piece;
        // No index: what is left of the piece goes down a line at a time.
        while let Some(end) = line_end(rest) {
            self.take_part(&rest[..end]);
            count = append(list, count, self.line_over().as_slice());
            rest = &rest[end + 1..];
        }
        self.take_part(rest);
        count
    }

    // The input has ended. Its last line may lack a line feed.
    pub fn input_over(mut self) -> OutputLine
        ensures { bytes_of result ≡ last_printed self.stage (reading_of self).held }
    {
        match self.stage {
            Stage::Values => {
                if self.held().is_empty() {
                    OutputLine::nothing()
                } else {
                    self.line_over()
                }
            }
            Stage::Names | Stage::Over => self.line_over(),
        }
    }
}

// Answers a whole text: puts the lines that answer it at the start of a list, as far as there is room. Answers how many bytes they are.
pub fn answer_text(text: &[u8], list: &mut [u8]) -> usize
    ensures { (result ≡ used_after list.old 0 (body (lines_of text.now)))
        × (list.new ≡ filled list.old 0 (body (lines_of text.now))) }
{
    let mut reader = Reader::line_start(Stage::Names);
    let used = reader.answer_piece(text, list, 0);
    append(list, used, reader.input_over().as_slice())
}
