// The answer as text.
ghost use Rattle.std.specs.Prelude.{◌^◌, ◌<◌};
ghost use Rattle.text.specs.Wrote.{Wrote};
ghost use Rattle.listing.specs.ListingAnswer.{answer_text, unlisted_text};

use crate::lines::Section;
use text::Writer;
use words::refusals::Refusal;

// Why no lines are listed: a bad record, by its byte; or the refusal of the read set that the records ask for.
#[derive(Clone, Copy)]
pub enum Unlisted {
    Record(usize),
    Set(Refusal),
}

// The rounds that a section holds.
fn put_rounds(out: &mut Writer, section: &Section, rounds: u32)
    requires { out.old.at < 2 ^ 57 }
    ensures { Wrote (2 ^ 60) (answer_text section.now.lanes (Ok rounds) section.now.words.now) out.old out.new }
{
    out.put_bytes(b"rounds ");
    out.put_number(rounds as u64, b'\n');
    section.put_lanes(out, rounds);
}

// Why there are none.
fn put_unlisted(out: &mut Writer, why: Unlisted)
    requires { out.old.at < 2 ^ 57 }
    ensures { Wrote 35 (unlisted_text why) out.old out.new }
{
    match why {
        Unlisted::Set(refusal) => {
            out.put_bytes(b"refused ");
            out.put_number(refusal.number as u64, b'\n');
        }
        Unlisted::Record(byte) => {
            out.put_bytes(b"refused 17 at ");
            out.put_number(byte as u64, b'\n');
        }
    }
}

pub fn put_answer(out: &mut Writer, answer: Result<u32, Unlisted>, section: &Section)
    requires { out.old.at < 2 ^ 57 }
    ensures { Wrote (2 ^ 60) (answer_text section.now.lanes answer section.now.words.now) out.old out.new }
{
    match answer {
        Ok(rounds) => put_rounds(out, section, rounds),
        Err(why) => put_unlisted(out, why),
    }
}
