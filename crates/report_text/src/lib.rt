// The monthly occupancy report as text. Document 02, 9/13.
#![tactic(auto)]

ghost use Rattle.std.specs.Prelude.{◌≡◌, true, ◌^◌, ◌<◌, ◌≤◌, length};
ghost use Rattle.std.proofs.lemmas.List.Edits.{sets};
ghost use Rattle.text.specs.Wrote.{Wrote};
ghost use Rattle.words.specs.Answer.{result_of};
ghost use Rattle.report.specs.Batch.{batch_form};
ghost use Rattle.report.specs.BatchText.{report_line, line_of_two, total_lines, occupancy_line, refused_line, refused_lines, report_text, report_answer, report_after};

use report_batch::{NUMBERS, REFUSALS, is_batch, word};
use text::Writer;
use words::refusals::{Reason, Refusal};

// A word, its blank included, and a number.
fn put_line(out: &mut Writer, name: &[u8], x: u64)
    requires { (out.old.at < 2 ^ 60) × (length name.now ≤ 10) }
    ensures { Wrote 31 (report_line name.now x) out.old out.new }
{
    out.put_bytes(name);
    out.put_number(x, b'\n');
}

// A word and two numbers.
fn put_two(out: &mut Writer, name: &[u8], x: u64, y: u64)
    requires { (out.old.at < 2 ^ 60) × (length name.now ≤ 10) }
    ensures { Wrote 52 (line_of_two name.now x y) out.old out.new }
{
    out.put_bytes(name);
    out.put_number(x, b' ');
    out.put_number(y, b'\n');
}

// The totals.
fn put_totals(out: &mut Writer, batch: &[u64])
    requires { out.old.at < 2 ^ 59 }
    ensures { Wrote 186 (total_lines batch.now) out.old out.new }
{
    put_line(out, b"parts ", word(batch, 1));
    put_line(out, b"bits ", word(batch, 2));
    put_line(out, b"lanes ", word(batch, 3));
    put_line(out, b"rounds ", word(batch, 4));
    put_line(out, b"empty ", word(batch, 5));
    put_line(out, b"words ", word(batch, 6));
}

// The occupancy of a batch that is in form.
fn put_occupancy(out: &mut Writer, batch: &[u64])
    requires { (out.old.at < 2 ^ 59) × (batch_form batch.now ≡ true) }
    ensures { Wrote 52 (occupancy_line batch.now) out.old out.new }
{
    let most = word(batch, 7) * word(batch, 1);
    put_two(out, b"occupancy ", word(batch, 2), 32 * most);
}

// The line of a refusal's number, where it occurred.
fn put_refusal(out: &mut Writer, batch: &[u64], k: usize)
    requires { (out.old.at < 2 ^ 60) × (k < 40) }
    ensures { Wrote 52 (refused_line batch.now k) out.old out.new }
{
    let count = word(batch, REFUSALS + k);
    if 0 < count {
        put_two(out, b"refused ", k as u64, count);
    }
}

// The lines of all of them, in number order.
fn put_refusals(out: &mut Writer, batch: &[u64])
    requires { out.old.at < 2 ^ 59 }
    ensures { Wrote 2080 (refused_lines batch.now 40 0) out.old out.new }
{
    for k in 0..NUMBERS {
        put_refusal(out, batch, k);
    }
}

// All lines of a batch that is in form.
fn put_report(out: &mut Writer, batch: &[u64])
    requires { (out.old.at < 2 ^ 58) × (batch_form batch.now ≡ true) }
    ensures { Wrote 2318 (report_text batch.now) out.old out.new }
{
    put_totals(out, batch);
    put_occupancy(out, batch);
    put_refusals(out, batch);
}

// How long the text is: it is written past the end of no bytes.
fn text_length(batch: &[u64]) -> usize
    requires { batch_form batch.now ≡ true }
    ensures { result ≡ length (report_text batch.now) }
{
    let mut nothing = [0u8; 0];
    let mut out = Writer::new(&mut nothing);
    put_report(&mut out, batch);
    out.at
}

// The text from the start of `out`, as far as it goes.
fn put_text(out: &mut [u8], batch: &[u64])
    requires { batch_form batch.now ≡ true }
    ensures { out.new ≡ sets out.old 0 (report_text batch.now) }
{
    put_report(&mut Writer::new(out), batch);
}

// The report of a batch, from the start of `out`: the text's length, or the refusal.
pub fn text(batch: &[u64], out: &mut [u8]) -> Result<usize, Refusal>
    ensures value { result ≡ result_of length (report_answer batch.now (length out.old)) }
    ensures out_after { out.new ≡ report_after (report_answer batch.now (length out.old)) out.old }
{
    if !is_batch(batch) {
        return Err(Refusal::nowhere(Reason::PlanForm));
    }
    let n = text_length(batch);
    if out.len() < n {
        return Err(Refusal::nowhere(Reason::ResultShort));
    }
    put_text(out, batch);
    Ok(n)
}
