// The lines that the bench prints, put on a page: the header, the line of a record, and the last line. They are put by calls, not
// by `write!`: the clauses say which bytes they are (`header_text`, `line_of`, `last_line_of`, `verdict_of`).
#![tactic(auto)]

ghost use Rattle.std.specs.Prelude.{◌≡◌};
ghost use Rattle.buffers.specs.Page.{puts_of};
ghost use Rattle.buffers.specs.Shown.{shown};
ghost use Rattle.bench_lines.specs.Lines.{header_text, line_of, last_line_of, verdict_of};

use bench_columns::{column, five};
use record::Outcome;
use tape_session::Stop;
use text::{Page, put_decimal};

// The header.
pub fn header(page: &mut Page)
    ensures same_buffer { page.new.bytes.ghost_name ≡ page.old.bytes.ghost_name }
    ensures put { shown page.new ≡ puts_of header_text (shown page.old) }
{
    page.put_all(b"record answer command address wait data rest\n");
}

// The line of record k.
#[tactic(auto, using(buffers::specs::Laws::puts_append), unfolding(crate::specs::Lines::line_of, buffers::specs::Page::puts_of))]
pub fn line(page: &mut Page, k: u64, o: Outcome)
    ensures same_buffer { page.new.bytes.ghost_name ≡ page.old.bytes.ghost_name }
    ensures put { shown page.new ≡ puts_of (line_of k o) (shown page.old) }
{
    put_decimal(page, k);
    column(page, u64::from(u8::from(o.answer)));
    five(page, o.counts);
    page.put(b'\n');
}

// A word and a number, on a line of their own.
#[tactic(auto, using(buffers::specs::Laws::puts_append), unfolding(crate::specs::Lines::last_line_of, buffers::specs::Page::puts_of))]
pub fn last_line(page: &mut Page, word: &[u8], v: u64)
    ensures same_buffer { page.new.bytes.ghost_name ≡ page.old.bytes.ghost_name }
    ensures put { shown page.new ≡ puts_of (last_line_of word.now v) (shown page.old) }
{
    page.put_all(word);
    column(page, v);
    page.put(b'\n');
}

// The verdict: how many records there were, or where a bad one stands.
pub fn verdict(page: &mut Page, why: Stop, before: u64, offset: usize)
    ensures same_buffer { page.new.bytes.ghost_name ≡ page.old.bytes.ghost_name }
    ensures put { shown page.new ≡ puts_of (verdict_of why before offset) (shown page.old) }
{
    match why {
        Stop::End => last_line(page, b"end", before),
        Stop::Bad(_) | Stop::Unready(_) => last_line(page, b"bad", offset as u64),
    }
}
