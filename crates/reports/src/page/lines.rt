// The lines of a report.
ghost use Rattle.std.specs.Prelude.{◌≡◌, ◌+◌, ◌≤◌, ◌++◌, length, codes, decimal, vec_items, vec_len};
ghost use Rattle.polar.specs.Bytes.{bits};
ghost use Rattle.polar.specs.Plans.{marks_of};
ghost use Rattle.reports.specs.Text.{line, digits};
ghost use Rattle.reports.specs.Report.{plan_lines, told_place, refusal_report};

use crate::page::PAGE_ROOM;
use crate::text::Text;
use polar::plan::Plan;
use polar::refusal::Refusal;

// The figures of a plan.
pub(crate) fn put_plan(text: &mut Text, plan: &Plan)
    requires { vec_len text.old + 84 ≤ PAGE_ROOM }
    ensures value { vec_items text.new ≡ vec_items text.old ++ plan_lines (marks_of plan.now) }
    ensures few { vec_len text.new ≤ vec_len text.old + 84 }
{
    text.put_number_line(b"length ", plan.length());
    text.put_number_line(b"active ", plan.active());
    text.put_number_line(b"weight ", plan.weight());
}

// The data that were read.
pub(crate) fn put_data(text: &mut Text, data: &[u8])
    requires { vec_len text.old + length «data».now + 6 ≤ PAGE_ROOM }
    ensures value { vec_items text.new ≡ vec_items text.old ++ line (codes "data " ++ digits (bits «data».now)) }
    ensures few { vec_len text.new ≤ vec_len text.old + length «data».now + 6 }
{
    text.put(b"data ");
    text.put_digits(data);
    text.put(b"\n");
}

// How far a capture falls short, and of what bound.
pub(crate) fn put_shortfall(text: &mut Text, shortfall: usize, bound: usize)
    requires { vec_len text.old + 55 ≤ PAGE_ROOM }
    ensures value { vec_items text.new ≡ vec_items text.old ++ line (codes "shortfall " ++ decimal shortfall ++ codes " of " ++ decimal bound) }
    ensures few { vec_len text.new ≤ vec_len text.old + 55 }
{
    text.put(b"shortfall ");
    text.put_decimal(shortfall);
    text.put_number_line(b" of ", bound);
}

// The first contradicted place, or none.
pub(crate) fn put_against(text: &mut Text, against: Option<usize>)
    requires { vec_len text.old + 29 ≤ PAGE_ROOM }
    ensures { vec_items text.new ≡ vec_items text.old ++ line (codes "against " ++ told_place against) }
{
    match against {
        Some(place) => text.put_number_line(b"against ", place),
        None => text.put(b"against none\n"),
    }
}

// A refusal, with its place where it has one: the text that `Display` gives it, and a line end. (Put by hand: `write!` to a String may want
// memory, and a page takes none.)
pub(crate) fn put_refusal(text: &mut Text, refusal: Refusal)
    requires { vec_len text.old + 53 ≤ PAGE_ROOM }
    ensures { vec_items text.new ≡ vec_items text.old ++ refusal_report refusal }
{
    text.put(b"refused ");
    text.put_decimal(usize::from(refusal.number()));
    match refusal.place() {
        Some(place) => text.put_number_line(b" at ", place),
        None => text.put(b"\n"),
    }
}
