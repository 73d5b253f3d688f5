// Writing a report on a page.
ghost use Rattle.std.specs.Prelude.{◌≡◌, ◌+◌, ◌≤◌, [], ◌++◌, length, vec_items, IfOk, OnOk};
ghost use Rattle.polar.specs.Bytes.{bits};
ghost use Rattle.polar.specs.Refusals.{Outcome};
ghost use Rattle.captures.specs.Tops.{top_count};
ghost use Rattle.captures.specs.Views.{captured};
ghost use Rattle.reports.specs.Report.{report, refusal_report};
ghost use Rattle.reports.specs.Pages.{text_on, tell_due, Asked, Told};

use crate::page::Page;
use crate::page::lines::{put_against, put_data, put_plan, put_refusal, put_shortfall};
use crate::text::Text;
use analyser::bounds::bound_of;
use captures::capture::Capture;
use polar::code::encode;
use polar::plan::MAX_LENGTH;
use polar::refusal::Refusal;
use std::alloc::{AllocError, Global};

impl Page {
    // An empty page.
    pub fn new(heap: Global) -> Result<Page, AllocError>
        ensures { IfOk result (λ page. text_on page ≡ []) }
    {
        let text = Text::new(heap)?;
        Ok(Page { text })
    }
}

impl Page {
    // What stands on the page.
    pub fn text(&self) -> &[u8]
        ensures { result.now ≡ text_on self.now }
    {
        self.text.as_bytes()
    }

    // Replaces the page by the line of a refusal.
    pub fn tell_refusal(&mut self, refusal: Refusal)
        ensures { text_on self.new ≡ refusal_report refusal }
    {
        self.text.clear();
        put_refusal(&mut self.text, refusal);
    }

    // Replaces the page by the report of a capture and the data read from it: its plan's figures, the data, how far the capture falls
    // short of their codeword, and the first place that contradicts it.
    pub fn tell_capture(&mut self, capture: &Capture, data: &[u8]) -> Result<(), Refusal>
        ensures { Told top_count self.old (captured capture.now) «data».now result self.new }
    {
        let (shortfall, against) = question(capture, data)?;
        self.text.clear();
        put_report(&mut self.text, capture, data, shortfall, against);
        Ok(())
    }
}

// How far a capture falls short of the codeword of data, and the first place that contradicts it.
fn question(capture: &Capture, data: &[u8]) -> Result<(u32, Option<usize>), Refusal>
    ensures value { Outcome (tell_due (captured capture.now) «data».now) result (λ a. Asked top_count (captured capture.now) (bits «data».now) a.0 a.1) (Unit {0}) }
    ensures few { OnOk result (length «data».now ≤ 4096) }
{
    let plan = capture.plan();
    // (A local row, which takes no memory.)
    let mut room = [0u8; MAX_LENGTH];
    encode(plan, data, &mut room)?;
    let word = &room[0..plan.length()];
    let shortfall = capture.shortfall(word)?;
    let against = capture.first_against(word)?;
    Ok((shortfall, against))
}

// The lines of a capture.
fn put_report(
    text: &mut Text,
    capture: &Capture,
    data: &[u8],
    shortfall: u32,
    against: Option<usize>,
)
    requires empty { vec_items text.old ≡ [] }
    requires short { length «data».now ≤ 4096 }
    requires asked { Asked top_count (captured capture.now) (bits «data».now) shortfall against }
    ensures { vec_items text.new ≡ report top_count (captured capture.now) (bits «data».now) }
{
    put_plan(text, capture.plan());
    put_data(text, data);
    put_shortfall(text, shortfall as usize, bound_of(capture));
    put_against(text, against);
}
