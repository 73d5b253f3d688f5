// Setting up a bench, and running it on stored bytes.
ghost use Rattle.std.specs.Prelude.{◌≡◌, true, false, [], ◌∷◌, length, take, IfOk, None, Ok};
ghost use Rattle.polar.specs.Words.{trues};
ghost use Rattle.polar.specs.Bytes.{bytes};
ghost use Rattle.polar.specs.Refusals.{Outcome};
ghost use Rattle.readers.specs.Blocks.{pile_due};
ghost use Rattle.storage.specs.Contents.{Content};
ghost use Rattle.storage.specs.Reading.{outcome};
ghost use Rattle.analyser.specs.Assurance.{LightHistoriesReadTrue};
ghost use Rattle.analyser.specs.Comparing.{data_kept};
ghost use Rattle.captures.specs.Captures.{made_of};
ghost use Rattle.captures.specs.Tops.{top_count};
ghost use Rattle.captures.specs.Views.{captured};
ghost use Rattle.reports.specs.Pages.{text_on};
ghost use Rattle.reports.specs.Report.{report};
ghost use Rattle.reports.specs.Printed.{bench_reading, printed, HoldsLoaded, LightHistoriesPrintTrue};

use crate::bench::{BIT_PLACES, Bench, SOFT_PLACES};
use crate::page::Page;
use analyser::reading::read_counts;
use captures::capture::Capture;
use polar::plan::MAX_LENGTH;
use polar::refusal::Refusal;
use readers::reader::Reader;
use readers::split::Split;
use scored_readers::exhaustive::Exhaustive;
use scored_readers::shortcut::Shortcut;
use soft::count::Count;
use std::alloc::{AllocError, Global};

impl Bench {
    // A bench with an empty page and a new capture place.
    pub fn new(heap: Global) -> Result<Bench, AllocError>
        ensures { IfOk result (λ bench. (text_on bench.page ≡ []) × (captured bench.capture ≡ made_of top_count (true ∷ []) (false ∷ []) 0)) }
    {
        let capture = Capture::new(heap)?;
        let page = Page::new(heap)?;
        let mut soft = Vec::new(heap);
        soft.resize(SOFT_PLACES, Count(0))?;
        let mut bits = Vec::new(heap);
        bits.resize(BIT_PLACES, false)?;
        Ok(Bench {
            capture,
            page,
            soft,
            bits,
        })
    }
}

impl Bench {
    // What was printed last.
    pub fn text(&self) -> &[u8]
        ensures { result.now ≡ text_on self.now.page }
    {
        self.page.text()
    }

    // Loads the capture that the bytes store, reads it by counts and writes its report. Bytes that are refused leave the capture
    // as it was, and the report is their refusal. However often the capture was edited, exported, imported, saved and loaded, the data in
    // the report are the sender's as long as the edits are charged less than 127 × the plan's weight in all.
    pub fn run(&mut self, input: &[u8])
        ensures text { text_on self.new.page ≡ printed input.now }
        ensures light { (c : Content) → outcome top_count input.now ≡ Ok c → LightHistoriesPrintTrue top_count (captured self.new.capture) (text_on self.new.page) }
        ensures held { HoldsLoaded (captured self.old.capture) input.now (captured self.new.capture) }
    {
        match self.capture.load(input) {
            Ok(()) => self.report(),
            Err(refusal) => self.page.tell_refusal(refusal),
        }
    }

    // Reads the capture and writes its report.
    fn report(&mut self)
        ensures text { text_on self.new.page ≡ report top_count (captured self.old.capture) (data_kept bench_reading (captured self.old.capture)) }
        ensures light { LightHistoriesPrintTrue top_count (captured self.old.capture) (text_on self.new.page) }
        ensures kept { self.new.capture ≡ self.old.capture }
    {
        // (A local row, which takes no memory.)
        let mut out = [0u8; MAX_LENGTH];
        let reader = bench_readers();
        let active = read_front(
            &reader,
            &self.capture,
            self.soft.as_mut_slice(),
            self.bits.as_mut_slice(),
            &mut out,
        )
        .unwrap();
        self.page
            .tell_capture(&self.capture, &out[0..active])
            .unwrap();
    }
}

// Split over shortcut over exhaustive 4.
fn bench_readers() -> Split<Shortcut<Exhaustive>>
    ensures { result.below.below.threshold ≡ 4 }
{
    Split {
        below: Shortcut {
            below: Exhaustive::new(4).unwrap(),
        },
    }
}

// Reads a capture by counts. The data stand in the front of the output. (A call of its own for these clauses, which the longest row allows.)
fn read_front<R: Reader<Count>>(
    reader: &R,
    capture: &Capture,
    soft: &mut [Count],
    bits: &mut [bool],
    out: &mut [u8],
) -> Result<usize, Refusal>
    requires { length out.old ≡ 4096 }
    ensures due { Outcome (pile_due (R.Reader.reading reader.now) (captured capture.now).marks_row (length soft.old) (length bits.old) None) result (λ _. Unit {0}) (Unit {0}) }
    ensures front { IfOk result (λ k. (k ≡ trues (captured capture.now).marks_row) × (take k out.new ≡ bytes (data_kept (R.Reader.reading reader.now) (captured capture.now)))) }
    ensures light { IfOk result (λ k. LightHistoriesReadTrue top_count (captured capture.now) (take k out.new)) }
{
    read_counts(reader, capture, soft, bits, out)
}
