//! Makes a product of a transcript, from bytes to bytes: a replay, a trace, a picture or a page.

ghost use Rattle.std.specs.Prelude.{◌≡◌, length, IfErr, IfOk};
ghost use Rattle.smx_text.specs.TranscriptText.{IsAllowed};
ghost use Rattle.smx_run.specs.Devices.{AreReady};
ghost use Rattle.smx_filters.specs.ExplainText.{KeepsText};
ghost use Rattle.smx_filters.specs.Filters.{Answers};
ghost use Rattle.smx_filters.specs.Products.{IsProductOf, IsShortPage, RefusesPart, RefusesProduct, RefusesSteps};
ghost use Rattle.smx_filters.specs.Products.{making};
ghost use Rattle.smx_filters.specs.RunText.{items_of};

use smx_draw::{Form, draw};
use smx_run::{Feed, MainFault, Product, Refusal, RunFault, Sink, read_all, write_all};
use smx_steps::{PageFault, page};
use smx_text::read_transcript;
use smx_trace::{first_entries, replay, trace};
use smx_types::Transcript;
use std::alloc::Global;

/// Reads a transcript from `feed`, makes this product from it, and writes the product to `sink`. Keeps the text if the
/// text or its drivers have a fault. Requires that neither `feed` nor `sink` has failed before and that the feed has
/// not ended. Reads at most 16,777,217 bytes. Checks for faults in this order:
///
/// - for a replay: reading, text, the number of entries, drivers, replaying, writing
/// - for a trace: reading, text, drivers, tracing, writing
/// - for a picture: reading, text, drawing, writing
/// - for a page: reading, text, the number of entries, drivers, the page, writing
pub fn make_text<F: Feed, S: Sink>(
    alloc: Global,
    feed: &mut F,
    sink: &mut S,
    product: Product,
) -> Result<(), Refusal>
    requires { AreReady (F.ended feed.old) (F.failures feed.old) (S.failures sink.old) }
    ensures { KeepsText (making product) (F.remaining feed.old) (F.remaining feed.new) (F.ended feed.new)
        (F.failures feed.new) (S.contents sink.old) (S.contents sink.new) (S.flushed sink.new)
        (S.failures sink.new) result }
{
    let input = read_all(alloc, feed)?;
    match text_of_product(alloc, input.as_slice(), product) {
        Ok(output) => Ok(write_all(sink, output.as_slice())?),
        Err(fault) => Err(Refusal::kept_for(fault, input)),
    }
}

// Returns the product of the transcript that the input spells.
fn text_of_product(alloc: Global, input: &[u8], product: Product) -> Result<Vec<u8>, MainFault>
    ensures { Answers (making product) input.now (items_of result) }
{
    let transcript = read_transcript(alloc, input)?;
    Ok(product_of(alloc, transcript, product)?)
}

// Returns the product of a transcript.
fn product_of(alloc: Global, transcript: Transcript, product: Product) -> Result<Vec<u8>, RunFault>
    requires { IsAllowed transcript.version transcript }
    ensures made { IfOk result (λ text. IsProductOf product transcript text.items) }
    ensures refused { IfErr result (RefusesProduct product transcript) }
{
    match product {
        Product::Replay { at } => replay_of(alloc, transcript, at),
        Product::Trace { waits } => Ok(trace(alloc, transcript, waits)?),
        Product::Svg => Ok(draw(alloc, &transcript, Form::Svg)?),
        Product::Dot => Ok(draw(alloc, &transcript, Form::Dot)?),
        Product::Page => page_of(alloc, transcript),
    }
}

// Returns the replay of a transcript, or of its first `at` entries if `at` is a number. Fails if `at` is more than the
// number of its entries.
fn replay_of(alloc: Global, transcript: Transcript, at: Option<usize>) -> Result<Vec<u8>, RunFault>
    requires { IsAllowed transcript.version transcript }
    ensures made { IfOk result (λ text. IsProductOf (Product.Replay at) transcript text.items) }
    ensures refused { IfErr result (RefusesPart at transcript) }
{
    let Some(count) = at else {
        return Ok(replay(alloc, transcript)?);
    };
    let entries = transcript.entries.as_slice().len();
    if entries < count {
        return Err(RunFault::FewEntries(entries));
    }
    Ok(replay(alloc, first_entries(transcript, count))?)
}

// Returns the page of a transcript. A fault of the page becomes one of the program.
fn page_of(alloc: Global, transcript: Transcript) -> Result<Vec<u8>, RunFault>
    ensures made { IfOk result (λ text. IsShortPage transcript text.items) }
    ensures refused { IfErr result (RefusesSteps transcript) }
{
    match page(alloc, transcript) {
        Ok(text) => Ok(text),
        Err(PageFault::Refused(fault)) => Err(RunFault::from(fault)),
        Err(PageFault::TooLong(count)) => Err(RunFault::LongPage(count)),
    }
}
