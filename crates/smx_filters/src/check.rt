//! A check from bytes to bytes, with an explanation or without one.

ghost use Rattle.std.specs.Prelude.{◌≡◌, string_bytes, IfErr, IfOk};
ghost use Rattle.smx_run.specs.Devices.{AreReady};
ghost use Rattle.smx_filters.specs.CheckText.{ChecksText, IsJudged, IsRefusedCheck, checking, judged_of, verdict_line};
ghost use Rattle.smx_filters.specs.ExplainText.{KeepsText, explained_of, explaining};
ghost use Rattle.smx_filters.specs.Filters.{Answers};

use smx_config::{Verdict, check_history};
use smx_explain::explain;
use smx_run::{Feed, MainFault, Refusal, Sink, read_all, write_all};
use smx_text::read_transcript;
use smx_types::Transcript;
use std::alloc::{AllocError, Global};

/// Reads a transcript from `feed`, judges it, and writes the line of the verdict to `sink`: `legal N`, for N entries;
/// `illegal K`, if entry K, counted from 1, is the first with a wrong reply; or `config differs`, if only the
/// configuration shown is wrong. Requires that neither `feed` nor `sink` has failed before and that the feed has not
/// ended. Reads at most 16,777,217 bytes. Checks for faults in this order: reading, text, drivers, judging, writing.
pub fn check_text<F: Feed, S: Sink>(
    alloc: Global,
    feed: &mut F,
    sink: &mut S,
) -> Result<Verdict, MainFault>
    requires { AreReady (F.ended feed.old) (F.failures feed.old) (S.failures sink.old) }
    ensures { ChecksText (F.remaining feed.old) (F.remaining feed.new) (F.ended feed.new)
        (F.failures feed.new) (S.contents sink.old) (S.contents sink.new) (S.flushed sink.new)
        (S.failures sink.new) result }
{
    let input = read_all(alloc, feed)?;
    let (verdict, line) = judge(alloc, input)?;
    write_all(sink, line.as_bytes())?;
    Ok(verdict)
}

/// Judges the transcript in `feed` as `check_text` does. Writes to `sink` the line that `check_text` writes. If the
/// transcript is not legal, writes below it the first line in which the transcript and its replay differ. Keeps the
/// text if the text or its drivers have a fault. Checks for faults in the order of `check_text`: reading, text,
/// drivers, judging and explaining, writing.
pub fn check_explained<F: Feed, S: Sink>(
    alloc: Global,
    feed: &mut F,
    sink: &mut S,
) -> Result<Verdict, Refusal>
    requires { AreReady (F.ended feed.old) (F.failures feed.old) (S.failures sink.old) }
    ensures { KeepsText explaining (F.remaining feed.old) (F.remaining feed.new) (F.ended feed.new)
        (F.failures feed.new) (S.contents sink.old) (S.contents sink.new) (S.flushed sink.new)
        (S.failures sink.new) result }
{
    let input = read_all(alloc, feed)?;
    match explained(alloc, input.as_slice()) {
        Ok((verdict, output)) => {
            write_all(sink, output.as_slice())?;
            Ok(verdict)
        }
        Err(fault) => Err(Refusal::kept_for(fault, input)),
    }
}

// Judges the transcript that the input spells. Returns the verdict and its line.
fn judge(alloc: Global, input: Vec<u8>) -> Result<(Verdict, String), MainFault>
    ensures { Answers checking input.items (judged_of result) }
{
    let transcript = read_transcript(alloc, input.as_slice())?;
    drop(input);
    judged(alloc, &transcript)
}

// Judges the transcript that the input spells. Returns the verdict, and its line with the explanation below it. If the
// verdict is `legal`, there is no explanation, and no replay is made.
fn explained(alloc: Global, input: &[u8]) -> Result<(Verdict, Vec<u8>), MainFault>
    ensures { Answers explaining input.now (explained_of result) }
{
    let transcript = read_transcript(alloc, input)?;
    let (verdict, line) = judged(alloc, &transcript)?;
    let mut output = line.into_bytes();
    if verdict == Verdict::Legal {
        return Ok((verdict, output));
    }
    let explanation = explain(alloc, input, transcript)?;
    output.extend_from_slice(explanation.as_slice())?;
    Ok((verdict, output))
}

// Judges a transcript. Returns the verdict and its line.
fn judged(alloc: Global, transcript: &Transcript) -> Result<(Verdict, String), MainFault>
    ensures judged { IfOk result (λ j. IsJudged transcript.now j.0 (string_bytes j.1)) }
    ensures refused { IfErr result (IsRefusedCheck transcript.now.drivers) }
{
    let drivers = transcript.drivers.as_slice();
    let entries = transcript.entries.as_slice();
    let verdict = check_history(alloc, drivers, entries, &transcript.view)?;
    let line = verdict_line(alloc, entries.len(), verdict)?;
    Ok((verdict, line))
}

// Returns the line of a verdict on `entries` entries.
fn verdict_line(alloc: Global, entries: usize, verdict: Verdict) -> Result<String, AllocError>
    ensures { IfOk result (λ line. string_bytes line ≡ verdict_line entries verdict) }
{
    match verdict {
        Verdict::Legal => format!(in alloc; "legal {entries}\n"),
        Verdict::Illegal { entry } => format!(in alloc; "illegal {entry}\n"),
        Verdict::ConfigDiffers => format!(in alloc; "config differs\n"),
    }
}
