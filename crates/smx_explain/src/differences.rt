//! The explanation that is shown below the verdict on a transcript: the first line in which the transcript and its
//! replay differ.

ghost use Rattle.std.specs.Prelude.{◌≡◌, MatchOption, IfErr, IfOk};
ghost use Rattle.smx_config.specs.DriverFaults.{RefusesDrivers};
ghost use Rattle.smx_explain.specs.Differences.{AreAlike, IsFirstDifference};
ghost use Rattle.smx_explain.specs.Explanations.{IsExplanation, difference_text};
ghost use Rattle.smx_text.specs.TranscriptText.{SpellsTranscript};

use smx_config::ConfigFault;
use smx_text::next_line;
use smx_trace::replay;
use smx_types::{NoMemory, Transcript};
use std::alloc::Global;

/// Returns the explanation of `transcript`. `text` must be the text of this transcript. The explanation is empty
/// exactly if the transcript is legal, that is, if it is its own replay. Otherwise, the explanation shows the first
/// line in which `text` and the text of the replay differ: this line of `text`, and this line of the replay. Fails if
/// the drivers are not valid, or if it is out of memory.
pub fn explain(alloc: Global, text: &[u8], transcript: Transcript) -> Result<Vec<u8>, ConfigFault>
    requires { SpellsTranscript text.now transcript }
    ensures told { IfOk result (λ told. IsExplanation transcript told.items) }
    ensures refused { IfErr result (RefusesDrivers transcript.drivers) }
{
    let replayed = replay(alloc, transcript)?;
    match first_difference(text, replayed.as_slice()) {
        Some((number, told, has)) => Ok(difference_text(alloc, number, told, has)?),
        None => Ok(Vec::new(alloc)),
    }
}

// Finds the first line in which two texts differ. Returns its number, counted from 1, and this line of each text,
// without its line feed. Returns `None` if the whole lines (those with a line feed) of the two texts are equal, up to
// the point where one of the texts has no more. Takes no memory.
fn first_difference<'a>(one: &'a [u8], other: &'a [u8]) -> Option<(usize, &'a [u8], &'a [u8])>
    ensures { MatchOption result (AreAlike one.now other.now)
        (λ d. IsFirstDifference one.now other.now d.0 d.1.now d.2.now) }
{
    let mut rest = one;
    let mut behind = other;
    let mut number = 1usize;
    'lines: loop {
        let (told, more) = next_line(rest)?;
        let (has, after) = next_line(behind)?;
        if told != has {
            return Some((number, told, has));
        }
        rest = more;
        behind = after;
        number += 1;
    }
}

// Returns the two lines that show a difference. Fails only if it is out of memory.
fn difference_text(
    alloc: Global,
    number: usize,
    told: &[u8],
    has: &[u8],
) -> Result<Vec<u8>, NoMemory>
    ensures { IfOk result (λ text. text.items ≡ difference_text number told.now has.now) }
{
    let begin = format!(in alloc; "line {number}: ")?;
    let mut text = Vec::from_slice(alloc, begin.as_bytes())?;
    text.extend_from_slice(told)?;
    text.extend_from_slice(b"\nreplay: ")?;
    text.extend_from_slice(has)?;
    text.push(b'\n')?;
    Ok(text)
}
