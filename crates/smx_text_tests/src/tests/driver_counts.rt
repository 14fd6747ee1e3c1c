//! Every number of drivers from 0 to 129, in both versions of both texts.

use super::spelling::{are_none, is_none, spells_programs, spells_transcript};
use smx_samples::Part::{Each, Once};
use smx_text::Cause;
use smx_types::Version;
use std::process::Abort;

const DRIVER: &str = "driver ip mux 4 8 3 16\n";

fn least(count: u32) -> Version {
    if count > 64 { Version::V2 } else { Version::V1 }
}

fn are_so_many(rt: &(impl AllocGlobal + Abort), header: &str, count: u32, most: u32, line: usize) {
    let text = [Once(header), Each(0, count, DRIVER), Once("end\n")];
    if count > most {
        are_none(rt, &text, line, Cause::Many);
    } else {
        spells_programs(rt, &text, least(count));
    }
}

fn has_so_many(rt: &(impl AllocGlobal + Abort), header: &str, count: u32, most: u32, line: usize) {
    let end = Once("config\nnext 1 1\nend\n");
    let text = [Once(header), Each(0, count, DRIVER), end];
    if count > most {
        is_none(rt, &text, line, Cause::Many);
    } else {
        spells_transcript(rt, &text, least(count));
    }
}

#[test]
fn texts_of_each_count(rt: HostRuntime) {
    for count in 0..130u32 {
        are_so_many(&rt, "programs 1\n", count, 64, 66);
        are_so_many(&rt, "programs 2\n", count, 128, 130);
        has_so_many(&rt, "transcript 1\n", count, 64, 66);
        has_so_many(&rt, "transcript 2\n", count, 128, 130);
    }
}
