//! Every number of programs, every size of a message, and commands with many addresses. Each text is read and written
//! without running out of memory.

use super::spelling::spells_programs;
use smx_samples::Part::{At, Each, Once};
use smx_types::Version;

// Numbers of few and of many digits, including the smallest and the largest.
const ADDRESSES: [u32; 12] = [
    0,
    1,
    2,
    5,
    9,
    10,
    255,
    256,
    65_535,
    65_536,
    2_147_483_648,
    4_294_967_295,
];

// All commands that name an address.
const AT_AN_ADDRESS: &str =
    "bind 0 {n}\nroute 0 {n} 1\nwrite 0 {n} aa\ninject e 0 {n} bb\nunroute 0 {n}\n";

#[test]
fn programs_of_each_number_size_and_address(rt: HostRuntime) {
    for count in 0..65u32 {
        let processes = Each(0, count, "process {n}\nexit\n");
        let text = [Once("programs 1\n"), processes, Once("end\n")];
        spells_programs(&rt, &text, Version::V1);
    }
    for size in 1..1_025u32 {
        // Bytes next to each other differ. Messages whose sizes differ by 1 begin with different bytes.
        let bytes = Each(size, size.wrapping_mul(2), "{n % 251 hex}");
        let begin = Once("programs 1\nprocess 0\nwrite 0 5 ");
        let text = [
            begin,
            bytes,
            Once("\ninject eth 0 5 "),
            bytes,
            Once("\nend\n"),
        ];
        spells_programs(&rt, &text, Version::V1);
    }
    for address in &ADDRESSES {
        let lines = At(*address, AT_AN_ADDRESS);
        let text = [Once("programs 1\nprocess 0\n"), lines, Once("end\n")];
        spells_programs(&rt, &text, Version::V1);
    }
}
