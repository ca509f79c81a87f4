//! Two traces of one subscriber, and their lines.
use pc_base::Moment;
use std::alloc::{AllocError as NoMemory, Global};
use trace_lines::{LineBad, TraceLine, read_line};

/// A trace and its name.
#[derive(Clone, Copy)]
pub struct NamedTrace {
    pub name: &'static str,
    pub text: &'static str,
}

/// Three commands and four packets, with no move: the session is created, gets an eNodeB and is deleted.
pub const STILL: NamedTrace = NamedTrace {
    name: "still",
    text: "\
0 S11 4820006700000000000001000100080000010121436587f95200010006570009008a00001000c63364014700090008696e7465726e657463\
00010003480008000000c350000186a05d001f0049000100055000160024090000000000000000000000000000000000000000
1 S1U 30ff001400000011450000140000000040fd00000a2d0002cb007109
1 S11 4822001e00000010000002005d0012004900010005570009008000000a01c6336407
2 SGI 4500001c0000000040110000cb0071090a2d000213c4271000080000
3 S1U 30ff001400000011450000140000000040fd00000a2d0002cb007109
3 S11 4824000d00000010000003004900010005
3 SGI 4500001c0000000040110000cb0071090a2d000213c4271000080000",
};

/// A packet that may be held, the subscriber moves, gets an eNodeB, and then another one takes its path over.
pub const MOVED: NamedTrace = NamedTrace {
    name: "moved",
    text: "\
0 S11 4820006700000000000001000100080000010121436587f95200010006570009008a00001000c63364014700090008696e7465726e657463\
00010003480008000000c350000186a05d001f0049000100055000160024090000000000000000000000000000000000000000
1 SGI 4500001c0000000040110000cb0071090a2d000213c4271000080000
1 MOVE 001010123456789 1
2 S11 4822001e00000010000002005d0012004900010005570009008000000a01c6336407
3 S11 4822001e00000010000003005d0012004900010005570009008000000a02c6336408
4 SGI 4500001c0000000040110000cb0071090a2d000213c4271000080000
4 S1U 30ff001400000011450000140000000040fd00000a2d0002cb007109
5 S1U 30ff001400000011450000140000000040fd00000a2d0002cb007109",
};

/// The lines of a trace; one that is none is left out.
pub fn lines_of(alloc: Global, text: &str) -> Result<Vec<TraceLine>, NoMemory> {
    let mut lines: Vec<TraceLine> = Vec::new(alloc);
    let mut number = 0u64;
    let mut least = Moment(0);
    for line in text.as_bytes().split(|octet| *octet == b'\n') {
        number = number.saturating_add(1);
        match read_line(alloc, line, number, least) {
            Ok(read) => {
                least = read.moment;
                lines.push(read)?;
            }
            Err(LineBad::NoMemory) => return Err(NoMemory),
            Err(_) => {}
        }
    }
    Ok(lines)
}
