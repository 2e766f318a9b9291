//! What is refused before anything is written, each with its line.

use super::calls::{Case, SOUND, is_answered};
use super::circuits::{BRIDGE, DIVIDER, EXTENSIBLE, FOUR, NONE, STEREO, TWO_SOURCES};
use std::test::Fail;

// In the order in which things are looked at.
static REFUSED: [Case<'static>; 26] = [
    Case {
        words: "",
        netlist: DIVIDER,
        certificate: b"",
        input: &FOUR,
        code: 1,
        out: b"",
        line: "wdf: 1 usage word 0 NoCommand\n",
    },
    Case {
        words: "run",
        netlist: DIVIDER,
        certificate: b"",
        input: &FOUR,
        code: 1,
        out: b"",
        line: "wdf: 1 usage word 1 MissingOperand\n",
    },
    Case {
        words: "run|net=x|k=21",
        netlist: DIVIDER,
        certificate: b"",
        input: &FOUR,
        code: 1,
        out: b"",
        line: "wdf: 1 usage word 2 OutOfRange\n",
    },
    Case {
        words: "run|net=x",
        netlist: DIVIDER,
        certificate: b"",
        input: &FOUR,
        code: 18,
        out: b"",
        line: "wdf: 18 missing word 1\n",
    },
    Case {
        words: "run|net=N",
        netlist: b"rate 48000\nsource S a 0 1\nr S a 0 1\n",
        certificate: b"",
        input: &FOUR,
        code: 2,
        out: b"",
        line: "wdf: 2 netlist line 3 column 3 DoubleName S\n",
    },
    Case {
        words: "run|net=N",
        netlist: b"rate 48000\nsource S a 0 1\nr L a 0 1234567891\n",
        certificate: b"",
        input: &FOUR,
        code: 2,
        out: b"",
        line: "wdf: 2 netlist line 3 column 9 BadValue L\n",
    },
    Case {
        words: "run|net=N",
        netlist: b"rate 48000\nsource S a 0 1\nc X a a 1u\n",
        certificate: b"",
        input: &FOUR,
        code: 2,
        out: b"",
        line: "wdf: 2 netlist line 3 column 7 Shorted X\n",
    },
    Case {
        words: "run|net=N",
        netlist: b"rate 48000\nsource S a 0 1\nr L a 0 1\n",
        certificate: b"",
        input: &FOUR,
        code: 2,
        out: b"",
        line: "wdf: 2 netlist line 0 column 0 NoLoad\n",
    },
    Case {
        words: "run|net=N",
        netlist: b"rate 48000\ninput T a 0 1\nsource S a 0 1\nr L a 0 1\nload L\n",
        certificate: b"",
        input: &FOUR,
        code: 2,
        out: b"",
        line: "wdf: 2 netlist line 2 column 1 InputFirst\n",
    },
    Case {
        words: "run|net=N",
        netlist: BRIDGE,
        certificate: b"",
        input: &FOUR,
        code: 3,
        out: b"",
        line: "wdf: 3 not series-parallel element R1 core 5\n",
    },
    Case {
        words: "run|net=N",
        netlist: b"rate 48000\nsource S a 0 1\nr L a 0 1\nload L\nc X a b 1u\n",
        certificate: b"",
        input: &FOUR,
        code: 3,
        out: b"",
        line: "wdf: 3 not series-parallel element X core 2\n",
    },
    Case {
        words: "run|net=N",
        netlist: b"rate 48000\nsource S a 0 1\nr L a 0 0.4p\nload L\n",
        certificate: b"",
        input: &FOUR,
        code: 4,
        out: b"",
        line: "wdf: 4 port range element L low\n",
    },
    Case {
        words: "run|net=N",
        netlist: b"rate 48000\nsource S a 0 1\nr L a 0 5M\nload L\n",
        certificate: b"",
        input: &FOUR,
        code: 4,
        out: b"",
        line: "wdf: 4 port range element L high\n",
    },
    Case {
        words: "run|net=N",
        netlist: DIVIDER,
        certificate: b"",
        input: b"RIFF,\0\0\0WAVEfmt \x10\0\0\0\x01\0\x01\0\x80\xbb\0\0\0w\x01\0\x02\0\x10\0data\xff\xff\xff\xff\x01\0\xfe\xff\xff\x7f\0\x80",
        code: 6,
        out: b"",
        line: "wdf: 6 wave offset 40 UnknownLength\n",
    },
    Case {
        words: "run|net=N",
        netlist: DIVIDER,
        certificate: b"",
        input: b"RIFF,\0\0\0WAVEfmt \x10\0\0\0\x03\0\x01\0\x80\xbb\0\0\0w\x01\0\x02\0\x10\0data\x08\0\0\0\x01\0\xfe\xff\xff\x7f\0\x80",
        code: 6,
        out: b"",
        line: "wdf: 6 wave offset 20 BadTag\n",
    },
    Case {
        words: "run|net=N",
        netlist: DIVIDER,
        certificate: b"",
        input: b"RIFF,\0\0\0WAVEfmt \x10\0\0\0\x01\0\x01\0D\xac\0\0\x88X\x01\0\x02\0\x10\0data\x08\0\0\0\x01\0\xfe\xff\xff\x7f\0\x80",
        code: 7,
        out: b"",
        line: "wdf: 7 rate netlist 48000 wave 44100\n",
    },
    Case {
        words: "run|net=N|frames=3",
        netlist: DIVIDER,
        certificate: b"",
        input: b"RIFF,\0\0\0WAVEfmt \x10\0\0\0\x01\0\x01\0D\xac\0\0\x88X\x01\0\x02\0\x10\0data\x08\0\0\0\x01\0\xfe\xff\xff\x7f\0\x80",
        code: 7,
        out: b"",
        line: "wdf: 7 rate netlist 48000 wave 44100\n",
    },
    Case {
        words: "run|net=N",
        netlist: TWO_SOURCES,
        certificate: b"",
        input: &FOUR,
        code: 23,
        out: b"",
        line: "wdf: 23 channels have 1 want 2\n",
    },
    Case {
        words: "run|net=N|frames=3",
        netlist: TWO_SOURCES,
        certificate: b"",
        input: &FOUR,
        code: 23,
        out: b"",
        line: "wdf: 23 channels have 1 want 2\n",
    },
    Case {
        words: "run|net=N|frames=3",
        netlist: DIVIDER,
        certificate: b"",
        input: &FOUR,
        code: 8,
        out: b"",
        line: "wdf: 8 too long frames 4 limit 3\n",
    },
    Case {
        words: "run|net=N|k=16|guard=8",
        netlist: DIVIDER,
        certificate: b"",
        input: b"RIFF,\0\0\0WAVEfmt \x10\0\0\0\x01\0\x01\0\x80\xbb\0\0\0\xee\x02\0\x04\0 \0data\x08\0\0\0\x01\0\0\0\x02\0\0\0",
        code: 5,
        out: b"",
        line: "wdf: 5 bound element S word need 4503599627370496 limit 17592186044416\n",
    },
    Case {
        words: "run|net=N|k=1",
        netlist: b"rate 48000\nsource S a 0 1\nr R1 a 0 1\nr R2 a 0 1\nr R3 a 0 1\nr R4 a 0 1\nr R5 a 0 1\nr R6 a 0 1\nr R7 a 0 1\nr R8 a 0 1\nr R9 a 0 1\nr R10 a 0 1\nr R11 a 0 1\nr R12 a 0 1\nr R13 a 0 1\nr R14 a 0 1\nr R15 a 0 1\nr R16 a 0 1\nr R17 a 0 1\nr R18 a 0 1\nr R19 a 0 1\nr R20 a 0 1\nr R21 a 0 1\nr R22 a 0 1\nr R23 a 0 1\nr R24 a 0 1\nload R1\n",
        certificate: b"",
        input: &NONE,
        code: 5,
        out: b"",
        line: "wdf: 5 bound element R1 ratio need 9223372036854775808 limit 4611686018427387904\n",
    },
    Case {
        words: "report|net=none",
        netlist: DIVIDER,
        certificate: b"",
        input: &FOUR,
        code: 18,
        out: b"",
        line: "wdf: 18 missing word 1\n",
    },
    Case {
        words: "report|net=N",
        netlist: BRIDGE,
        certificate: b"",
        input: b"",
        code: 3,
        out: b"",
        line: "wdf: 3 not series-parallel element R1 core 5\n",
    },
    Case {
        words: "report|net=N|k=16|guard=8|bits=32",
        netlist: DIVIDER,
        certificate: b"",
        input: b"",
        code: 5,
        out: b"",
        line: "wdf: 5 bound element S word need 4503599627370496 limit 17592186044416\n",
    },
    Case {
        words: "soak|seed=1|order=5",
        netlist: DIVIDER,
        certificate: b"",
        input: &FOUR,
        code: 1,
        out: b"",
        line: "wdf: 1 usage word 3 MissingOperand\n",
    },
];

#[test]
fn each_refusal_has_its_line(rt: HostRuntime) -> Result<(), Fail> {
    let alloc = rt.alloc();
    for case in &REFUSED {
        is_answered(&rt, alloc, case, SOUND)?;
    }
    Ok(())
}

#[test]
fn a_file_of_one_byte_too_many_is_not_loaded(rt: HostRuntime) -> Result<(), Fail> {
    let alloc = rt.alloc();
    let large = vec![in alloc; b' '; 1_048_577]?;
    let netlist = Case {
        words: "run|net=N",
        netlist: &large,
        certificate: b"",
        input: &FOUR,
        code: 19,
        out: b"",
        line: "wdf: 19 file too large word 1\n",
    };
    is_answered(&rt, alloc, &netlist, SOUND)?;
    let certificate = Case {
        words: "check|net=N|cert=C",
        netlist: DIVIDER,
        certificate: &large,
        line: "wdf: 19 file too large word 2\n",
        ..netlist
    };
    is_answered(&rt, alloc, &certificate, SOUND)?;
    Ok(())
}

// An input that ends anywhere: at a chunk's id, within a part, or behind the head.
#[test]
fn a_cut_input_ends_where_it_is_cut(rt: HostRuntime) -> Result<(), Fail> {
    let alloc = rt.alloc();
    for (cut, _) in EXTENSIBLE.iter().enumerate() {
        let line = match cut {
            12 | 60 | 72 => format!(in alloc; "wdf: 6 wave offset {cut} NoData\n")?,
            80.. => format!(in alloc; "wdf: 10 truncated frames 0\n")?,
            _ => format!(in alloc; "wdf: 6 wave offset {cut} ShortHead\n")?,
        };
        let case = Case {
            words: "run|net=N",
            netlist: DIVIDER,
            certificate: b"",
            input: &EXTENSIBLE[..cut],
            code: if cut < 80 { 6 } else { 10 },
            out: if cut < 80 { b"" } else { &STEREO[..44] },
            line: &line,
        };
        is_answered(&rt, alloc, &case, SOUND)?;
    }
    Ok(())
}
