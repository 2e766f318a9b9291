//! Waves and what is written of them, with the values that the definitions give.

use super::calls::{Case, SOUND, is_answered};
use super::circuits::{
    DIFFERENCE, DIVIDER, EXTENSIBLE, FOUR, LATTICE, LOW_PASS, NONE, STEREO, TWO, TWO_SOURCES,
};
use std::test::Fail;

// Done: the header of the output, the samples of the load's wave, and a pad byte where they are odd.
static WAVES: [Case<'static>; 18] = [
    Case {
        words: "run|net=N",
        netlist: DIVIDER,
        certificate: b"",
        input: &NONE,
        code: 0,
        out: &NONE,
        line: "",
    },
    Case {
        words: "run|net=N",
        netlist: b"rate 48000\nsource S a 0 1\nr L 0 a 1\nload L\n",
        certificate: b"",
        input: &FOUR,
        code: 0,
        out: b"RIFF,\0\0\0WAVEfmt \x10\0\0\0\x01\0\x01\0\x80\xbb\0\0\0w\x01\0\x02\0\x10\0data\x08\0\0\0\xff\xff\x02\0\x01\x80\xff\x7f",
        line: "frames 4\nclipped 1\nchannel 0 incident 549739038208 absorbed 549739038208 stored 0\n",
    },
    Case {
        words: "run|net=N|guard=0",
        netlist: LOW_PASS,
        certificate: b"",
        input: b"RIFF*\0\0\0WAVEfmt \x10\0\0\0\x01\0\x01\0P\xc3\0\0\xa0\x86\x01\0\x02\0\x10\0data\x06\0\0\0\0@\0\0\0\0",
        code: 0,
        out: b"RIFF*\0\0\0WAVEfmt \x10\0\0\0\x01\0\x01\0P\xc3\0\0\xa0\x86\x01\0\x02\0\x10\0data\x06\0\0\0\xaa*q\x1c\x86\xf6",
        line: "wdf report 1\nform ladder\nrate 50000\nplan k 14 guard 0 shift 0 frames 67108864 amp 32768 bits 16\nroot S\nelement S source ratio 1099511627776 bound 268435456\nelement C c ratio 1099511627776 bound 268423424\nelement L r ratio 1099511627776 bound 268423424\njunction root 5461\njunction parallel 8192\nlargest 268435456 limit 70368744177664\nstates 1 certified yes\nframes 3\nclipped 0\nchannel 0 incident 268435456 absorbed 266936716 stored 1473930\n",
    },
    Case {
        words: "run|net=N|guard=0",
        netlist: b"rate 50000\nsource S a 0 1\nl C a 0 10u\nr L a 0 1\nload L\n",
        certificate: b"",
        input: b"RIFF*\0\0\0WAVEfmt \x10\0\0\0\x01\0\x01\0P\xc3\0\0\xa0\x86\x01\0\x02\0\x10\0data\x06\0\0\0\0@\0\0\0\0",
        code: 0,
        out: b"RIFF*\0\0\0WAVEfmt \x10\0\0\0\x01\0\x01\0P\xc3\0\0\xa0\x86\x01\0\x02\0\x10\0data\x06\0\0\0\xaa*\x8f\xe3\x86\xf6",
        line: "",
    },
    Case {
        words: "run|net=N",
        netlist: DIVIDER,
        certificate: b"",
        input: &EXTENSIBLE,
        code: 0,
        out: &STEREO,
        line: "",
    },
    Case {
        words: "run|net=N",
        netlist: LATTICE,
        certificate: b"",
        input: &TWO,
        code: 0,
        out: &DIFFERENCE,
        line: "",
    },
    Case {
        words: "run|net=N",
        netlist: b"rate 48000\nlattice 1\nbranch A p n\nr RA p n 2k\nbranch B p n\nr RB p n 2k\n",
        certificate: b"",
        input: &TWO,
        code: 0,
        out: b"RIFF(\0\0\0WAVEfmt \x10\0\0\0\x01\0\x01\0\x80\xbb\0\0\0w\x01\0\x02\0\x10\0data\x04\0\0\0\0\0\0\0",
        line: "",
    },
    Case {
        words: "run|guard=0|net=N",
        netlist: b"rate 48000\nsource S a 0 1\nr R1 a b 1\nr L b 0 1\nload L\n",
        certificate: b"",
        input: b"RIFF(\0\0\0WAVEfmt \x10\0\0\0\x01\0\x01\0\x80\xbb\0\0\0w\x01\0\x02\0\x10\0data\x04\0\0\0\xb8\x0bH\xf4",
        code: 0,
        out: b"RIFF(\0\0\0WAVEfmt \x10\0\0\0\x01\0\x01\0\x80\xbb\0\0\0w\x01\0\x02\0\x10\0data\x04\0\0\0\xd0\x070\xf8",
        line: "",
    },
    Case {
        words: "run|net=N|guard=0",
        netlist: b"rate 50000\nsource S a 0 1\nc C a 0 10u\nr L a 0 1\nload L\nroot C\n",
        certificate: b"",
        input: b"RIFF*\0\0\0WAVEfmt \x10\0\0\0\x01\0\x01\0P\xc3\0\0\xa0\x86\x01\0\x02\0\x10\0data\x06\0\0\0\0@\0\0\0\0",
        code: 0,
        out: b"RIFF*\0\0\0WAVEfmt \x10\0\0\0\x01\0\x01\0P\xc3\0\0\xa0\x86\x01\0\x02\0\x10\0data\x06\0\0\0\xab*q\x1c\x85\xf6",
        line: "",
    },
    Case {
        words: "run|net=N|guard=0",
        netlist: LOW_PASS,
        certificate: b"",
        input: b"RIFFB\0\0\0WAVEfmt \x10\0\0\0\x01\0\x05\0P\xc3\0\0 \xa1\x07\0\n\0\x10\0data\x1e\0\0\0\0@\0\xc0\0\0\0\0\0@\0\0\0\0\0\0\0\0\0\0\0\0\0\0\0\0\0\0\0\0",
        code: 0,
        out: b"RIFFB\0\0\0WAVEfmt \x10\0\0\0\x01\0\x05\0P\xc3\0\0 \xa1\x07\0\n\0\x10\0data\x1e\0\0\0\xaa*V\xd5\0\0\0\0\xaa*q\x1c\x8f\xe3\0\0\0\0q\x1c\x86\xf6z\x09\0\0\0\0\x86\xf6",
        line: "frames 3\nclipped 0\nchannel 0 incident 268435456 absorbed 266936716 stored 1473930\nchannel 1 incident 268435456 absorbed 266936716 stored 1473930\nchannel 2 incident 0 absorbed 0 stored 0\nchannel 3 incident 0 absorbed 0 stored 0\nchannel 4 incident 268435456 absorbed 266936716 stored 1473930\n",
    },
    Case {
        words: "run|net=N|guard=0",
        netlist: TWO_SOURCES,
        certificate: b"",
        input: b"RIFF,\0\0\0WAVEfmt \x10\0\0\0\x01\0\x02\0\x80\xbb\0\0\0\xee\x02\0\x04\0\x10\0data\x08\0\0\0\xb8\x0bp\x17\x03\0\xfd\xff",
        code: 0,
        out: b"RIFF(\0\0\0WAVEfmt \x10\0\0\0\x01\0\x01\0\x80\xbb\0\0\0w\x01\0\x02\0\x10\0data\x04\0\0\0p\x17\0\0",
        line: "frames 2\nclipped 0\nchannel 0 incident 45000018 absorbed 22500621 stored 0\n",
    },
    Case {
        words: "run|net=N",
        netlist: DIVIDER,
        certificate: b"",
        input: b"RIFF(\0\0\0WAVEfmt \x10\0\0\0\x01\0\x01\0\x80\xbb\0\0\x80\xbb\0\0\x01\0\x08\0data\x03\0\0\0\x81~\x83\0",
        code: 0,
        out: b"RIFF(\0\0\0WAVEfmt \x10\0\0\0\x01\0\x01\0\x80\xbb\0\0\x80\xbb\0\0\x01\0\x08\0data\x03\0\0\0\x81~\x83\0",
        line: "",
    },
    Case {
        words: "run|net=N",
        netlist: DIVIDER,
        certificate: b"",
        input: b"RIFF(\0\0\0WAVEfmt \x10\0\0\0\x01\0\x01\0\x80\xbb\0\0\x80\xbb\0\0\x01\0\x08\0data\x03\0\0\0\x81~\x83",
        code: 0,
        out: b"RIFF(\0\0\0WAVEfmt \x10\0\0\0\x01\0\x01\0\x80\xbb\0\0\x80\xbb\0\0\x01\0\x08\0data\x03\0\0\0\x81~\x83\0",
        line: "",
    },
    Case {
        words: "run|net=N|guard=0",
        netlist: TWO_SOURCES,
        certificate: b"",
        input: b"RIFF*\0\0\0WAVEfmt \x10\0\0\0\x01\0\x02\0\x80\xbb\0\0\0w\x01\0\x02\0\x08\0data\x06\0\0\0\x9e\xbc\x83}\x80\x80",
        code: 0,
        out: b"RIFF(\0\0\0WAVEfmt \x10\0\0\0\x01\0\x01\0\x80\xbb\0\0\x80\xbb\0\0\x01\0\x08\0data\x03\0\0\0\xbc\x80\x80\0",
        line: "",
    },
    Case {
        words: "run|net=N",
        netlist: b"rate 48000\nsource S a 0 1\nr L 0 a 1\nload L\n",
        certificate: b"",
        input: b"RIFF4\0\0\0WAVEfmt \x10\0\0\0\x01\0\x02\0\x80\xbb\0\0\0\xdc\x05\0\x08\0 \0data\x10\0\0\0\xff\xff\xff\x7f\0\0\0\x80\x05\0\0\0\xf9\xff\xff\xff",
        code: 0,
        out: b"RIFF4\0\0\0WAVEfmt \x10\0\0\0\x01\0\x02\0\x80\xbb\0\0\0\xdc\x05\0\x08\0 \0data\x10\0\0\0\x01\0\0\x80\xff\xff\xff\x7f\xfb\xff\xff\xff\x07\0\0\0",
        line: "",
    },
    Case {
        words: "run|net=N",
        netlist: DIVIDER,
        certificate: b"",
        input: b"RIFF,\0\0\0WAVEfmt \x10\0\0\0\x01\0\x01\0\x80\xbb\0\0\0w\x01\0\x02\0\x10\0data\x08\0\0\0\x01\0\xfe\xff\xff\x7f\0\x80more",
        code: 0,
        out: &FOUR,
        line: "",
    },
    Case {
        words: "run|net=N",
        netlist: b"rate 50000\nsource S a 0 1\nc C1 a 0 10u\nc C2 a 0 10u\nr L a 0 1\nload L\n",
        certificate: b"",
        input: b"RIFF(\0\0\0WAVEfmt \x10\0\0\0\x01\0\x01\0P\xc3\0\0\xa0\x86\x01\0\x02\0\x10\0data\x04\0\0\0\xe8\x03\x18\xfc",
        code: 0,
        out: b"RIFF(\0\0\0WAVEfmt \x10\0\0\0\x01\0\x01\0P\xc3\0\0\xa0\x86\x01\0\x02\0\x10\0data\x04\0\0\0\xf4\x01\0\0",
        line: "",
    },
    Case {
        words: "run|net=N",
        netlist: b"rate 48000\nsource S a 0 1\nr L a 0 0.5p\nload L\n",
        certificate: b"",
        input: &NONE,
        code: 0,
        out: &NONE,
        line: "",
    },
];

#[test]
fn the_wave_of_the_load_is_written(rt: HostRuntime) -> Result<(), Fail> {
    let alloc = rt.alloc();
    for case in &WAVES {
        is_answered(&rt, alloc, case, SOUND)?;
    }
    Ok(())
}

// Stopped behind the header: the frames before are written, and no pad byte.
static STOPPED: [Case<'static>; 6] = [
    Case {
        words: "run|net=N",
        netlist: DIVIDER,
        certificate: b"",
        input: b"RIFF,\0\0\0WAVEfmt \x10\0\0\0\x01\0\x01\0\x80\xbb\0\0\0w\x01\0\x02\0\x10\0data\x08\0\0\0\x01\0\xfe\xff",
        code: 10,
        out: b"RIFF,\0\0\0WAVEfmt \x10\0\0\0\x01\0\x01\0\x80\xbb\0\0\0w\x01\0\x02\0\x10\0data\x08\0\0\0\x01\0\xfe\xff",
        line: "wdf: 10 truncated frames 2\n",
    },
    Case {
        words: "run|net=N",
        netlist: DIVIDER,
        certificate: b"",
        input: b"RIFF,\0\0\0WAVEfmt \x10\0\0\0\x01\0\x01\0\x80\xbb\0\0\0w\x01\0\x02\0\x10\0data\x08\0\0\0\x01\0\xfe\xff\xff",
        code: 10,
        out: b"RIFF,\0\0\0WAVEfmt \x10\0\0\0\x01\0\x01\0\x80\xbb\0\0\0w\x01\0\x02\0\x10\0data\x08\0\0\0\x01\0\xfe\xff",
        line: "wdf: 10 truncated frames 2\n",
    },
    Case {
        words: "run|net=N|amp=1000",
        netlist: DIVIDER,
        certificate: b"",
        input: b"RIFF.\0\0\0WAVEfmt \x10\0\0\0\x01\0\x01\0\x80\xbb\0\0\0w\x01\0\x02\0\x10\0data\n\0\0\0\x01\0\x02\0\x03\0\xe9\x03\x05\0",
        code: 9,
        out: b"RIFF.\0\0\0WAVEfmt \x10\0\0\0\x01\0\x01\0\x80\xbb\0\0\0w\x01\0\x02\0\x10\0data\n\0\0\0\x01\0\x02\0\x03\0",
        line: "wdf: 9 amplitude frame 3 channel 0 sample 1001\n",
    },
    Case {
        words: "run|net=N|amp=2",
        netlist: DIVIDER,
        certificate: b"",
        input: b"RIFF(\0\0\0WAVEfmt \x10\0\0\0\x01\0\x01\0\x80\xbb\0\0\x80\xbb\0\0\x01\0\x08\0data\x03\0\0\0\x81~\x83\0",
        code: 9,
        out: b"RIFF(\0\0\0WAVEfmt \x10\0\0\0\x01\0\x01\0\x80\xbb\0\0\x80\xbb\0\0\x01\0\x08\0data\x03\0\0\0\x81~",
        line: "wdf: 9 amplitude frame 2 channel 0 sample 3\n",
    },
    Case {
        words: "run|net=N|amp=4",
        netlist: DIVIDER,
        certificate: b"",
        input: b"RIFF0\0\0\0WAVEfmt \x10\0\0\0\x01\0\x02\0\x80\xbb\0\0\0\xee\x02\0\x04\0\x10\0data\x0c\0\0\0\x04\0\xfc\xff\0\0\xfb\xff\x09\0\0\0",
        code: 9,
        out: b"RIFF0\0\0\0WAVEfmt \x10\0\0\0\x01\0\x02\0\x80\xbb\0\0\0\xee\x02\0\x04\0\x10\0data\x0c\0\0\0\x04\0\xfc\xff",
        line: "wdf: 9 amplitude frame 1 channel 1 sample -5\n",
    },
    Case {
        words: "run|net=N|amp=4",
        netlist: DIVIDER,
        certificate: b"",
        input: b"RIFF(\0\0\0WAVEfmt \x10\0\0\0\x01\0\x02\0\x80\xbb\0\0\0\xee\x02\0\x04\0\x10\0data\x04\0\0\0\x05\0\0",
        code: 10,
        out: b"RIFF(\0\0\0WAVEfmt \x10\0\0\0\x01\0\x02\0\x80\xbb\0\0\0\xee\x02\0\x04\0\x10\0data\x04\0\0\0",
        line: "wdf: 10 truncated frames 0\n",
    },
];

#[test]
fn a_wave_stops_behind_its_last_good_frame(rt: HostRuntime) -> Result<(), Fail> {
    let alloc = rt.alloc();
    for case in &STOPPED {
        is_answered(&rt, alloc, case, SOUND)?;
    }
    Ok(())
}
