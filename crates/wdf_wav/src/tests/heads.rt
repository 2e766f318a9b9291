//! Heads of waves, and what the format says of them, computed from its definition by another program.

use crate::{Head, WavKind};

// The bytes of an input, its head, and how many bytes the head's text has.
pub(super) static READ: [(&[u8], Head, usize); 14] = [
    (
        b"RIFF\0\0\0\0WAVEfmt \x10\0\0\0\x01\0\x01\0\xff\xff\xff\xff\0\0\0\0\x02\0\x10\0data\x02\0\0\0\x01\0",
        Head {
            channels: 1,
            rate: 4294967295,
            bits: 16,
            frames: 1,
        },
        44,
    ),
    (
        b"RIFF(\0\0\0WAVEfmt \x10\0\0\0\x01\0\x01\0@\x1f\0\0\0}\0\0\x04\0 \0data\x04\0\0\0\0\0\0\x80",
        Head {
            channels: 1,
            rate: 8000,
            bits: 32,
            frames: 1,
        },
        44,
    ),
    (
        b"RIFF%\0\0\0WAVEfmt \x13\0\0\0\x01\0\x01\0@\x1f\0\0@\x1f\0\0\x01\0\x08\0\0\xfaO\0data\x04\0\0\0\x80",
        Head {
            channels: 1,
            rate: 8000,
            bits: 8,
            frames: 4,
        },
        48,
    ),
    (
        b"RIFF*\0\0.WAVEfmt \x10\0\0\0\x01\0\x03\0\x80\xbb\0\0\0e\x04\0\x06\0\x10\0data\x0a\0\0\0\xfc\xff\x02\0\xf4\xff",
        Head {
            channels: 3,
            rate: 48000,
            bits: 16,
            frames: 1,
        },
        44,
    ),
    (
        b"RIFF\xff\xff\xff\xffWAVEfmt \x12\0\0\0\x01\0\x02\0\x80\xbb\0\0M\0\0\0\x02\0\x08\0\x13\x8bdata\x01\0\0\0\x11RIFF\x01\0\0\0T\0",
        Head {
            channels: 2,
            rate: 48000,
            bits: 8,
            frames: 0,
        },
        46,
    ),
    (
        b"RIFF\0\0\0\0WAVEfmt \x13\0\0\0\x01\0\x04\0\x80\xbb\0\0\0\0\0\0\x0c\0\x18\0\x8a\x19\xe0\0data\0\0\0\0fmt\0\x02\0\0\0\x1f\xe3",
        Head {
            channels: 4,
            rate: 48000,
            bits: 24,
            frames: 0,
        },
        48,
    ),
    (
        b"RIFF\0\0\0\0WAVEfmt (\0\0\0\xfe\xff\x02\0\x80\xbb\0\0\0e\x04\0\x06\0\x18\0\x16\0\x18\0\x03\0\0\0\x01\0\0\0\0\0\x10\0\x80\0\0\xaa\08\x9bqdata\0\0\0\0",
        Head {
            channels: 2,
            rate: 48000,
            bits: 24,
            frames: 0,
        },
        68,
    ),
    (
        b"RIFF$\0\0\0WAVEfmt )\0\0\0\xfe\xff\x03\0@\x1f\0\0M\0\0\0\x03\0\x08\0\x16\0\x0c\0\xa9\xbb\x01\0\x01\0\0\0\0\0\x10\0\x80\0\0\xaa\08\x9bq\xbb\0data\xff\xfe\xff\xff\x84\x83~i`{",
        Head {
            channels: 3,
            rate: 8000,
            bits: 8,
            frames: 1431655679,
        },
        70,
    ),
    (
        b"RIFF&\0\0\0WAVEfact\x02\0\0\0\x9c@fmt \x13\0\0\0\x01\0\x01\0\x80\xbb\0\0M\0\0\0\x02\0\x10\0deJ\0data\x03\0\0\0\xff\x7f9RIFF\x07\0\0\0\xf1\x1a[26\x85\x95\0",
        Head {
            channels: 1,
            rate: 48000,
            bits: 16,
            frames: 1,
        },
        58,
    ),
    (
        b"RIFFT\0\0\0WAVEfmt \x10\0\0\0\x01\0\x08\0\x80\xbb\0\0\0\x94\x11\0\x18\0\x18\0data0\0\0\0\xff\xff\xff\x01\0\0\x01\0\0\x05\0\0\x06\0\0\x07\0\0\x07\0\0\x07\0\0\xfe\xff\xff\xff\xff\xff\xfe\xff\xff\x02\0\0\x01\0\0\x01\0\0\x03\0\0\x04\0\0",
        Head {
            channels: 8,
            rate: 48000,
            bits: 24,
            frames: 2,
        },
        44,
    ),
    (
        b"RIFF\0\0\0\0WAVEfmt \x10\0\0\0\x01\0\x05\0\x80\xbb\0\0\0\0\0\0\x0f\0\x18\0fmt\0\x01\0\0\0\xe2\0data\x1e\0\0\0\xce\x1a\0Y\xe3\xffh\xf8\xff\x22\xf9\xff\x0f\xd6\xff\xd5\x0c\0\x9f0\0w\x14\0\xa9\x0a\0k$\0RIFF\x04\0\0\0\xe2\x5c\x8a!",
        Head {
            channels: 5,
            rate: 48000,
            bits: 24,
            frames: 2,
        },
        54,
    ),
    (
        b"RIFF\xff\xff\xff\xffWAVEbext(\0\0\0Q\xb8_\xef \xe63\x91K\xa2\xfc\x98\xc3\x0e\xfe\xff\x0a\x88#h\x9fu\xfcW\xc1\xe7\xca4$\x09\x91\x977\xf6\x0d.w\0\xe3?fmt \x11\0\0\0\x01\0\x02\0\x80\xbb\0\0\0\0\0\0\x08\0 \0\xa4\0junk\0\0\0\0data\0\0\0\0",
        Head {
            channels: 2,
            rate: 48000,
            bits: 32,
            frames: 0,
        },
        102,
    ),
    (
        b"RIFF\0\0\0\0WAVEfmt (\0\0\0\xfe\xff\x08\0\x80\xbb\0\0\0p\x17\0 \0 \0\x09\0\0\0\xa7\x1b\x03\0\x01\0\0\0\0\0\x10\0\x80\0\0\xaa\08\x9bqDATA\0\0\0\0data\x22\0\0\0\0\0\0\0\xff\xff\xff\x7f\x01\0\0\x80\0\0\0\0\xff\xff\xff\x7f\0\0\0\x80\xff\xff\xff\x7f\0\0\0\x80\x1f?",
        Head {
            channels: 8,
            rate: 48000,
            bits: 32,
            frames: 1,
        },
        76,
    ),
    (
        b"RIFF\0\0\0\0WAVEfmt @\0\0\0\xfe\xff\x03\0@\x1f\0\0\0\0\0\0\x06\0\x10\0\x16\0\0\0\xf2\0\x01\0\x01\0\0\0\0\0\x10\0\x80\0\0\xaa\08\x9bq\xbe\x16\xae\xfc\xc20B\x17\xfe:\x01\x90\x98\xf5\xa6\xc0h.\xb0\xd03\x9em)fmt\0\x03\0\0\0\xca8?\0fact\x03\0\0\0\xe0\xbe+\0data\xe8\x03\0\0",
        Head {
            channels: 3,
            rate: 8000,
            bits: 16,
            frames: 166,
        },
        116,
    ),
];

// The bytes of an input, the kind of its first fault, and the offset.
pub(super) static REFUSED: [(&[u8], WavKind, u64); 26] = [
    (
        b"RIFF\x2c\0\0\0WAVEfmt \x10\0\0\0\x01\0\x01\0\x80\xbb\0\0\0\x77\x01\0\x02\0\x10\0data\xff\xff\xff\xff\x01\0",
        WavKind::UnknownLength,
        40,
    ),
    (
        b"RIFF\x2c\0\0\0WAVEfmt \x10\0\0\0\x03\0\x01\0\x80\xbb\0\0\0\x77\x01\0\x02\0\x10\0data\x08\0\0\0",
        WavKind::BadTag,
        20,
    ),
    (b"RIFF\0\0\0\0WAVEfmt \x41\0\0\0", WavKind::BadFmtSize, 16),
    (
        b"RIFF\0\0\0\0WAVEfmt \x10\0\0\0\x01\0\x09\0\x80\xbb\0\0\0\x65\x04\0\x12\0\x10\0",
        WavKind::BadChannels,
        22,
    ),
    (b"\xb3\xce\xcb\x1e", WavKind::NotRiff, 0),
    (b"RIFF$\0\0\0\x02AVER", WavKind::NotWave, 8),
    (b".&\xa5", WavKind::ShortHead, 3),
    (b"RIFFT\0\0\0W", WavKind::ShortHead, 9),
    (b"RIFF$\0\0\0WAVEfmt \x10", WavKind::ShortHead, 17),
    (
        b"RIFF&\0\0\0WAVEfmt \x10\0\0\0\x01\0\x01\0@\x1f\0\0\x80>\0\0\x02\0\x10\0data\x02",
        WavKind::ShortHead,
        41,
    ),
    (
        b"RIFF(\0\0\0WAVEjunk\x04\0\0\0e\xf8\xeevLIST\x03\0\0\0V \x8c\0fmt \x10",
        WavKind::ShortHead,
        41,
    ),
    (
        b"RIFF$\0\0\0WAVEfmt (\0\0\0\x01\0\x04\0@\x1f\0\0\0\0\0\0\x10\0 \0\x22\06b\xd2\xdf\xf3\x17Co\xafl@yt\xd9\x0f",
        WavKind::ShortHead,
        53,
    ),
    (b"RIFF$\0\0\0WAVE", WavKind::NoData, 12),
    (
        b"RIFF$\0\0\0WAVE\x0f\0\0\0\x10\0\0\0\x01\0\x01\0\x80\xbb\0\0\x80\xbb\0\0\x01\0\x08\0data\0\0\0\0",
        WavKind::DataFirst,
        36,
    ),
    (
        b"RIFF$\0\0\0WAVEfmt \x10\0\0\0\x01\0\x01\0@\x1f\0\0\x80>\0\0\x02\0\x10\0fmt \x10\0\0\0\x01\0\x01\0@\x1f\0\0\x80>\0\0\x02\0\x10\0data\0\0\0\0",
        WavKind::DoubleFmt,
        36,
    ),
    (
        b"RIFF$\0\0\0WAVEfmt \x09\0\0\0\x01\0\x08\0\x80\xbb\0\0\0p\x17\0 \0 \0data\0\0\0\0",
        WavKind::BadFmtSize,
        16,
    ),
    (
        b"RIFF4\0\0\0WAVEfmt fmt \x10\0\0\0\x01\0\x05\0\x80\xbb\0\0\x80\xfc\x0a\0\x0f\0\x18\0data\x0f\0\0\0\xdcA\xef\xddr\x1d\x1c[\xa4\x97_c\xb6n:",
        WavKind::BadFmtSize,
        16,
    ),
    (
        b"RIFF\0\0\0\0WAVEfmt \x10\0\0\0\xfe\xff\x04\0\x80\xbb\0\0\0\0\0\0\x0c\0\x18\0\x16\0\x0c\0\x7f;\x03\0\x01\0\0\0\0\0\x10\0\x80\0\0\xaa\08\x9bq\xe3\xf8\xe9\xe4ni\x08\x03\xba\x1fwTsP%=\x1bJ\xb5\x01r\xd9\x83\xfcLIST\x07\0\0\0=\xcb\x02\xfe\x09\xb2\x17\0LIST\x03\0\0\0b\xae\x14\0data\x0c\0\0\0\0\0\0\x01\0\0\x01\0\0\0\0\0",
        WavKind::BadFmtSize,
        16,
    ),
    (
        b"RIFF$\0\0\0WAVEfmt \x10\0\0\0\x01\x02\x08\0\x80\xbb\0\0\0p\x17\0 \0 \0data\0\0\0\0",
        WavKind::BadTag,
        20,
    ),
    (
        b"RIFF$\0\0\0WAVEfmt \x10\0\0\0\xd3\x01\x06\0@\x1f\0\0\0\xee\x02\0\x18\0 \0data\0\0\0\0",
        WavKind::BadTag,
        20,
    ),
    (
        b"RIFF$\0\0\0WAVEfmt \x10\0\0\0\x01\0@\0@\x1f\0\0@\x9c\0\0\x05\0\x08\0data\0\0\0\0",
        WavKind::BadChannels,
        22,
    ),
    (
        b"RIFF(\0\0\0WAVEfmt \x10\0\0\0\x01\0\x02\x01\x80\xbb\0\0\0w\x01\0\x02\0\x08\0data\x02\0\0\0\x93\x0e\xbe\xf6",
        WavKind::BadChannels,
        22,
    ),
    (
        b"RIFF4\0\0\0WAVEfmt \x10\0\0\0\x01\0\x05\0\x80\xbb\0\0LIST\0\xca\x9a;\x80",
        WavKind::BadBits,
        34,
    ),
    (
        b"RIFF$\0\0\0WAVEfmt \x10\0\0\0\x01\0\x07\0\x80\xbb\0\0\x80 \x05\0A\0\x08\0data\0\0\0\0",
        WavKind::BadAlign,
        32,
    ),
    (
        b"RIFF\0\0\0\0WAVEfmt (\0\0\0\xfe\xff\x02\0\x80\xbb\0\0\0e\x04\0\x06\0\x18\0\x16\0\x18\0\x03\0\0\0\x01\0\0\0\0\0\x10\0\x80\0\0\xaa\08\x9br",
        WavKind::BadSubformat,
        44,
    ),
    (
        b"RIFF$\0\0\0WAVEfmt \x10\0\0\0\x01\0\x01\0@\x1f\0\0@\x1f\0\0\x01\0\x08\0data\0\xff\xff\xff",
        WavKind::UnknownLength,
        40,
    ),
];
