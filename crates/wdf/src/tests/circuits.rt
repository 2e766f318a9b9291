//! Circuits and waves that several tests run.

// A source of 1 ohm and a load of 1 ohm.
pub(super) const DIVIDER: &[u8] = b"rate 48000\nsource S a 0 1\nr L a 0 1\nload L\n";

// The same with a capacitor beside the load.
pub(super) const LOW_PASS: &[u8] = b"rate 50000\nsource S a 0 1\nc C a 0 10u\nr L a 0 1\nload L\n";

// Its certificate.
pub(super) const CERTIFICATE: &[u8] =
    b"wdfcert 1\nk 14\nmultipliers 2 5461 8192\nrows 1 0\ninverse\n1153027054501986302\nend\n";

// Its report under a plan without guard bits.
pub(super) const REPORT: &[u8] =
    b"wdf report 1\nform ladder\nrate 50000\nplan k 14 guard 0 shift 0 frames 67108864 amp 32768 bits 16\nroot S\nelement S source ratio 1099511627776 bound 268435456\nelement C c ratio 1099511627776 bound 268423424\nelement L r ratio 1099511627776 bound 268423424\njunction root 5461\njunction parallel 8192\nlargest 268435456 limit 70368744177664\nstates 1 certified yes\n";

// The same with a second capacitor, whose voltage is always that of the first.
pub(super) const TWIN: &[u8] =
    b"rate 50000\nsource S a 0 1\nc C1 a 0 10u\nc C2 a 0 10u\nr L a 0 1\nload L\n";

// A bridge: no series or parallel step leads on.
pub(super) const BRIDGE: &[u8] =
    b"rate 48000\nsource S a 0 1\nr R1 a b 1\nr R2 a c 1\nr R3 b c 1\nr R4 b 0 1\nr R5 c 0 1\nload R3\n";

// A lattice of a resistor of 1 microohm and one of 1 megohm.
pub(super) const LATTICE: &[u8] =
    b"rate 48000\nlattice 1\nbranch A p n\nr RA p n 1u\nbranch B p n\nr RB p n 1M\n";

// A load that two sources drive.
pub(super) const TWO_SOURCES: &[u8] =
    b"rate 48000\nsource S a 0 1\ninput T a 0 1\nr L a 0 1\nload L\n";

// A wave of the samples 1, -2, 32767 and -32768.
pub(super) const FOUR: [u8; 52] =
    *b"RIFF,\0\0\0WAVEfmt \x10\0\0\0\x01\0\x01\0\x80\xbb\0\0\0w\x01\0\x02\0\x10\0data\x08\0\0\0\x01\0\xfe\xff\xff\x7f\0\x80";

// A wave of no frames.
pub(super) const NONE: [u8; 44] =
    *b"RIFF$\0\0\0WAVEfmt \x10\0\0\0\x01\0\x01\0\x80\xbb\0\0\0w\x01\0\x02\0\x10\0data\0\0\0\0";

// A wave of two channels of 24 bits, told by a GUID, behind a chunk of odd size and its pad: one frame.
pub(super) const EXTENSIBLE: [u8; 86] =
    *b"RIFFN\0\0\0WAVEfmt (\0\0\0\xfe\xff\x02\0\x80\xbb\0\0e\x04\0\0\x06\0\x18\0\x16\0\x18\0\x03\0\0\0\x01\0\0\0\0\0\x10\0\x80\0\0\xaa\08\x9bqLIST\x03\0\0\0abc\0data\x06\0\0\0\x01\0\0\xff\xff\xff";

// What the divider makes of it: the same samples behind the header that is always written.
pub(super) const STEREO: [u8; 50] =
    *b"RIFF*\0\0\0WAVEfmt \x10\0\0\0\x01\0\x02\0\x80\xbb\0\0\0e\x04\0\x06\0\x18\0data\x06\0\0\0\x01\0\0\xff\xff\xff";

// A wave of the samples 1000 and -32768, and what the lattice makes of it.
pub(super) const TWO: [u8; 48] =
    *b"RIFF(\0\0\0WAVEfmt \x10\0\0\0\x01\0\x01\0\x80\xbb\0\0\0w\x01\0\x02\0\x10\0data\x04\0\0\0\xe8\x03\0\x80";

pub(super) const DIFFERENCE: [u8; 48] =
    *b"RIFF(\0\0\0WAVEfmt \x10\0\0\0\x01\0\x01\0\x80\xbb\0\0\0w\x01\0\x02\0\x10\0data\x04\0\0\0\xe7\x03\x04\x80";
