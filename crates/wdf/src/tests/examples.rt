//! Circuits as filter engineers draw them: what each makes of 32 frames of noise, and its certificate.

use super::calls::{Case, SOUND, is_answered};
use std::test::Fail;

// The noise, at 48000 frames a second and at 44100.
const NOISE: &[u8] =
    b"RIFFd\0\0\0WAVEfmt \x10\0\0\0\x01\0\x01\0\x80\xbb\0\0\0w\x01\0\x02\0\x10\0data@\0\0\0g\x9c\xeb\xe7\x1e\xf8\xb9\xc6\xbd\x14\xb7\xdf+\x1e\xbaOKum\x7f\xd3+\xff\x9d\xc2\xb7\xcfq\x14^~\xc8\x1d\xa0\xfa\xab\x19\xa3\xec\xbdg\x15(\xb7\xf9\x80y\x04tFo\xd6w\xa8\x90\xb5\xa4Z\x80\xc8\xc2\xf3\x99u";

const SLOWER_NOISE: &[u8] =
    b"RIFFd\0\0\0WAVEfmt \x10\0\0\0\x01\0\x01\0D\xac\0\0\x88X\x01\0\x02\0\x10\0data@\0\0\0g\x9c\xeb\xe7\x1e\xf8\xb9\xc6\xbd\x14\xb7\xdf+\x1e\xbaOKum\x7f\xd3+\xff\x9d\xc2\xb7\xcfq\x14^~\xc8\x1d\xa0\xfa\xab\x19\xa3\xec\xbdg\x15(\xb7\xf9\x80y\x04tFo\xd6w\xa8\x90\xb5\xa4Z\x80\xc8\xc2\xf3\x99u";

// Two channels of it for a circuit with two sources.
const STEREO_NOISE: &[u8] =
    b"RIFF\xa4\0\0\0WAVEfmt \x10\0\0\0\x01\0\x02\0\x80\xbb\0\0\0\xee\x02\0\x04\0\x10\0data\x80\0\0\0g\x9c3!\xeb\xe7\x07\x08\x1e\xf8\xa0\x02\xb9\xc6\x17\x13\xbd\x14\x16\xf9\xb7\xdf\xc3\n+\x1e\xf1\xf5\xbaOl\xe5Ku\xe7\xd8m\x7f\x86\xd5\xd3+d\xf1\xff\x9d\xab \xc2\xb7\x14\x18\xcfq\x10\xda\x14^\xa4\xe0~\xc8\x80\x12\x1d\xa0\xf6\x1f\xfa\xab\x02\x1c\x19\xa3\xf7\x1e\xec\xbd\x06\x16g\x15\xdd\xf8(\xb7H\x18\xf9\x80W*y\x04\x82\xfetF\x84\xe8o\xd6\xdb\x0dw\xa8-\x1d\x90\xb5\xd0\x18\xa4Z\xc9\xe1\x80\xc8\x80\x12\xc2\xf3\x14\x04\x99u\xcd\xd8";

const BUTTERWORTH_LADDER: &[u8] =
    b"rate 48000\nsource S in 0 600\nc C1 in 0 88.4n\nl L2 in out 63.6m\nc C3 out 0 88.4n\nr L out 0 600\nload L\n";

const BUTTERWORTH_LATTICE: &[u8] =
    b"rate 48000\nlattice 600\nbranch A p n\nl L1 p n 31.8m\nc C1 p n 88.4n\nbranch B p n\nc C2 p n 88.4n\n";

const CROSSOVER_TWEETER: &[u8] =
    b"rate 48000\nsource AMP in 0 0.1\nc C1 in out 5.6u\nl L1 out 0 0.72m\nr TWEETER out 0 8\nload TWEETER\n";

const CROSSOVER_WOOFER: &[u8] =
    b"rate 48000\nsource AMP in 0 0.1\nl L1 in out 0.72m\nc C1 out 0 5.6u\nr WOOFER out 0 8\nload WOOFER\n";

const DIVIDER: &[u8] = b"rate 48000\nsource S a 0 600\nr L a 0 75\nload L\n";

const HUM_NOTCH: &[u8] =
    b"rate 48000\nsource S in 0 600\nl L1 in a 1\nc C1 a 0 10.132u\nr L in 0 600\nload L\n";

const LADDER_LOW_PASS: &[u8] =
    b"rate 44100\nsource S in 0 600\nc C1 in 0 47n\nl L1 in b 30m\nc C2 b 0 100n\nl L2 b d 33m\nc C3 d 0 100n\nl L3 d out 30m\nc C4 out 0 47n\nr L out 0 600\nload L\n";

const PHONO_EQUALISER: &[u8] =
    b"rate 48000\nsource S in 0 600\nr R1 in out 88.7k\nc C1 out 0 9.1n\nr R2 out a 12.1k\nc C2 a 0 27n\nr L out 0 1M\nload L\n";

const RC_LOW_PASS: &[u8] = b"rate 48000\nsource S in 0 1k\nc C in 0 100n\nr L in 0 10k\nload L\n";

const TELEPHONE_BAND: &[u8] =
    b"rate 48000\nsource S in 0 600\nl L1 in a 43.6m\nc C1 a b 570n\nl L2 b 0 205m\nc C2 b 0 121n\nr L b 0 600\nload L\n";

const TWO_SOURCES: &[u8] =
    b"rate 48000\nsource MIC in 0 600\nr R1 in out 1k\ninput LINE aux 0 600\nr R2 aux out 2.2k\nr L out 0 10k\nload L\n";

// What each circuit makes of the noise.
static RUNS: [Case<'static>; 11] = [
    Case {
        words: "run|net=N",
        netlist: BUTTERWORTH_LADDER,
        certificate: b"",
        input: NOISE,
        code: 0,
        out: b"RIFFd\0\0\0WAVEfmt \x10\0\0\0\x01\0\x01\0\x80\xbb\0\0\0w\x01\0\x02\0\x10\0data@\0\0\0~\xff5\xfd\xb7\xf8\x0f\xf3r\xed\xe6\xe8U\xe6\xb0\xe6{\xeb\x16\xf6(\x060\x18.&P,},\xa0*\x1d'\xa0\x1f\xe6\x12\xd9\x01/\xefq\xdeU\xd1S\xc7\x0d\xc1\x89\xc0a\xc5*\xccq\xd2\xb2\xd8v\xdf\x8e\xe6",
        line: "",
    },
    Case {
        words: "run|net=N",
        netlist: BUTTERWORTH_LATTICE,
        certificate: b"",
        input: NOISE,
        code: 0,
        out: b"RIFFd\0\0\0WAVEfmt \x10\0\0\0\x01\0\x01\0\x80\xbb\0\0\0w\x01\0\x02\0\x10\0data@\0\0\0~\xff5\xfd\xb6\xf8\x0d\xf3o\xed\xe4\xe8T\xe6\xb0\xe6}\xeb\x1a\xf6/\x069\x188&W,\x81,\xa0*\x19'\x99\x1f\xdd\x12\xcd\x01\"\xefd\xdeJ\xd1K\xc7\x09\xc1\x8a\xc0g\xc53\xcc}\xd2\xbe\xd8\x83\xdf\x99\xe6",
        line: "",
    },
    Case {
        words: "run|net=N",
        netlist: CROSSOVER_TWEETER,
        certificate: b"",
        input: NOISE,
        code: 0,
        out: b"RIFFd\0\0\0WAVEfmt \x10\0\0\0\x01\0\x01\0\x80\xbb\0\0\0w\x01\0\x02\0\x10\0data@\0\0\0\0\x80\xe3 \xb18\xef\xdbll\xd6\xf0QY\x99\x7f0zXA\xa4\x84\0\x80\0\x80\xff\x7f\x7fe\0\x80\0\x80c\xbc2\xe2\xb44\xff\x7f0\xf0\xa8\xaa\xff\x7f\xff\x7f\xb1\xc7\x88\x89\x01\xc9\xff\x7f\xb2\x9b\xad\xfd\xff\x7f",
        line: "",
    },
    Case {
        words: "run|net=N",
        netlist: CROSSOVER_WOOFER,
        certificate: b"",
        input: NOISE,
        code: 0,
        out: b"RIFFd\0\0\0WAVEfmt \x10\0\0\0\x01\0\x01\0\x80\xbb\0\0\0w\x01\0\x02\0\x10\0data@\0\0\0\xc1\xfb\xec\xef;\xe3\x96\xd9\x81\xd2\xed\xcf\xe0\xd1\xaf\xdb\x16\xf28\x14\xb19FQ\x82O\nB\x81>eA\xc18G \xe0\xfe\xa1\xdb\xea\xbf\xeb\xaf\x0d\xa2\xb1\x93\xfc\x91\xd8\x9e\x0d\xab\xa6\xad-\xb0\xda\xba'\xc6\xdc\xd3",
        line: "",
    },
    Case {
        words: "run|net=N",
        netlist: DIVIDER,
        certificate: b"",
        input: NOISE,
        code: 0,
        out: b"RIFFd\0\0\0WAVEfmt \x10\0\0\0\x01\0\x01\0\x80\xbb\0\0\0w\x01\0\x02\0\x10\0data@\0\0\0\xe0\xe9\xa7\xfa@\xfeG\xf3\x9b\x04\xd4\xf8\xb3\x06\xb6\x11\x0f\x1aO\x1c\xbc\x09;\xea\xf4\xefH\x19\xe6\x14\xab\xf3\xb3\xeaV\xed]\xebR\xf1\xc1\x04\xd2\xef\xc8\xe3\xfe\0\xa7\x0f\xc4\xf6\x8e\xecw\xef#\x14\xac\xf3H\xfd \x1a",
        line: "",
    },
    Case {
        words: "run|net=N",
        netlist: HUM_NOTCH,
        certificate: b"",
        input: NOISE,
        code: 0,
        out: b"RIFFd\0\0\0WAVEfmt \x10\0\0\0\x01\0\x01\0\x80\xbb\0\0\0w\x01\0\x02\0\x10\0data@\0\0\0\xb8\x9c\x9e\xe8\xe9\xf8\xb7\xc7\xd5\x15\xd8\xe0I\x1f~Pou\xcd~\xab*\x07\x9dS\xb7<q\xdc\\,\xc7F\x9f\xb4\xaba\xa3\xb3\xbeN\x169\xb8\xa8\x82\x85\x06?H\"\xd8\x8f\xaa%\xb8$]\xe2\xcaT\xf6\xcfw",
        line: "",
    },
    Case {
        words: "run|net=N",
        netlist: LADDER_LOW_PASS,
        certificate: b"",
        input: SLOWER_NOISE,
        code: 0,
        out: b"RIFFd\0\0\0WAVEfmt \x10\0\0\0\x01\0\x01\0D\xac\0\0\x88X\x01\0\x02\0\x10\0data@\0\0\0\xff\xff\xf2\xff\xab\xff\xbc\xfeq\xfc\x1f\xf8\x9b\xf1\xb0\xe99\xe2\xc2\xdd\xeb\xde\xa8\xe7\x8a\xf8\x04\x10\xfc)4@#L\xacI09\x89\x1f\xd4\x03N\xec\x02\xdcp\xd2\xec\xcc\xae\xc8}\xc4D\xc1X\xc1\xc4\xc6\xa4\xd1\x9a\xdf",
        line: "",
    },
    Case {
        words: "run|net=N",
        netlist: PHONO_EQUALISER,
        certificate: b"",
        input: NOISE,
        code: 0,
        out: b"RIFFd\0\0\0WAVEfmt \x10\0\0\0\x01\0\x01\0\x80\xbb\0\0\0w\x01\0\x02\0\x10\0data@\0\0\0\xb2\xfdC\xfba\xfb\xaa\xfa\xb3\xfaC\xfb\xe6\xfb\xf9\xfev\x03;\x08v\n&\x07\xe1\x01\x90\x02\xfc\x06\xaf\x06\x1a\x02\xc6\xfdS\xfa\xe4\xf7~\xf8\xbd\xf8l\xf5q\xf4\x1f\xf8\xf3\xf9\xb8\xf7\x1a\xf5\x0b\xf7\xfc\xf8 \xf8f\xfb",
        line: "",
    },
    Case {
        words: "run|net=N",
        netlist: RC_LOW_PASS,
        certificate: b"",
        input: NOISE,
        code: 0,
        out: b"RIFFd\0\0\0WAVEfmt \x10\0\0\0\x01\0\x01\0\x80\xbb\0\0\0w\x01\0\x02\0\x10\0data@\0\0\0c\xed\x1a\xda\xeb\xdb)\xd7\xbb\xd8\xa5\xde\x1c\xe5-\xff*$vJ([J>\xaa\x11\xcd\x15,8\xd43\xe1\x0c\x9d\xe8[\xccC\xb9u\xbf\x1d\xc3G\xaa\0\xa5\xb6\xc5\x18\xd7a\xc7\xc0\xb4@\xc7}\xd9\xbf\xd4T\xf1",
        line: "",
    },
    Case {
        words: "run|net=N",
        netlist: TELEPHONE_BAND,
        certificate: b"",
        input: NOISE,
        code: 0,
        out: b"RIFFd\0\0\0WAVEfmt \x10\0\0\0\x01\0\x01\0\x80\xbb\0\0\0w\x01\0\x02\0\x10\0data@\0\0\0\xf1\xfc\xcf\xf4!\xed\xc4\xe8\xf8\xe6\xbd\xe8\x88\xed>\xf7\x8d\x08\xc7\x1f\06\xdb>\xdb3\xb3!v\x19\xc2\x17\xc6\x0e\x18\xfc\xd0\xe5\x85\xd1\xb0\xc5\x1b\xc4C\xc4\xa7\xc3\x9a\xcbZ\xdc\xb6\xe9\x8f\xed\x16\xf0\xbc\xf7\xbb\xfe\x91\x06",
        line: "",
    },
    Case {
        words: "run|net=N",
        netlist: TWO_SOURCES,
        certificate: b"",
        input: STEREO_NOISE,
        code: 0,
        out: b"RIFFd\0\0\0WAVEfmt \x10\0\0\0\x01\0\x01\0\x80\xbb\0\0\0w\x01\0\x02\0\x10\0data@\0\0\0\xdd\xa2{\xe9\xa1\xf8p\xcad\x13\xcf\xe15\x1c\x8eJ\xafm)w\xfb(Z\xa4q\xbcmj\xfaW\x18\xccU\xa6m\xb1\x1f\xa95\xc2\x03\x14\xe2\xbb6\x89.\x04\xe2A\"\xd9$\xaed\xba\xc3T\x1a\xcc\x8d\xf4\xf8m",
        line: "",
    },
];

#[test]
fn usual_circuits_run(rt: HostRuntime) -> Result<(), Fail> {
    let alloc = rt.alloc();
    for case in &RUNS {
        is_answered(&rt, alloc, case, SOUND)?;
    }
    Ok(())
}

// Each circuit and its certificate.
static CERTIFICATES: [(&[u8], &[u8]); 11] = [
    (
        BUTTERWORTH_LADDER,
        b"wdfcert 1\nk 14\nmultipliers 4 2647 16079 16124 13695\nrows 3 0 1 2\ninverse\n1036868202746146927 374483396869384648 809974717235616655\n894129627975927179 2116621456119955456 569043564381865383\n723334722675976519 924199791347206550 901889470475881998\nend\n",
    ),
    (
        BUTTERWORTH_LATTICE,
        b"wdfcert 1\nk 14\nmultipliers 2 2605 609\nrows 2 0 1\ninverse\n1464548576647948020 1710656615398178068\n544806849871729736 871879707674965781\nend\nwdfcert 1\nk 14\nmultipliers 1 2689\nrows 1 0\ninverse\n1093233929085397213\nend\n",
    ),
    (
        CROSSOVER_TWEETER,
        b"wdfcert 1\nk 14\nmultipliers 3 16205 3375 1700\nrows 2 0 1\ninverse\n1205267594724036091 1152921504606846975\n625885205236700561 938613742574044827\nend\n",
    ),
    (
        CROSSOVER_WOOFER,
        b"wdfcert 1\nk 14\nmultipliers 3 16361 16034 13293\nrows 2 0 1\ninverse\n1679689685478373650 1152921504606846976\n531573442767879772 972259841017283879\nend\n",
    ),
    (
        DIVIDER,
        b"wdfcert 1\nk 14\nmultipliers 1 1820\nrows 0\ninverse\nend\n",
    ),
    (
        HUM_NOTCH,
        b"wdfcert 1\nk 14\nmultipliers 3 8166 102 16383\nrows 2 0 2\ninverse\n1848553179668701657 362768185431149665\n268246541317307036 362768185431149665\nend\n",
    ),
    (
        LADDER_LOW_PASS,
        b"wdfcert 1\nk 14\nmultipliers 8 4422 15065 15734 15791 15793 15750 15384 11686\nrows 7 0 1 2 3 4 5 6\ninverse\n289063319219161869 504519416252348885 1292389474377938904 2241376619703583690 1438928171282674740 1700797651810914360 237639399859285471\n1654185106850463449 1417939498908869637 73708744861207240 371271584480449585 261866303650314300 658172111821767171 205254639549767611\n871592152683783308 355335218301373203 937942110439525641 2244259650486095144 1264393332423358724 1319124472059877901 2296862886147992957\n1815595678655957123 1872591182753046683 2289602110954472072 1911756937730976487 2030869770356366511 1775178993571075406 1354995447963577088\n268003153742484684 1039300368504419634 829788167609007887 52168909931554094 2259963017916564212 563273480138073847 591415338078920015\n1337067523336311798 1317957162382949215 1512647539138877656 415570425674776806 618997904495500254 2053328442480486577 1525202884313094028\n761284804950983441 270846382147248538 1248344475907314942 362032303463496039 1471214765431990734 2095189583284786092 267600638075835293\nend\n",
    ),
    (
        PHONO_EQUALISER,
        b"wdfcert 1\nk 14\nmultipliers 5 16275 16193 15010 16365 15878\nrows 2 0 2\ninverse\n526251182452561006 467464262267812087\n679807905277671141 1522512791824938114\nend\n",
    ),
    (
        RC_LOW_PASS,
        b"wdfcert 1\nk 14\nmultipliers 2 1531 16215\nrows 1 0\ninverse\n210611095127889380\nend\n",
    ),
    (
        TELEPHONE_BAND,
        b"wdfcert 1\nk 14\nmultipliers 5 14369 16097 16313 14336 71\nrows 4 0 1 2 3\ninverse\n470843471787585138 576460752303423488 1169599368430078109 1729382256910270463\n504199199434047405 1729382256910270463 1169599368430078109 1729382256910270463\n1615500383339853805 1790855938745444445 1615500383339853805 686649427290999340\n1133239442659825874 727932452112201954 1172603566553868077 1739190939220833921\nend\n",
    ),
    (
        TWO_SOURCES,
        b"wdfcert 1\nk 14\nmultipliers 4 13789 5140 12800 12873\nrows 0\ninverse\nend\n",
    ),
];

#[test]
fn usual_circuits_are_certified(rt: HostRuntime) -> Result<(), Fail> {
    let alloc = rt.alloc();
    for (netlist, certificate) in &CERTIFICATES {
        let made = Case {
            words: "certify|net=N",
            netlist,
            certificate,
            input: b"",
            code: 0,
            out: certificate,
            line: "",
        };
        is_answered(&rt, alloc, &made, SOUND)?;
        let checked = Case {
            words: "check|net=N|cert=C",
            out: b"accepted\n",
            ..made
        };
        is_answered(&rt, alloc, &checked, SOUND)?;
    }
    Ok(())
}
