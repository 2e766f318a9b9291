use super::*;
use std::alloc::Global;
use std::process::Abort;
use std::test::*;
use wdf_bounds::Plan;
use wdf_energy::Totals;
use wdf_law::Side;
use wdf_netlist::read;
use wdf_stages::{bound_words, design_networks};
use wdf_text::MAX_TEXT;

// Guard bits, a netlist, and its report under the plan with these and all else as usual, by another program; the last by
// hand.
static REPORTS: [(u8, &str, &str); 5] = [
    (
        4,
        "rate 48000\nsource S a 0 600\nr L a 0 75\nload L\n",
        "wdf report 1\nform ladder\nrate 48000\n\
         plan k 14 guard 4 shift 0 frames 67108864 amp 32768 bits 16\n\
         root S\n\
         element S source ratio 1099511627776 bound 4294967296\n\
         element L r ratio 137438953472 bound 1518292992\n\
         junction root 1820\n\
         largest 4294967296 limit 70368744177664\n\
         states 0 certified yes\n",
    ),
    (
        4,
        "rate 44100\nsource S in 0 600\nc C1 in 0 47n\nl L1 in b 30m\nc C2 b 0 100n\nl L2 b d 33m\n\
         c C3 d 0 100n\nl L3 d out 30m\nc C4 out 0 47n\nr L out 0 600\nload L\n",
        "wdf report 1\nform ladder\nrate 44100\n\
         plan k 14 guard 4 shift 0 frames 67108864 amp 32768 bits 16\n\
         root S\n\
         element S source ratio 1099511627776 bound 4294967296\n\
         element C1 c ratio 442060930098 bound 2723282944\n\
         element L1 l ratio 4848846278492 bound 9019129856\n\
         element C2 c ratio 207768637146 bound 1867272192\n\
         element L2 l ratio 5333730906341 bound 9460338688\n\
         element C3 c ratio 207768637146 bound 1866543104\n\
         element L3 l ratio 4848846278492 bound 9014841344\n\
         element C4 c ratio 442060930098 bound 2721452032\n\
         element L r ratio 1099511627776 bound 4292169728\n\
         junction root 4422\n\
         junction parallel 15065\n\
         junction series 15734\n\
         junction parallel 15791\n\
         junction series 15793\n\
         junction parallel 15750\n\
         junction series 15384\n\
         junction parallel 11686\n\
         largest 9635725312 limit 70368744177664\n\
         states 7 certified yes\n",
    ),
    (
        4,
        "rate 48000\nsource MIC in 0 600\nr R1 in out 1k\ninput LINE aux 0 600\nr R2 aux out 2.2k\n\
         r L out 0 10k\nload L\n",
        "wdf report 1\nform ladder\nrate 48000\n\
         plan k 14 guard 4 shift 0 frames 67108864 amp 32768 bits 16\n\
         root MIC\n\
         element MIC source ratio 1099511627776 bound 6073593856\n\
         element R1 r ratio 1832519379627 bound 7841783808\n\
         element LINE input ratio 1099511627776 bound 6074413056\n\
         element R2 r ratio 4031542635179 bound 11631312896\n\
         element L r ratio 18325193796267 bound 24798175232\n\
         junction root 13789\n\
         junction series 5140\n\
         junction parallel 12800\n\
         junction series 12873\n\
         largest 24798175232 limit 70368744177664\n\
         states 0 certified yes\n",
    ),
    (
        4,
        "rate 48000\nlattice 600\nbranch A p n\nl L1 p n 31.8m\nc C1 p n 88.4n\nbranch B p n\nc C2 p n 88.4n\n",
        "wdf report 1\nform lattice\nrate 48000\n\
         plan k 14 guard 4 shift 0 frames 67108864 amp 32768 bits 16\n\
         branch A\n\
         root @\n\
         element @ source ratio 1099511627776 bound 4294967296\n\
         element L1 l ratio 5594315162124 bound 9686261760\n\
         element C1 c ratio 215936012871 bound 1903181824\n\
         junction root 2605\n\
         junction parallel 609\n\
         largest 9686261760 limit 70368744177664\n\
         states 2 certified yes\n\
         branch B\n\
         root @\n\
         element @ source ratio 1099511627776 bound 4294967296\n\
         element C2 c ratio 215936012871 bound 1903157248\n\
         junction root 2689\n\
         largest 4294967296 limit 70368744177664\n\
         states 1 certified yes\n",
    ),
    (
        0,
        "rate 50000\nsource S a 0 1\nc C a 0 10u\nr L a 0 1\nload L\n",
        "wdf report 1\nform ladder\nrate 50000\n\
         plan k 14 guard 0 shift 0 frames 67108864 amp 32768 bits 16\n\
         root S\n\
         element S source ratio 1099511627776 bound 268435456\n\
         element C c ratio 1099511627776 bound 268423424\n\
         element L r ratio 1099511627776 bound 268423424\n\
         junction root 5461\n\
         junction parallel 8192\n\
         largest 268435456 limit 70368744177664\n\
         states 1 certified yes\n",
    ),
];

// The report of a netlist's text under the usual plan with so many guard bits; None where there is none, or of a text
// that is too long to be read.
fn told(alloc: Global, text: &[u8], guard: u8) -> Option<Vec<u8>> {
    if text.len() > MAX_TEXT {
        return None;
    }
    let plan = Plan::new(14, guard, 0, 67_108_864, 32_768, 16)?;
    let netlist = read(alloc, text).ok()?;
    let networks = design_networks(alloc, &netlist, 14).ok()?;
    let bounds = bound_words(alloc, &netlist, &networks, &plan).ok()?;
    report(alloc, &netlist, &networks, &plan, &bounds).ok()
}

#[test]
fn reports_are_those_of_another_program(rt: HostRuntime) {
    let alloc = rt.alloc();
    for (guard, text, want) in &REPORTS {
        match told(alloc, text.as_bytes(), *guard) {
            Some(found) => assert_eq!(rt; &found[..], want.as_bytes(), "of {text}"),
            None => assert!(rt; false, "of {text}"),
        }
    }
}

// No resistor and no source sees opposite charges on two capacitors in parallel.
#[test]
fn a_network_with_an_obstruction_is_not_certified(rt: HostRuntime) {
    let text = "rate 50000\nsource S a 0 1\nc C1 a 0 10u\nc C2 a 0 10u\nr L a 0 1\nload L\n";
    let found = told(rt.alloc(), text.as_bytes(), 4);
    assert!(rt; found.is_some_and(|text| text.ends_with(b"states 2 certified no\n")));
}

// Totals of runs by another program, and their lines.
static LEDGERS: [(Side, usize, u128, u128, u128, &str); 4] = [
    (
        Side::Whole,
        0,
        60_355_153_217_024,
        60_344_702_665_718,
        8_996_359_913,
        "channel 0 incident 60355153217024 absorbed 60344702665718 stored 8996359913\n",
    ),
    (
        Side::A,
        0,
        60_355_153_217_024,
        60_353_825_718_297,
        0,
        "branch A channel 0 incident 60355153217024 absorbed 60353825718297 stored 0\n",
    ),
    (
        Side::B,
        0,
        60_355_153_217_024,
        60_354_651_324_877,
        0,
        "branch B channel 0 incident 60355153217024 absorbed 60354651324877 stored 0\n",
    ),
    (
        Side::Whole,
        0,
        94_372_366_036_224,
        94_068_966_610_156,
        297_759_148_163,
        "channel 0 incident 94372366036224 absorbed 94068966610156 stored 297759148163\n",
    ),
];

#[test]
fn lines_are_those_of_another_program(rt: HostRuntime) {
    for (side, channel, incident, absorbed, stored, want) in &LEDGERS {
        let totals = Totals {
            incident: *incident,
            absorbed: *absorbed,
            stored: *stored,
        };
        let line = ledger_line(*side, *channel, &totals);
        assert_eq!(rt; line.as_bytes(), want.as_bytes(), "{want}");
    }
    let lines = count_lines(1200, 245);
    assert_eq!(rt; lines.as_bytes(), "frames 1200\nclipped 245\n".as_bytes());
}
