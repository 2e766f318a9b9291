use super::*;
use std::alloc::{AllocError, Global};
use std::test::*;
use wdf_report::UsageKind;

// The words of a line, parted by `|`; none in an empty line.
fn words(alloc: Global, line: &str) -> Result<Vec<String>, AllocError> {
    let mut words = Vec::new(alloc);
    if !line.is_empty() {
        for word in line.split('|') {
            words.push(String::from_str(alloc, word)?)?;
        }
    }
    Ok(words)
}

// Words, the word at fault, and what is wrong with it.
const FAULTS: [(&str, usize, UsageKind); 52] = [
    ("", 0, UsageKind::NoCommand),
    ("net=N", 0, UsageKind::UnknownCommand),
    ("Run|net=N", 0, UsageKind::UnknownCommand),
    ("run |net=N", 0, UsageKind::UnknownCommand),
    ("|net=N", 0, UsageKind::UnknownCommand),
    ("--help", 0, UsageKind::UnknownCommand),
    ("help|net=N|k=21", 0, UsageKind::UnknownCommand),
    ("run", 1, UsageKind::MissingOperand),
    ("run|k=1", 2, UsageKind::MissingOperand),
    ("report|guard=8", 2, UsageKind::MissingOperand),
    ("certify", 1, UsageKind::MissingOperand),
    ("check|net=N", 2, UsageKind::MissingOperand),
    ("check|cert=C|k=2", 3, UsageKind::MissingOperand),
    ("soak|seed=5", 2, UsageKind::MissingOperand),
    ("soak|seed=5|order=1", 3, UsageKind::MissingOperand),
    ("run|", 1, UsageKind::NoEquals),
    ("run|net", 1, UsageKind::NoEquals),
    ("check|net=N|cert=C|--help|k=2", 3, UsageKind::NoEquals),
    ("run|=x", 1, UsageKind::UnknownOperand),
    ("run|NET=N", 1, UsageKind::UnknownOperand),
    ("run|net=N|bits=16", 2, UsageKind::UnknownOperand),
    ("run|net=N|cert=C", 2, UsageKind::UnknownOperand),
    ("certify|net=N|guard=0", 2, UsageKind::UnknownOperand),
    ("soak|net=N", 1, UsageKind::UnknownOperand),
    ("soak|k=14", 1, UsageKind::UnknownOperand),
    ("run|net=N|net=N", 2, UsageKind::DoubleOperand),
    ("run|net=N|net=", 2, UsageKind::DoubleOperand),
    ("report|k=3|net=N|k=x", 3, UsageKind::DoubleOperand),
    ("run|net=", 1, UsageKind::EmptyValue),
    ("run|k=|net=N", 1, UsageKind::EmptyValue),
    ("run|net=N|k=x", 2, UsageKind::BadNumber),
    ("run|net=N|k=+1", 2, UsageKind::BadNumber),
    ("run|net=N|k= 1", 2, UsageKind::BadNumber),
    ("run|net=N|guard=4=", 2, UsageKind::BadNumber),
    ("run|net=N|k=000000000000000000014", 2, UsageKind::BadNumber),
    (
        "run|net=N|frames=18446744073709551616",
        2,
        UsageKind::BadNumber,
    ),
    ("soak|seed=18446744073709551616", 1, UsageKind::BadNumber),
    ("soak|seed=99999999999999999999", 1, UsageKind::BadNumber),
    ("run|net=N|k=21", 2, UsageKind::OutOfRange),
    ("certify|net=N|k=0", 2, UsageKind::OutOfRange),
    ("run|net=N|guard=17", 2, UsageKind::OutOfRange),
    ("run|net=N|shift=17", 2, UsageKind::OutOfRange),
    ("run|net=N|frames=0", 2, UsageKind::OutOfRange),
    ("run|net=N|frames=4294967296", 2, UsageKind::OutOfRange),
    ("run|net=N|amp=0", 2, UsageKind::OutOfRange),
    ("run|net=N|amp=2147483649", 2, UsageKind::OutOfRange),
    ("report|net=N|bits=12", 2, UsageKind::OutOfRange),
    ("report|bits=31", 1, UsageKind::OutOfRange),
    ("soak|order=0", 1, UsageKind::OutOfRange),
    ("soak|order=33", 1, UsageKind::OutOfRange),
    ("soak|frames=4194305", 1, UsageKind::OutOfRange),
    ("soak|frames=0", 1, UsageKind::OutOfRange),
];

#[test]
fn the_first_fault_is_told(rt: HostRuntime) -> Result<(), Fail> {
    for (line, word, kind) in FAULTS {
        let read = read_words(&words(rt.alloc(), line)?);
        assert_eq!(rt; read, Err(UsageFault { word, kind }), "of {line}");
    }
    Ok(())
}

// What `run net=N` asks for.
const RUN: Order = Order {
    command: Command::Run,
    net: Some(1),
    cert: None,
    k: 14,
    guard: None,
    shift: 0,
    frames: 67_108_864,
    amp: None,
    bits: 16,
    seed: 0,
    order: 0,
};

const REPORT: Order = Order {
    command: Command::Report,
    ..RUN
};

const CERTIFY: Order = Order {
    command: Command::Certify,
    ..RUN
};

const SOAK: Order = Order {
    command: Command::Soak,
    net: None,
    frames: 4_194_304,
    seed: u64::MAX,
    order: 32,
    ..RUN
};

// Words, and what they ask for.
const ORDERS: [(&str, Order); 13] = [
    ("run|net=N", RUN),
    (
        "run|net=N|k=1|guard=0|shift=0|frames=1|amp=1",
        Order {
            k: 1,
            guard: Some(0),
            frames: 1,
            amp: Some(1),
            ..RUN
        },
    ),
    (
        "run|k=20|guard=16|shift=16|frames=4294967295|amp=2147483648|net=N",
        Order {
            net: Some(6),
            k: 20,
            guard: Some(16),
            shift: 16,
            frames: u32::MAX,
            amp: Some(2_147_483_648),
            ..RUN
        },
    ),
    ("run|net=N|k=00000000000000000014", RUN),
    ("run|net==|shift=0", RUN),
    ("report|net=N", REPORT),
    ("report|net=N|bits=8", Order { bits: 8, ..REPORT }),
    ("report|net=N|bits=32", Order { bits: 32, ..REPORT }),
    ("certify|net=N", CERTIFY),
    ("certify|net=N|k=20", Order { k: 20, ..CERTIFY }),
    (
        "check|cert=C|k=2|net=N",
        Order {
            command: Command::Check,
            net: Some(3),
            cert: Some(1),
            k: 2,
            ..RUN
        },
    ),
    (
        "soak|seed=18446744073709551615|order=32|frames=4194304",
        SOAK,
    ),
    (
        "soak|frames=1|seed=0|order=1",
        Order {
            frames: 1,
            seed: 0,
            order: 1,
            ..SOAK
        },
    ),
];

#[test]
fn orders_have_what_is_given_and_what_counts_else(rt: HostRuntime) -> Result<(), Fail> {
    for (line, order) in ORDERS {
        let read = read_words(&words(rt.alloc(), line)?);
        assert_eq!(rt; read, Ok(order), "of {line}");
    }
    Ok(())
}

#[test]
fn a_file_has_the_name_behind_the_first_equals_sign(rt: HostRuntime) -> Result<(), Fail> {
    for (word, name) in [
        ("net=a.net", "a.net"),
        ("net=a=b", "a=b"),
        ("net==", "="),
        ("net", ""),
    ] {
        let words = words(rt.alloc(), word)?;
        assert!(rt; words.len() == 1);
        assert_eq!(rt; file_name(&words, 0), name);
    }
    Ok(())
}

#[test]
fn plans_are_of_the_order_and_the_width_of_the_samples(rt: HostRuntime) -> Result<(), Fail> {
    for (line, bits, guard, amp) in [
        ("run|net=N|k=7|shift=3|frames=9", 8, 4, 128),
        ("run|net=N|k=7|shift=3|frames=9", 16, 4, 32_768),
        ("run|net=N|k=7|shift=3|frames=9", 24, 4, 8_388_608),
        ("run|net=N|k=7|shift=3|frames=9", 32, 0, 2_147_483_648),
        (
            "run|net=N|k=7|shift=3|frames=9|guard=8|amp=1000",
            32,
            8,
            1000,
        ),
        (
            "run|net=N|k=7|shift=3|frames=9|guard=0|amp=32768",
            16,
            0,
            32_768,
        ),
        ("run|net=N|k=7|shift=3|frames=9|amp=40000", 16, 4, 32_768),
    ] {
        let Ok(order) = read_words(&words(rt.alloc(), line)?) else {
            assert!(rt; false, "an order");
            return Ok(());
        };
        let plan = order.plan(bits);
        assert_eq!(rt; (plan.k(), plan.shift(), plan.frames()), (7, 3, 9));
        assert_eq!(rt; (plan.guard(), plan.amp(), plan.bits()), (guard, amp, bits));
    }
    Ok(())
}
