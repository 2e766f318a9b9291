use super::*;
use indexmap::IndexMap;
use std::process::Abort;
use std::test::*;

// A word's offset, length, line and column.
type Stands = (usize, usize, u32, u32);

fn cuts(rt: &impl Abort, text: &[u8], want: &[Stands]) {
    assert!(rt; text.len() <= MAX_TEXT);
    let mut cursor = Cursor::new(text);
    for stands in want {
        let word = cursor
            .next_word()
            .map(|word| (word.start, word.len, word.line, word.column));
        assert_eq!(rt; word, Some(*stands), "in {text:?}");
    }
    assert_eq!(rt; cursor.next_word(), None, "in {text:?}");
    assert_eq!(rt; cursor.next_word(), None, "in {text:?}");
}

#[test]
fn a_text_is_cut_into_lines_and_words(rt: HostRuntime) {
    cuts(&rt, b"", &[]);
    cuts(&rt, b"\n\n \t\r\n", &[]);
    cuts(&rt, b"rate 48000", &[(0, 4, 1, 1), (5, 5, 1, 6)]);
    cuts(&rt, b"a\r\nb\r\n", &[(0, 1, 1, 1), (3, 1, 2, 1)]);
    cuts(&rt, b"a b\r", &[(0, 1, 1, 1), (2, 1, 1, 3)]);
    cuts(
        &rt,
        b"a\r\r\n\rb c\r d",
        &[(0, 2, 1, 1), (4, 2, 2, 1), (7, 2, 2, 4), (10, 1, 2, 7)],
    );
    cuts(
        &rt,
        b"\t\tr  A\n\n B",
        &[(2, 1, 1, 3), (5, 1, 1, 6), (9, 1, 3, 2)],
    );
    cuts(
        &rt,
        b"12345678901234567890 \x0b\x00",
        &[(0, 20, 1, 1), (21, 2, 1, 22)],
    );
}

// A text that is no name gives `@`.
fn name(text: &str) -> Name {
    Name::new(text.as_bytes()).unwrap_or(Name::at_sign())
}

// Where the key of this text stands in the map.
fn place(places: &IndexMap<Name, u32>, text: &str) -> Option<usize> {
    let key = name(text);
    places.get_index_of(&key)
}

#[test]
fn a_name_is_a_key(rt: HostRuntime) -> Result<(), Fail> {
    let mut places = IndexMap::new(rt.alloc());
    places.insert(name("R1"), 1)?;
    places.insert(name("r1"), 2)?;
    places.insert(Name::at_sign(), 3)?;
    places.insert(name("R1"), 4)?;
    assert_eq!(rt; place(&places, "R1"), Some(0));
    assert_eq!(rt; place(&places, "r1"), Some(1));
    assert_eq!(rt; place(&places, "@"), Some(2));
    assert_eq!(rt; places.len(), 3);
    Ok(())
}

#[test]
fn a_whole_number_has_1_to_20_digits(rt: HostRuntime) {
    for (text, want) in [
        ("", None),
        ("0", Some(0)),
        ("48000", Some(48000)),
        ("00000000000000000001", Some(1)),
        ("000000000000000000001", None),
        ("18446744073709551615", Some(u64::MAX)),
        ("18446744073709551616", None),
        ("99999999999999999999", None),
        ("+1", None),
        ("-1", None),
        ("1.0", None),
        (" 1", None),
    ] {
        assert_eq!(rt; whole(text.as_bytes()), want, "{text}");
    }
}

// A text, and the digits and exponent of its quantity.
const DECIMALS: [(&str, u64, i8); 23] = [
    ("0", 0, 0),
    ("00", 0, 0),
    ("0.0", 0, 0),
    ("1", 1, 0),
    ("10", 1, 1),
    ("100", 1, 2),
    ("1.", 1, 0),
    (".5", 5, -1),
    ("0.5", 5, -1),
    ("0.50", 5, -1),
    ("007", 7, 0),
    ("123456789", 123456789, 0),
    ("1234567890", 123456789, 1),
    ("1.23456789", 123456789, -8),
    ("12345678900000000000", 123456789, 11),
    ("0.000000001", 1, -9),
    ("1000000000000000000000000000000000000000", 1, 39),
    ("0.00000000000000000000000000000000000000", 0, 0),
    ("0.00000000000000000000000000000000000001", 1, -38),
    ("100000001", 100000001, 0),
    ("10.01", 1001, -2),
    ("0010.0100", 1001, -2),
    ("9999999990", 999999999, 1),
];

// A text, and why it is refused.
const REFUSED: [(&str, DecimalError); 17] = [
    ("", DecimalError::Empty),
    (".", DecimalError::Empty),
    ("1.2.3", DecimalError::BadByte { at: 3 }),
    ("12a", DecimalError::BadByte { at: 2 }),
    ("-1", DecimalError::BadByte { at: 0 }),
    ("+1", DecimalError::BadByte { at: 0 }),
    ("1e3", DecimalError::BadByte { at: 1 }),
    ("1234567891", DecimalError::TooManyDigits),
    (
        "10000000000000000000000000000000000000000",
        DecimalError::TooLong,
    ),
    (
        "0.000000000000000000000000000000000000000",
        DecimalError::TooLong,
    ),
    ("1000000001", DecimalError::TooManyDigits),
    (".", DecimalError::Empty),
    ("..", DecimalError::BadByte { at: 1 }),
    ("1..", DecimalError::BadByte { at: 2 }),
    ("a", DecimalError::BadByte { at: 0 }),
    (
        "xxxxxxxxxxxxxxxxxxxxxxxxxxxxxxxxxxxxxxxxx",
        DecimalError::TooLong,
    ),
    (
        "11111111111111111111111111111111111111111",
        DecimalError::TooLong,
    ),
];

#[test]
fn a_decimal_has_one_form(rt: HostRuntime) {
    for (text, digits, exp) in DECIMALS {
        let read = decimal(text.as_bytes()).ok().map(|q| (q.digits, q.exp));
        assert_eq!(rt; read, Some((digits, exp)), "{text}");
    }
}

#[test]
fn a_decimal_is_refused_for_its_first_cause(rt: HostRuntime) {
    for (text, error) in REFUSED {
        assert_eq!(rt; decimal(text.as_bytes()).err(), Some(error), "{text}");
    }
}

#[test]
fn lines_and_digits_are_pushed(rt: HostRuntime) -> Result<(), Fail> {
    let alloc = rt.alloc();
    let mut out = Vec::new(alloc);
    push_line(&mut out, b"load R")?;
    push_line(&mut out, b"")?;
    assert_eq!(rt; out.as_slice(), b"load R\n\n".as_slice());
    for (n, want) in [
        (0, "0"),
        (10, "10"),
        (u128::MAX, "340282366920938463463374607431768211455"),
    ] {
        out.clear();
        push_u128(&mut out, n)?;
        assert_eq!(rt; out.as_slice(), want.as_bytes());
    }
    for (n, want) in [
        (0, "0"),
        (-7, "-7"),
        (i128::MAX, "170141183460469231731687303715884105727"),
        (i128::MIN, "-170141183460469231731687303715884105728"),
    ] {
        out.clear();
        push_i128(&mut out, n)?;
        assert_eq!(rt; out.as_slice(), want.as_bytes());
    }
    Ok(())
}
