use crate::checks::same;
use std::test::*;
use text_fields::{byte, four_fields, number, number_between, one_field, three_fields, two_fields};

#[test]
fn numbers_are_read(rt: HostRuntime) {
    same(&rt, &number(b"0"), &Some(0));
    same(&rt, &number(b"4294967295"), &Some(4294967295));
    same(&rt, &byte(b"255"), &Some(255));
    same(&rt, &number_between(b"17", 17, 17), &Some(17));
}

#[test]
fn what_is_no_number(rt: HostRuntime) {
    let bad: [&[u8]; 9] = [
        b"",
        b"00",
        b"01",
        b"+1",
        b"-1",
        b"1 ",
        b"1:",
        b"1/",
        b"4294967296",
    ];
    for digits in bad {
        same(&rt, &number(digits), &None);
    }
    same(&rt, &byte(b"256"), &None);
    same(&rt, &number_between(b"16", 17, 17), &None);
    same(&rt, &number_between(b"18", 17, 17), &None);
}

#[test]
fn fields_are_split_at_single_spaces(rt: HostRuntime) {
    same(&rt, &one_field(b"a b"), &None);
    same(&rt, &two_fields(b"a"), &None);
    same(&rt, &two_fields(b"a  b"), &None);
    same(&rt, &three_fields(b"a b"), &None);
    same(&rt, &three_fields(b"a b c d"), &None);
    same(&rt, &four_fields(b"a b c d e"), &None);
    let last = match four_fields(b"a b c ") {
        Some((_, _, _, last)) => Some(last.len()),
        None => None,
    };
    same(&rt, &last, &Some(0));
}
