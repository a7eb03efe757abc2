use crate::checks::{same, same_bytes};
use calendar_days::day_text;
use std::test::*;
use tacho_types::{
    BadValue, Bcd2, Nation, Odometer, TimeReal, read_bcd2, read_place, write_bcd2, write_odometer,
    write_time,
};

#[test]
fn dates_of_days(rt: HostRuntime) {
    same_bytes(&rt, day_text(0).as_slice(), b"1970-01-01".as_slice());
    same_bytes(&rt, day_text(14669).as_slice(), b"2010-03-01".as_slice());
    same_bytes(&rt, day_text(49710).as_slice(), b"2106-02-07".as_slice());
}

#[test]
fn decimal_digits_in_two_bytes(rt: HostRuntime) {
    same(&rt, &read_bcd2(&[0x09, 0x99]), &Ok(Bcd2(999)));
    same(&rt, &read_bcd2(&[0x0A, 0x99]), &Err(BadValue(1)));
    same(&rt, &read_bcd2(&[0xF0, 0x9A]), &Err(BadValue(0)));
    same(&rt, &read_bcd2(&[0x00, 0x0A]), &Err(BadValue(3)));
    let mut two = [0; 2];
    write_bcd2(Bcd2(9876), &mut two);
    same(&rt, &two, &[0x98, 0x76]);
}

#[test]
fn the_highest_byte_comes_first(rt: HostRuntime) {
    let mut four = [0; 4];
    write_time(TimeReal(1_267_401_600), &mut four);
    same(&rt, &four, &[0x4B, 0x8B, 0x03, 0x80]);
    let mut three = [0; 3];
    write_odometer(Odometer(9_999_999), &mut three);
    same(&rt, &three, &[0x98, 0x96, 0x7F]);
    let entry = read_place(&[0x4B, 0x8B, 0x03, 0x80, 1, 17, 2, 0, 0, 0x2F]);
    same(&rt, &entry.time, &TimeReal(1_267_401_600));
    same(&rt, &entry.kind, &1);
    same(&rt, &entry.country, &Nation(17));
    same(&rt, &entry.region, &2);
    same(&rt, &entry.odometer, &Odometer(47));
}
