// The leaves at work: the conversions of document 01's edges, the IAD of its printed sitting
// written and read, and a record of version one imported.
#![tactic(auto)]

use iad::{Cvr, Iad};
use money::{AccumulatorAmount, Converted, Rate, Rates, TransactionAmount};
use refusal::Refusal;

// What standard output does not take is left out.
fn put(rt: &impl Print, text: &[u8]) {
    let _ = rt.write_all(text);
}

fn line(rt: &impl Print, name: &[u8], number: u64) {
    put(rt, name);
    let _ = rt.print(number);
    put(rt, b"\n");
}

fn one_rate(digits: u16, shift: u8, up: bool) -> Rates {
    let rate = Rate {
        from: 0x0840,
        to: 0x0978,
        digits,
        shift,
    };
    let blank = Rate {
        from: 0,
        to: 0,
        digits: 0,
        shift: 0,
    };
    Rates {
        entries: [blank, blank, rate, blank, blank],
        up,
    }
}

fn show_conversion(rt: &impl Print, name: &[u8], converted: Converted) {
    match converted {
        Converted::Amount(amount) => line(rt, name, amount.0),
        Converted::Over => {
            put(rt, name);
            put(rt, b"over\n");
        }
        Converted::NoEntry => {
            put(rt, name);
            put(rt, b"no entry\n");
        }
    }
}

fn show_conversions(rt: &impl Print) {
    let rates = one_rate(1_234, 6, false);
    show_conversion(
        rt,
        b"edge c: ",
        money::convert(TransactionAmount(12_345), 0x0840, 0x0978, rates),
    );
    show_conversion(
        rt,
        b"edge d: ",
        money::convert(
            TransactionAmount(money::MAX),
            0x0840,
            0x0978,
            one_rate(9_999, 12, false),
        ),
    );
    show_conversion(
        rt,
        b"edge e: ",
        money::convert(TransactionAmount(1), 0x0840, 0x0978, one_rate(4, 8, false)),
    );
    show_conversion(
        rt,
        b"edge c, rounded up: ",
        money::convert(
            TransactionAmount(12_345),
            0x0840,
            0x0978,
            one_rate(1_234, 6, true),
        ),
    );
    show_conversion(
        rt,
        b"edge e, rounded up: ",
        money::convert(TransactionAmount(1), 0x0840, 0x0978, one_rate(4, 8, true)),
    );
    show_conversion(
        rt,
        b"same currency: ",
        money::convert(TransactionAmount(12_345), 0x0978, 0x0978, rates),
    );
    show_conversion(
        rt,
        b"reversed pair: ",
        money::convert(TransactionAmount(12_345), 0x0978, 0x0840, rates),
    );
}

fn printed(profile: u8) -> Iad {
    Iad {
        accumulator: AccumulatorAmount(5_000),
        key: 1,
        cvr: Cvr {
            byte1: 0x90,
            byte2: 0x30,
            byte3: 0,
            byte4: 0,
            byte5: 0,
        },
        first: 1,
        second: 0,
        profile,
    }
}

fn show_outcome(rt: &impl Print, name: &[u8], outcome: Result<(), Refusal>) {
    let number = match outcome {
        Ok(()) => 0,
        Err(refusal) => u64::from(refusal.number()),
    };
    line(rt, name, number);
}

fn show_read(rt: &impl Print, s: &[u8]) {
    match iad::read(s) {
        Ok(iad) => {
            line(rt, b"read: ", 0);
            line(rt, b"accumulator: ", iad.accumulator.0);
            line(rt, b"profile: ", iad.profile as u64);
        }
        Err(refusal) => line(rt, b"read: ", refusal.number() as u64),
    }
}

fn show_room(rt: &impl Print, s: &[u8]) {
    for byte in s {
        let _ = print!(rt; "{byte:02x}");
    }
    put(rt, b"\n");
}

// Writing into the first 31 bytes of a room.
fn show_small_room(rt: &impl Print, room: &mut [u8]) {
    if 31 <= room.len() {
        show_outcome(rt, b"room of 31: ", iad::write(printed(1), &mut room[..31]));
    }
}

// Reading the first 32 bytes of a room.
fn show_first(rt: &impl Print, s: &[u8]) {
    if 32 <= s.len() {
        show_read(rt, &s[..32]);
    }
}

fn show_iad(rt: &impl Print, room: &mut [u8]) {
    show_outcome(rt, b"profile 125: ", iad::write(printed(125), room));
    show_small_room(rt, room);
    show_room(rt, room);
    show_outcome(rt, b"written: ", iad::write(printed(1), room));
    show_room(rt, room);
    show_first(rt, room);
    show_read(rt, room);
}

// Importing into the first 14 bytes of a room.
fn show_small_import(rt: &impl Print, old: &[u8], room: &mut [u8]) {
    if 14 <= room.len() {
        show_outcome(
            rt,
            b"room of 14: ",
            import::import_record(old, &mut room[..14]),
        );
    }
}

// From 0978 to 0840, 0.85, 12,345.
fn show_import(rt: &impl Print, room: &mut [u8]) {
    let old = b"\x09\x78\x08\x40\x3F\xEB\x33\x33\x33\x33\x33\x33\x40\xC8\x1C\x80\x00\x00\x00\x00";
    show_small_import(rt, old, room);
    show_room(rt, room);
    show_outcome(rt, b"imported: ", import::import_record(old, room));
    show_room(rt, room);
}

fn main(rt: HostRuntime) {
    show_conversions(&rt);
    let mut room = [0xEEu8; 34];
    show_iad(&rt, &mut room);
    let mut other = [0xEEu8; 34];
    show_import(&rt, &mut other);
}
