// Profile selection at work: the two examples of CPA Annex A, comparisons and masks, each cause of
// refusal 12, what is not judged, and the entries of a CPACE card that test an accumulator or a counter.
// A row is the data, then the profile and the entries visited, or 12.
#![tactic(auto)]

use selection::Selected;
use slot::Slots;

// What standard output does not take is left out.
fn put(rt: &impl Print, text: &[u8]) {
    let _ = rt.write_all(text);
}

fn put_byte(rt: &impl Print, byte: u8) {
    let _ = print!(rt; "{byte:02x}");
}

fn show_bytes(rt: &impl Print, bytes: &[u8]) {
    for byte in bytes {
        put_byte(rt, *byte);
    }
}

fn show_selection(rt: &impl Print, selection: Option<Selected>) {
    match selection {
        Some(Selected { profile, visits }) => {
            put_byte(rt, profile);
            put(rt, b" ");
            let _ = rt.print(u64::from(visits));
            put(rt, b"\n");
        }
        None => {
            put(rt, b"12\n");
        }
    }
}

fn show_row(rt: &impl Print, file: &[u8], entries: u8, data: &[u8], slots: Slots) {
    show_bytes(rt, data);
    put(rt, b" -> ");
    show_selection(rt, selection::select(file, entries, data, slots));
}

// Of a CPA card no slot is tested, however high it is.
fn row(rt: &impl Print, file: &[u8], entries: u8, data: &[u8]) {
    let cpa = Slots {
        testable: false,
        amounts: [999_999_999_999; 4],
        counts: [255; 4],
    };
    show_row(rt, file, entries, data, cpa);
}

fn case(rt: &impl Print, name: &[u8], file: &[u8], entries: u8, data: &[u8]) {
    put(rt, name);
    row(rt, file, entries, data);
}

// A CPACE card: accumulators 1 to 4 at 600, 601, MAX, 5, and counters at 2, 3, 255, 9.
fn slot_row(rt: &impl Print, name: &[u8], file: &[u8], data: &[u8]) {
    let slots = Slots {
        testable: true,
        amounts: [600, 601, 999_999_999_999, 5],
        counts: [2, 3, 255, 9],
    };
    put(rt, name);
    show_row(rt, file, 1, data, slots);
}

// Contact opens 1; contactless asks whether accumulator 1 with the amount is greater than 1000, then
// whether counter 1 is greater than 2.
fn contactless(rt: &impl Print, amount: u64, count: u8, data: &[u8]) {
    let slots = Slots {
        testable: true,
        amounts: [amount, 0, 0, 0],
        counts: [count, 0, 0, 0],
    };
    let _ = rt.print(amount);
    put(rt, b", ");
    let _ = rt.print(u64::from(count));
    put(rt, b": ");
    show_row(
        rt,
        b"\x08\x01\x01\x02\xFF\x01\x00\x81\x01\
          \x0C\x02\x06\x01\x00\x00\x00\x00\x10\x00\xD3\x02\x81\
          \x07\x00\x01\x01\x02\x91\x02\x01",
        3,
        data,
        slots,
    );
}

fn show_contactless(rt: &impl Print) {
    put(rt, b"Accumulator 1, counter 1\n");
    contactless(rt, 600, 2, b"\x00\x00");
    contactless(rt, 600, 2, b"\x01\x00\x00\x00\x00\x04\x00");
    contactless(rt, 601, 2, b"\x01\x00\x00\x00\x00\x04\x00");
    contactless(rt, 600, 3, b"\x01\x00\x00\x00\x00\x04\x00");
    contactless(rt, 600, 2, b"\x01");
    contactless(rt, 600, 2, b"\x01\x00\x00\x00\x00\x00\x0A");
}

fn show_tests(rt: &impl Print) {
    slot_row(
        rt,
        b"accumulator 1 less than 601: ",
        b"\x0C\x00\x06\x01\x00\x00\x00\x00\x06\x01\xD0\x03\x04",
        b"",
    );
    slot_row(
        rt,
        b"accumulator 2 less than 601: ",
        b"\x0C\x00\x06\x01\x00\x00\x00\x00\x06\x01\xE0\x03\x04",
        b"",
    );
    slot_row(
        rt,
        b"accumulator 3 and 1 greater than 999999999998: ",
        b"\x0C\x01\x06\x01\x99\x99\x99\x99\x99\x98\xF3\x03\x04",
        b"\x00\x00\x00\x00\x00\x01",
    );
    slot_row(
        rt,
        b"accumulator 3 and 1 greater than MAX: ",
        b"\x0C\x01\x06\x01\x99\x99\x99\x99\x99\x99\xF3\x03\x04",
        b"\x00\x00\x00\x00\x00\x01",
    );
    slot_row(
        rt,
        b"counter 3 and 1 greater than 255: ",
        b"\x07\x00\x01\x01\xFF\xB3\x03\x04",
        b"",
    );
    slot_row(
        rt,
        b"counter 3 and 1 less than 255: ",
        b"\x07\x00\x01\x01\xFF\xB2\x03\x04",
        b"",
    );
    slot_row(
        rt,
        b"counter 00 greater than 8: ",
        b"\x07\x00\x01\x01\x08\x81\x03\x04",
        b"",
    );
    slot_row(
        rt,
        b"counter 00, b4 and b3 set, greater than 9: ",
        b"\x07\x00\x01\x01\x09\x8D\x03\x04",
        b"",
    );
}

fn show_refused_tests(rt: &impl Print) {
    slot_row(
        rt,
        b"accumulator 00: ",
        b"\x0C\x01\x06\x01\x00\x00\x00\x00\x06\x01\xC0\x03\x04",
        b"",
    );
    slot_row(
        rt,
        b"a block with a digit above 9: ",
        b"\x0C\x01\x06\x01\x00\x00\x00\x00\x06\x0A\xD0\x03\x04",
        b"",
    );
    slot_row(
        rt,
        b"an accumulator, L 5: ",
        b"\x0B\x01\x05\x01\x00\x00\x00\x06\x01\xD0\x03\x04",
        b"",
    );
    slot_row(
        rt,
        b"a counter, L 2: ",
        b"\x08\x01\x02\x01\x00\x02\x90\x03\x04",
        b"",
    );
    slot_row(
        rt,
        b"a counter, n 2: ",
        b"\x08\x01\x01\x02\x00\x02\x90\x03\x04",
        b"",
    );
    slot_row(
        rt,
        b"a counter, n 0: ",
        b"\x06\x01\x01\x00\x90\x03\x04",
        b"",
    );
    slot_row(
        rt,
        b"an amount at P 0: ",
        b"\x0C\x00\x06\x01\x00\x00\x00\x00\x06\x01\xD2\x03\x04",
        b"\x00\x00\x00\x00\x00\x01",
    );
    case(
        rt,
        b"a CPA card's entry of 91: ",
        b"\x07\x00\x01\x01\x02\x91\x03\x04",
        1,
        b"\x10",
    );
}

fn reading(rt: &impl Print, name: &[u8], file: &[u8], entries: u8) {
    put(rt, name);
    if selection::is_file(file, entries) {
        put(rt, b"a file\n");
    } else {
        put(rt, b"no file\n");
    }
}

// Table A-2.
fn simple(rt: &impl Print, data: &[u8]) {
    row(rt, b"\x0A\x02\x02\x02\xFF\xFF\x00\x56\x00\x04\x01", 1, data);
}

fn show_simple(rt: &impl Print) {
    put(rt, b"Table A-2\n");
    simple(rt, b"\x01\x00\x56");
    simple(rt, b"\x01\x08\x40");
    simple(rt, b"\x00\x56");
}

// Table A-6, with 0056 as the issuer's country.
fn complex(rt: &impl Print, data: &[u8]) {
    row(
        rt,
        b"\x08\x01\x01\x02\xFF\x02\x00\x02\x81\
          \x08\x02\x01\x02\xFF\x34\x00\x81\x82\
          \x0A\x03\x02\x02\xFF\xFF\x00\x00\x00\x7E\x81\
          \x08\x02\x01\x02\xF0\x10\x00\x81\x82\
          \x08\x03\x01\x02\x80\x80\x00\x04\x81\
          \x0A\x05\x02\x02\xFF\xFF\x00\x56\x00\x81\x85\
          \x0C\x07\x03\x02\x00\x00\x40\x00\x00\x40\x00\x81\x84\
          \x0A\x02\x01\x04\xFF\x22\x25\x35\x00\x05\x81\
          \x09\x02\x01\x03\xFF\x12\x15\x00\x81\x82\
          \x08\x03\x01\x02\x80\x80\x00\x81\x05\
          \x0A\x02\x01\x04\xFF\x23\x26\x36\x00\x06\x81\
          \x09\x02\x01\x03\xFF\x13\x16\x00\x81\x07\
          \x08\x03\x01\x02\x80\x80\x00\x07\x06",
        13,
        data,
    );
}

// Diversifier, terminal type, additional capabilities, country, capabilities.
fn show_complex(rt: &impl Print) {
    put(rt, b"Table A-6\n");
    complex(rt, b"\x02\x22\x00\x00\x00\x56\x00\x00\x40");
    complex(rt, b"\x01\x34\x00\x00\x00\x56\x00\x00\x00");
    complex(rt, b"\x01\x34\x80\x00\x00\x56\x00\x00\x40");
    complex(rt, b"\x01\x14\x80\x00\x08\x40\x00\x00\x00");
    complex(rt, b"\x01\x13\xE0\x00\x08\x40\xE0\xF0\xC8");
    complex(rt, b"\x01\x12\x60\x00\x00\x56\xE0\xF0\xC8");
    complex(rt, b"\x01\x22\x60\x00\x00\x56\xE0\xF0\xC8");
    complex(rt, b"\x01\x25\x60\x00\x00\x56\xE0\xF0\xC8");
}

fn show_complex_pos(rt: &impl Print) {
    complex(rt, b"\x01\x22\x60\x00\x00\x56\xE0\xF0\x88");
    complex(rt, b"\x01\x22\x60\x00\x08\x40\xE0\xF0\xC8");
    complex(rt, b"\x01\x23\x60\x00\x00\x56\xE0\xF0\xC8");
    complex(rt, b"\x01\x23\x60\x00\x08\x40\xE0\xF0\xC8");
    complex(rt, b"\x01\x26\x60\x00\x08\x40\xE0\xF0\xC8");
    complex(rt, b"\x01\x13\x60\x00\x08\x40\xE0\xF0\xC8");
    complex(rt, b"\x01\x21\x60\x00\x00\x56\xE0\xF0\xC8");
    complex(rt, b"\x01\x11\x60\x00\x00\x56\xE0\xF0\xC8");
}

fn less(rt: &impl Print, data: &[u8]) {
    case(
        rt,
        b"less than 10: ",
        b"\x08\x01\x01\x02\xFF\x10\x01\x03\x04",
        1,
        data,
    );
}

fn greater(rt: &impl Print, data: &[u8]) {
    case(
        rt,
        b"greater than 10: ",
        b"\x08\x01\x01\x02\xFF\x10\x02\x03\x04",
        1,
        data,
    );
}

fn show_comparisons(rt: &impl Print) {
    less(rt, b"\x0F");
    less(rt, b"\x10");
    less(rt, b"\x11");
    greater(rt, b"\x0F");
    greater(rt, b"\x10");
    greater(rt, b"\x11");
    case(
        rt,
        b"mask fff0, value 1230: ",
        b"\x0A\x01\x02\x02\xFF\xF0\x12\x30\x00\x03\x04",
        1,
        b"\x12\x3F",
    );
    case(
        rt,
        b"mask fff0, value 123f: ",
        b"\x0A\x01\x02\x02\xFF\xF0\x12\x3F\x00\x03\x04",
        1,
        b"\x12\x3F",
    );
}

fn show_refused_actions(rt: &impl Print) {
    case(
        rt,
        b"action 00: ",
        b"\x08\x01\x01\x02\xFF\x10\x00\x00\x04",
        1,
        b"\x10",
    );
    case(
        rt,
        b"action 80: ",
        b"\x08\x01\x01\x02\xFF\x10\x00\x80\x04",
        1,
        b"\x10",
    );
    case(
        rt,
        b"profile 7f: ",
        b"\x08\x01\x01\x02\xFF\x10\x00\x7F\x04",
        1,
        b"\x10",
    );
    case(
        rt,
        b"past the last entry: ",
        b"\x08\x01\x01\x02\xFF\x10\x00\x81\x04",
        1,
        b"\x10",
    );
    case(rt, b"an empty file: ", b"", 0, b"\x10");
}

fn show_refused_entries(rt: &impl Print) {
    case(rt, b"E 5: ", b"\x05\x01\x01\x02\xFF\x10", 1, b"\x10");
    case(
        rt,
        b"n 1: ",
        b"\x07\x01\x01\x01\xFF\x00\x03\x04",
        1,
        b"\x10",
    );
    case(rt, b"L 0: ", b"\x06\x01\x00\x02\x00\x03\x04", 1, b"\x10");
    case(
        rt,
        b"E not n x L + 6: ",
        b"\x09\x01\x01\x02\xFF\x10\x00\x03\x04\x04",
        1,
        b"\x10",
    );
    case(
        rt,
        b"check type 03: ",
        b"\x08\x01\x01\x02\xFF\x10\x03\x03\x04",
        1,
        b"\x10",
    );
    case(
        rt,
        b"P 0: ",
        b"\x08\x00\x01\x02\xFF\x10\x00\x03\x04",
        1,
        b"\x10",
    );
    case(
        rt,
        b"past the data: ",
        b"\x08\x02\x01\x02\xFF\x10\x00\x03\x04",
        1,
        b"\x10",
    );
    case(
        rt,
        b"cut short: ",
        b"\x08\x01\x01\x02\xFF\x10\x00\x03",
        1,
        b"\x10",
    );
}

fn show_not_judged(rt: &impl Print) {
    case(
        rt,
        b"the other action is 00: ",
        b"\x08\x01\x01\x02\xFF\x10\x00\x03\x00",
        1,
        b"\x10",
    );
    case(
        rt,
        b"an entry between is ill-formed: ",
        b"\x08\x01\x01\x02\xFF\x10\x00\x82\x04\
          \x01\xFF\
          \x08\x01\x01\x02\xFF\x10\x00\x05\x06",
        3,
        b"\x10",
    );
}

fn show_files(rt: &impl Print) {
    reading(rt, b"two entries, 2: ", b"\x01\xFF\x02\xFF\xFF", 2);
    reading(rt, b"two entries, 1: ", b"\x01\xFF\x02\xFF\xFF", 1);
    reading(rt, b"two entries, 3: ", b"\x01\xFF\x02\xFF\xFF", 3);
    reading(rt, b"the second cut short, 2: ", b"\x01\xFF\x02\xFF", 2);
    reading(rt, b"nothing, 0: ", b"", 0);
}

fn main(rt: HostRuntime) {
    show_simple(&rt);
    show_complex(&rt);
    show_complex_pos(&rt);
    show_comparisons(&rt);
    show_refused_actions(&rt);
    show_refused_entries(&rt);
    show_not_judged(&rt);
    show_files(&rt);
    show_contactless(&rt);
    show_tests(&rt);
    show_refused_tests(&rt);
}
