// Lines for text, fields, orders and keys, and their answers. tools/vectors.py writes both. HEX is bytes, two digits
// each, and `-` where there are none.
//
//   t HEX                    how many bytes are valid text:       N
//   s LIMIT AT HEX           the string at a position:            next N, or refused QUESTION POSITION
//   x LIMIT AT HEX           its text:                            HEX
//   f BASE AT                the offset of a position:            N
//   n WIDTH AT HEX           the number of 1, 4 or 8 bytes there: value V N, or refused ..
//   c COUNT LEAST AT HEX     the test of a count read up to AT:   value V N, or refused ..
//   g KNOWN AT HEX           the tag there:                       value V N, or refused ..
//   o HEX HEX                the order of two byte strings:       less N, equal N, greater N, where N bytes agree
//   b HEX HEX                the order of two block keys:         less N .., left refused .., right refused ..
//   k HEX HEX                the order of two connector keys:     likewise
use super::lines::{bytes, number, position};
use order::Compared;
use state::{Field, Refusal, Step};
use state_key_order::{KeyRefusal, KeysCompared};
use std::cmp::Ordering;
use std::fmt::Display;
use std::io;

fn print_step(rt: &impl Print, step: Step) -> io::Result<()> {
    match step {
        Ok(next) => println!(rt; "next {next}"),
        Err(refusal) => println!(rt; "refused {refusal}"),
    }
}

fn print_number<N: Display + Drop>(
    rt: &impl Print,
    read: Result<(N, usize), Refusal<usize>>,
) -> io::Result<()> {
    match read {
        Ok((value, next)) => println!(rt; "value {value} {next}"),
        Err(refusal) => println!(rt; "refused {refusal}"),
    }
}

// The words here and in `print_keys` are this protocol's.
fn print_compared(rt: &impl Print, compared: Compared) -> io::Result<()> {
    let order = match compared.order {
        Ordering::Less => "less",
        Ordering::Equal => "equal",
        Ordering::Greater => "greater",
    };
    let agree = compared.agree;
    println!(rt; "{order} {agree}")
}

fn print_keys(rt: &impl Print, keys: KeysCompared) -> io::Result<()> {
    match keys {
        Ok(compared) => print_compared(rt, compared),
        Err(KeyRefusal::Left(refusal)) => println!(rt; "left refused {refusal}"),
        Err(KeyRefusal::Right(refusal)) => println!(rt; "right refused {refusal}"),
    }
}

fn print_hex(rt: &impl Print, s: &[u8]) -> io::Result<()> {
    if s.is_empty() {
        print!(rt; "-")?;
    }
    for byte in s {
        print!(rt; "{byte:02x}")?;
    }
    println!(rt)
}

// A function for each letter. The printer, the line and the room go to each: a struct of the three would be taken apart in each.
fn text_line(rt: &impl Print, line: &[u8], room: &mut [u8]) -> io::Result<()> {
    let valid = text::valid_up_to(bytes(line, 1, room));
    println!(rt; "{valid}")
}

fn string_line(rt: &impl Print, line: &[u8], room: &mut [u8]) -> io::Result<()> {
    let s = bytes(line, 3, room);
    print_step(
        rt,
        state_wire::string_bounded(s, position(line, 2), position(line, 1)),
    )
}

fn string_text_line(rt: &impl Print, line: &[u8], room: &mut [u8]) -> io::Result<()> {
    let s = bytes(line, 3, room);
    print_hex(
        rt,
        state_wire::string_text(s, position(line, 2), position(line, 1)),
    )
}

fn offset_line(rt: &impl Print, line: &[u8]) -> io::Result<()> {
    let offset = state_wire::offset(number(line, 1), position(line, 2));
    println!(rt; "{offset}")
}

// The width of a number is a constant of its reader: a line's is one of three.
fn read_number(s: &[u8], at: usize, width: u64) -> Field {
    match width {
        1 => state_wire::read_number::<1>(s, at),
        4 => state_wire::read_number::<4>(s, at),
        _ => state_wire::read_number::<8>(s, at),
    }
}

fn number_line(rt: &impl Print, line: &[u8], room: &mut [u8]) -> io::Result<()> {
    let s = bytes(line, 3, room);
    print_number(rt, read_number(s, position(line, 2), number(line, 1)))
}

fn count_line(rt: &impl Print, line: &[u8], room: &mut [u8]) -> io::Result<()> {
    let s = bytes(line, 4, room);
    let (count, least) = (number(line, 1), number(line, 2));
    print_number(
        rt,
        state_wire::bounded_count(s, position(line, 3), count, least),
    )
}

fn tag_line(rt: &impl Print, line: &[u8], room: &mut [u8]) -> io::Result<()> {
    let s = bytes(line, 3, room);
    // A tag is a byte: of a number above 255 the last byte counts.
    let known = (number(line, 1) % 256) as u8;
    print_number(rt, state_wire::read_tag(s, position(line, 2), known))
}

// What two HEX come to.
fn compare(
    rt: &impl Print,
    op: u8,
    line: &[u8],
    room: &mut [u8],
    other: &mut [u8],
) -> io::Result<()> {
    let left = bytes(line, 1, room);
    let right = bytes(line, 2, other);
    match op {
        b'o' => print_compared(rt, order::compare(left, right)),
        b'b' => print_keys(rt, state_key_order::compare_block_keys(left, 0, right, 0)),
        _ => print_keys(
            rt,
            state_key_order::compare_connector_keys(left, 0, right, 0),
        ),
    }
}

// The answer to a line, by its letter, which word 0 begins with. What is lent goes on behind the line: a line of too few words takes the next one's.
pub(crate) fn answer(
    rt: &impl Print,
    op: u8,
    line: &[u8],
    room: &mut [u8],
    other: &mut [u8],
) -> io::Result<()> {
    match op {
        b't' => text_line(rt, line, room),
        b's' => string_line(rt, line, room),
        b'x' => string_text_line(rt, line, room),
        b'f' => offset_line(rt, line),
        b'n' => number_line(rt, line, room),
        b'c' => count_line(rt, line, room),
        b'g' => tag_line(rt, line, room),
        _ => compare(rt, op, line, room, other),
    }
}
