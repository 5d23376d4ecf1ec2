//! Numbered rows at the ends of their fields, and lines that are none.

use super::*;
use count_text::Width;

/// A row of two figures.
const ROW: [u8; 45] = *b"M  7       12.5000000000       -0.0000000001\n";

/// The number and the column of a line's fault.
fn fault(line: &[u8]) -> Option<(u8, usize)> {
    let fault = read_numbered_row(line, Width::THREE, &mut [0, 0]).err()?;
    Some((fault.refusal.number(), fault.column))
}

/// The fault of the row with one byte changed.
fn changed(at: usize, byte: u8) -> Option<(u8, usize)> {
    let mut line = ROW;
    if at < line.len() {
        line[at] = byte;
    }
    fault(&line)
}

/// The refusal of a row of one figure in a buffer of this length, if the buffer is left as it was.
fn refused(number: u64, figure: i64, length: usize) -> Option<u8> {
    let mut line = [b'.'; 25];
    let length = length.min(line.len());
    match write_numbered_row(b'M', number, Width::THREE, &[figure], &mut line[0..length]) {
        Ok(()) => None,
        Err(_) if line != [b'.'; 25] => None,
        Err(why) => Some(why.number()),
    }
}

#[test]
fn a_row_is_written_and_read(rt: HostRuntime) {
    let mut line = [b'.'; 47];
    let figures = [125_000_000_000, -1];
    assert!(rt; write_numbered_row(b'M', 7, Width::THREE, &figures, &mut line).is_ok());
    assert!(rt; &line == b"M  7       12.5000000000       -0.0000000001\n..");
    let mut places = [0, 0];
    assert_eq!(rt;
        read_numbered_row(&line[0..45], Width::THREE, &mut places),
        Ok(7)
    );
    assert!(rt; places == figures);
}

#[test]
fn too_wide_comes_before_too_short(rt: HostRuntime) {
    const WIDE: i64 = 1_000_000_000_000_000_000;
    assert_eq!(rt; refused(999, WIDE - 1, 25), None);
    assert_eq!(rt; refused(1000, 0, 0), Some(11));
    assert_eq!(rt; refused(999, -WIDE, 0), Some(11));
    assert_eq!(rt; refused(999, WIDE - 1, 24), Some(16));
}

#[test]
fn the_first_fault_is_told(rt: HostRuntime) {
    let row = ROW;
    assert_eq!(rt; fault(&row), None);
    assert_eq!(rt; fault(&[]), Some((18, 1)));
    assert_eq!(rt; fault(&row[0..44]), Some((18, 1)));
    assert_eq!(rt;
        fault(b"M  7       12.5000000000       -0.0000000001\n\n"),
        Some((18, 1))
    );
    assert_eq!(rt; changed(44, b' '), Some((18, 1)));
    assert_eq!(rt; changed(0, b'?'), None);
    assert_eq!(rt; changed(2, b'0'), Some((17, 2)));
    assert_eq!(rt; changed(23, b' '), Some((17, 5)));
    assert_eq!(rt; changed(24, b'+'), Some((17, 25)));
    assert_eq!(rt;
        fault(b"M  x       12.5 00000000       -0.0000000001\n"),
        Some((17, 2))
    );
}

#[test]
fn a_fault_is_told_with_its_column(rt: HostRuntime) {
    let text = format!(in rt.alloc(); "{}", LineFault::not_in_form(25));
    assert!(rt; text.is_ok_and(|text| text.as_str() == "column 25: refused with 17"));
}
