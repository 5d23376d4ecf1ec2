//! Lines with a fault of each kind, at both ends of each field.

use super::*;

const LENGTH: usize = 1204;

/// A request of minute 7 with zeros, and one more byte behind it.
fn request() -> [u8; LENGTH + 1] {
    let mut line = [b' '; LENGTH + 1];
    line[0] = b'Q';
    line[2] = b'7';
    for figure in line[3..LENGTH - 1].chunks_exact_mut(20) {
        figure.copy_from_slice(b"        0.0000000000");
    }
    line[LENGTH - 1] = b'\n';
    line
}

/// The number and the column of a line's fault.
fn fault(line: &[u8]) -> Option<(u8, usize)> {
    let fault = read_request_line(line).err()?;
    Some((fault.refusal.number(), fault.column))
}

/// The fault of the request with one byte changed.
fn changed(at: usize, byte: u8) -> Option<(u8, usize)> {
    let mut line = request();
    if at < line.len() {
        line[at] = byte;
    }
    fault(&line[0..LENGTH])
}

#[test]
fn a_request_is_read(rt: HostRuntime) {
    let mut line = request();
    line[1] = b'1';
    line[22] = b'5';
    line[1190] = b'-';
    line[1202] = b'2';
    let Ok(request) = read_request_line(&line[0..LENGTH]) else {
        panic!(rt);
    };
    assert_eq!(rt; request.minute(), 17);
    assert_eq!(rt; request.upward().first().copied(), Some(5));
    assert_eq!(rt; request.upward().len(), 30);
    assert_eq!(rt; request.downward().len(), 30);
    assert_eq!(rt; request.downward().last().copied(), Some(-2));
}

#[test]
fn letter_and_length_come_first(rt: HostRuntime) {
    let line = request();
    assert_eq!(rt; fault(&line[0..LENGTH]), None);
    assert_eq!(rt; fault(&[]), Some((18, 1)));
    assert_eq!(rt; changed(0, b'q'), Some((18, 1)));
    assert_eq!(rt; changed(LENGTH - 1, b' '), Some((18, 1)));
    assert_eq!(rt; fault(&line[0..LENGTH - 1]), Some((18, 1)));
    assert_eq!(rt; fault(&line), Some((18, 1)));
}

#[test]
fn the_first_field_out_of_form_is_the_fault(rt: HostRuntime) {
    assert_eq!(rt; changed(1, b'0'), Some((17, 2)));
    assert_eq!(rt; changed(1, b'9'), None);
    assert_eq!(rt; changed(2, b' '), Some((17, 2)));
    assert_eq!(rt; changed(3, b'0'), Some((17, 4)));
    assert_eq!(rt; changed(22, b' '), Some((17, 4)));
    assert_eq!(rt; changed(23, b'+'), Some((17, 24)));
    assert_eq!(rt; changed(603, b'x'), Some((17, 604)));
    assert_eq!(rt; changed(1183, b'x'), Some((17, 1184)));
    assert_eq!(rt; changed(1202, b'x'), Some((17, 1184)));
    let mut line = request();
    line[1202] = b'x';
    line[2] = b'x';
    assert_eq!(rt; fault(&line[0..LENGTH]), Some((17, 2)));
    assert_eq!(rt; fault(&line[0..LENGTH - 1]), Some((18, 1)));
}
