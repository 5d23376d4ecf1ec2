//! The lines of a text and the fields of a line, each as a part of the text that lies where it lay, with its line and
//! column, both from 1, so that whoever reads a field can say where it stands.
//!
//! ```text
//! let mut lines = Lines::new(b"A 12\nB 7\n");
//! let line = lines.next()?;        // b"A 12\n", its number is 1
//! let field = line.field(3, 2)?;   // b"12", of line 1 at column 3
//! ```
//!
//! Start from [`Lines`], an iterator over each [`Line`], and [`Line::field`], which hands out a [`Field`].

#![tactic(auto)]

mod field;
mod line;
mod lines;
mod next_line;

pub use field::Field;
pub use line::Line;
pub use lines::Lines;

#[cfg(test)]
mod tests {
    use super::*;
    use std::test::Fail;

    #[test]
    fn the_last_line_may_lack_its_lf(rt: HostRuntime) -> Result<(), Fail> {
        let mut lines = Lines::new(b"ab\n\nc");
        let parts: [&[u8]; 3] = [b"ab\n", b"\n", b"c"];
        for (k, part) in parts.iter().enumerate() {
            let Some(line) = lines.next() else {
                return Err(Fail::new("no part"));
            };
            assert!(rt; line.bytes() == *part);
            assert!(rt; line.number() == k + 1);
        }
        assert!(rt; lines.next().is_none());
        assert_eq!(rt; lines.taken(), 3);
        Ok(())
    }

    #[test]
    fn a_field_has_all_its_columns_or_is_none(rt: HostRuntime) -> Result<(), Fail> {
        let mut lines = Lines::new(b"A 12\n");
        let Some(line) = lines.next() else {
            return Err(Fail::new("no part"));
        };
        let Some(field) = line.field(3, 2) else {
            return Err(Fail::new("no part"));
        };
        assert!(rt; field.bytes() == b"12".as_slice());
        assert_eq!(rt; field.line(), 1);
        assert_eq!(rt; field.column(), 3);
        assert!(rt; line.field(0, 1).is_none());
        assert!(rt; line.field(3, 3).is_some());
        assert!(rt; line.field(3, 4).is_none());
        assert!(rt; line.field(usize::MAX, usize::MAX).is_none());
        Ok(())
    }
}
