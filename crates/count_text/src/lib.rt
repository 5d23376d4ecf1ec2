//! Counts in columns: right-justified, blanks before them and no needless zero.
//!
//! A [`Width`] has 1 to 18 columns. In three of them 42 is ` 42`, 0 is `  0`, and 1000 is refused.
//!
//! ```text
//! let mut line = *b"....";
//! write_count(42, Width::THREE, &mut line)?;       // line is b" 42."
//! let n = read_count(&line[0..3], Width::THREE)?;  // n is 42
//! ```
//!
//! Other numbers in columns are made of the same parts: [`write_fixed`] and [`read_fixed`] for digits with zeros before
//! them, [`read_plain`] for digits with no needless zero, [`blanks`] for what stands before a number.

#![tactic(auto)]

mod count;
mod digits;
mod width;

pub use count::{read_count, write_count};
pub use digits::{blanks, read_fixed, read_plain, write_fixed};
pub use width::Width;

#[cfg(test)]
mod tests {
    use super::*;
    use quantity::Refusal;
    use std::test::Fail;

    const ROOM: usize = 20;

    // The number of a refusal, or 0.
    fn number<T: Drop>(answer: Result<T, Refusal>) -> u8 {
        answer.err().map_or(0, |why| why.number())
    }

    fn width(columns: usize) -> Result<Width, Fail> {
        Width::new(columns).ok_or_else(|| Fail::new("no such width"))
    }

    #[test]
    fn widths(rt: HostRuntime) {
        assert!(rt; Width::new(0).is_none());
        assert!(rt; Width::new(1).is_some());
        assert!(rt; Width::new(18).is_some());
        assert!(rt; Width::new(19).is_none());
        assert_eq!(rt; Width::ONE.columns(), 1);
        assert_eq!(rt; Width::TWO.columns(), 2);
        assert_eq!(rt; Width::THREE.columns(), 3);
        assert_eq!(rt; Width::SIX.columns(), 6);
        assert_eq!(rt; Width::NINE.columns(), 9);
        assert!(rt; Width::THREE.holds(999));
        assert!(rt; !Width::THREE.holds(1000));
    }

    // columns, a count, what a buffer of dots holds afterwards, the refusal
    const WRITTEN: [(usize, u64, &str, u8); 16] = [
        (1, 0, "0", 0),
        (1, 9, "9", 0),
        (1, 10, ".", 11),
        (3, 0, "  0", 0),
        (3, 42, " 42", 0),
        (3, 42, " 42....", 0),
        (3, 999, "999", 0),
        (3, 1000, "....", 11),
        (3, 1000, "..", 11),
        (3, 42, "..", 16),
        (3, 42, "", 16),
        (18, 0, "                 0", 0),
        (18, 999_999_999_999_999_999, "999999999999999999.", 0),
        (18, 1_000_000_000_000_000_000, "..................", 11),
        (18, u64::MAX, "..................", 11),
        (18, 0, ".................", 16),
    ];

    #[test]
    fn counts_written(rt: HostRuntime) -> Result<(), Fail> {
        for (columns, n, bytes, refusal) in WRITTEN {
            let mut buffer = [b'.'; ROOM];
            let out = &mut buffer[0..bytes.len().min(ROOM)];
            assert_eq!(rt;
                number(write_count(n, width(columns)?, out)),
                refusal,
                "{}",
                bytes
            );
            assert_eq!(rt; &out[..], bytes.as_bytes());
        }
        Ok(())
    }

    // columns, a text, its count
    const READ: [(usize, &str, u64); 8] = [
        (1, "0", 0),
        (1, "9", 9),
        (3, "  0", 0),
        (3, " 42", 42),
        (3, "100", 100),
        (3, "999", 999),
        (18, "                 0", 0),
        (18, "999999999999999999", 999_999_999_999_999_999),
    ];

    #[test]
    fn counts_read(rt: HostRuntime) -> Result<(), Fail> {
        for (columns, text, n) in READ {
            assert_eq!(rt;
                read_count(text.as_bytes(), width(columns)?).ok(),
                Some(n),
                "{}",
                text
            );
        }
        Ok(())
    }

    // columns, a text that no count has in them
    const REFUSED: [(usize, &str); 17] = [
        (1, ""),
        (1, " "),
        (1, "x"),
        (1, "10"),
        (3, "   "),
        (3, "042"),
        (3, " 00"),
        (3, "4 2"),
        (3, "42 "),
        (3, "\t42"),
        (3, " +4"),
        (3, " -4"),
        (3, "4.2"),
        (3, "42"),
        (3, "  42"),
        (18, "99999999999999999"),
        (18, "9999999999999999999"),
    ];

    #[test]
    fn texts_refused(rt: HostRuntime) -> Result<(), Fail> {
        for (columns, text) in REFUSED {
            assert_eq!(rt;
                number(read_count(text.as_bytes(), width(columns)?)),
                17,
                "{}",
                text
            );
        }
        Ok(())
    }

    // a text, its number with zeros, its number without, its blanks
    const PARTS: [(&str, Option<u64>, Option<u64>, usize); 11] = [
        ("", None, None, 0),
        ("7", Some(7), Some(7), 0),
        ("0", Some(0), Some(0), 0),
        ("007", Some(7), None, 0),
        ("000", Some(0), None, 0),
        (
            "999999999999999999",
            Some(999_999_999_999_999_999),
            Some(999_999_999_999_999_999),
            0,
        ),
        ("9999999999999999999", None, None, 0),
        ("  7", None, None, 2),
        ("   ", None, None, 3),
        ("\t7", None, None, 0),
        ("7 ", None, None, 0),
    ];

    #[test]
    fn parts(rt: HostRuntime) {
        for (text, fixed, plain, before) in PARTS {
            assert_eq!(rt; read_fixed(text.as_bytes()), fixed, "{}", text);
            assert_eq!(rt; read_plain(text.as_bytes()), plain, "{}", text);
            assert_eq!(rt; blanks(text.as_bytes()), before, "{}", text);
        }
        let mut out = [b'.'; 3];
        write_fixed(7, &mut out);
        assert_eq!(rt; &out, b"007");
        write_fixed(1234, &mut out);
        assert_eq!(rt; &out, b"234");
    }
}
