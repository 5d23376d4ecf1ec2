//! Figures in 20 columns: right-justified, ten decimals, no needless zero, a minus right before the digits of a negative one.
//!
//! A figure is an `i64` of units of 10^-10. Its columns hold those strictly between -10^18 and 10^18 units.
//!
//! ```text
//! let mut line = [b'.'; COLUMNS];
//! write_figure(-125_000_000_000, &mut line)?;  // line is b"      -12.5000000000"
//! let units = read_figure(&line)?;             // units is -125_000_000_000
//! ```

#![tactic(auto)]

mod form;
mod read;
mod row;
mod write;

pub use form::COLUMNS;
pub use read::read_figure;
pub use row::{are_writable, read_row, write_row};
pub use write::{is_writable, write_figure};

#[cfg(test)]
mod tests {
    use super::*;
    use quantity::Refusal;

    const WIDEST: i64 = 999_999_999_999_999_999;

    const ROOM: usize = 22;

    // The number of a refusal, or 0.
    fn number<T: Drop>(answer: Result<T, Refusal>) -> u8 {
        match answer {
            Ok(_) => 0,
            Err(why) => why.number(),
        }
    }

    // a figure and its text
    const FIGURES: [(i64, &str); 8] = [
        (0, "        0.0000000000"),
        (1, "        0.0000000001"),
        (-5, "       -0.0000000005"),
        (10_000_000_000, "        1.0000000000"),
        (125_000_000_000, "       12.5000000000"),
        (-125_000_000_000, "      -12.5000000000"),
        (WIDEST, " 99999999.9999999999"),
        (-WIDEST, "-99999999.9999999999"),
    ];

    #[test]
    fn figures_written_and_read(rt: HostRuntime) {
        for (units, text) in FIGURES {
            assert!(rt; is_writable(units), "{}", text);
            let mut line = [b'.'; COLUMNS];
            assert_eq!(rt; number(write_figure(units, &mut line)), 0, "{}", text);
            assert_eq!(rt; &line[..], text.as_bytes());
            assert_eq!(rt; read_figure(&line).ok(), Some(units), "{}", text);
        }
        let mut longer = [b'.'; ROOM];
        assert_eq!(rt; number(write_figure(-5, &mut longer)), 0);
        assert_eq!(rt; &longer, b"       -0.0000000005..");
    }

    // a figure, the length of a buffer, the refusal
    const REFUSED_FIGURES: [(i64, usize, u8); 6] = [
        (0, COLUMNS - 1, 16),
        (WIDEST, 0, 16),
        (WIDEST + 1, COLUMNS, 11),
        (-WIDEST - 1, COLUMNS + 1, 11),
        (WIDEST + 1, COLUMNS - 1, 11),
        (i64::MIN, COLUMNS, 11),
    ];

    #[test]
    fn figures_refused(rt: HostRuntime) {
        for (units, room, refusal) in REFUSED_FIGURES {
            let mut buffer = [b'.'; ROOM];
            assert_eq!(rt;
                number(write_figure(units, &mut buffer[0..room.min(ROOM)])),
                refusal
            );
            assert_eq!(rt; &buffer, &[b'.'; ROOM]);
        }
        assert!(rt; !is_writable(WIDEST + 1));
        assert!(rt; !is_writable(-WIDEST - 1));
    }

    const PAIR: usize = 2 * COLUMNS;

    #[test]
    fn rows_written(rt: HostRuntime) {
        let row = [-5, WIDEST];
        assert!(rt; are_writable(&row));
        let mut line = [b'.'; PAIR + 1];
        assert_eq!(rt; number(write_row(&row, &mut line)), 0);
        assert_eq!(rt; &line, b"       -0.0000000005 99999999.9999999999.");
        let mut places = [0; 2];
        assert!(rt; read_row(&line, &mut places).is_ok());
        assert_eq!(rt; &places, &row);
        assert_eq!(rt; number(write_row(&[], &mut line[0..0])), 0);
    }

    // two figures, the length of a buffer, the refusal
    const REFUSED_ROWS: [([i64; 2], usize, u8); 4] = [
        ([0, 0], PAIR - 1, 16),
        ([0, WIDEST], 0, 16),
        ([0, WIDEST + 1], PAIR, 11),
        ([-WIDEST - 1, 0], PAIR - 1, 11),
    ];

    #[test]
    fn rows_refused(rt: HostRuntime) {
        for (row, room, refusal) in REFUSED_ROWS {
            let mut buffer = [b'.'; PAIR];
            assert_eq!(rt;
                number(write_row(&row, &mut buffer[0..room.min(PAIR)])),
                refusal
            );
            assert_eq!(rt; &buffer, &[b'.'; PAIR]);
        }
        assert!(rt; !are_writable(&[0, WIDEST + 1]));
    }

    // texts that no figure has
    const REFUSED_TEXTS: [&str; 28] = [
        "",
        "                    ",
        "       -0.0000000000",
        "       00.0000000000",
        "       01.0000000000",
        "      -01.0000000000",
        "         .5000000000",
        "        -.5000000000",
        "       +1.0000000000",
        "      - 1.0000000000",
        "      --1.0000000000",
        "-       1.0000000000",
        "\t       1.0000000000",
        "        \t.0000000000",
        "      1 0.0000000000",
        "        1. 000000000",
        "        1.00000 0000",
        "        1.000000000 ",
        "        1.00000000-0",
        "        1,0000000000",
        "        1 0000000000",
        "       1.00000000000",
        "         1.000000000",
        "100000000.0000000000",
        "999999999.9999999999",
        "       1.0000000000",
        "         1.0000000000",
        "-100000000.0000000000",
    ];

    #[test]
    fn texts_refused(rt: HostRuntime) {
        for text in REFUSED_TEXTS {
            assert_eq!(rt; number(read_figure(text.as_bytes())), 17, "{}", text);
        }
    }
}
