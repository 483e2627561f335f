//! Tables in a requested width, worked out by hand.
use super::printing::{Case, expect_case};
use tabled_size_priority::Choice;

const CASES: &[Case] = &[
    // A text is wrapped, each line in its own colour.
    Case {
        width: Some(6),
        truncate: false,
        keep_words: false,
        priority: Choice::None,
        input: "\u{1b}[31m123456\u{1b}[0m\n",
        table: "+----+\n| \u{1b}[31m12\u{1b}[39m |\n| \u{1b}[31m34\u{1b}[39m |\n| \u{1b}[31m56\u{1b}[0m |\n+----+\n",
    },
    // What does not fit shows as U+FFFD without style.
    Case {
        width: Some(5),
        truncate: false,
        keep_words: false,
        priority: Choice::None,
        input: "\u{1b}[31m😳1\u{1b}[0m\n",
        table: "+---+\n| \u{fffd} |\n| \u{1b}[31m1\u{1b}[0m |\n+---+\n",
    },
    // A text is cut.
    Case {
        width: Some(6),
        truncate: true,
        keep_words: false,
        priority: Choice::None,
        input: "\u{1b}[31m123456\u{1b}[0m\n",
        table: "+----+\n| \u{1b}[31m12\u{1b}[39m |\n+----+\n",
    },
    // Columns that are lacking show as U+FFFD without style.
    Case {
        width: Some(7),
        truncate: true,
        keep_words: false,
        priority: Choice::None,
        input: "\u{1b}[31m😳😳\u{1b}[39m\n",
        table: "+-----+\n| \u{1b}[31m😳\u{1b}[39m\u{fffd} |\n+-----+\n",
    },
    // Words that fit are kept.
    Case {
        width: Some(8),
        truncate: false,
        keep_words: true,
        priority: Choice::None,
        input: "111 234 1\n",
        table: "+------+\n| 111  |\n| 234  |\n| 1    |\n+------+\n",
    },
    // Paddings stay where no column is left.
    Case {
        width: Some(0),
        truncate: false,
        keep_words: false,
        priority: Choice::None,
        input: "ab\tc\n",
        table: "+--+--+\n|  |  |\n+--+--+\n",
    },
    // Columns shrink in turns.
    Case {
        width: Some(11),
        truncate: false,
        keep_words: false,
        priority: Choice::None,
        input: "aaaa\tbb\n",
        table: "+-----+---+\n| aaa | b |\n| a   | b |\n+-----+---+\n",
    },
    // The widest column shrinks.
    Case {
        width: Some(11),
        truncate: false,
        keep_words: false,
        priority: Choice::MaxLeft,
        input: "aaaa\tbb\n",
        table: "+----+----+\n| aa | bb |\n| aa |    |\n+----+----+\n",
    },
    // A style that ended in a line before stays ended.
    Case {
        width: Some(6),
        truncate: false,
        keep_words: false,
        priority: Choice::None,
        input: "\u{1b}[31m12\u{1b}[0m34\n",
        table: "+----+\n| \u{1b}[31m12\u{1b}[0m |\n| 34 |\n+----+\n",
    },
    // A width that the table doesn't pass changes nothing.
    Case {
        width: Some(6),
        truncate: false,
        keep_words: false,
        priority: Choice::None,
        input: "ab\n",
        table: "+----+\n| ab |\n+----+\n",
    },
    // A table never gets wider.
    Case {
        width: Some(100),
        truncate: false,
        keep_words: false,
        priority: Choice::None,
        input: "ab\n",
        table: "+----+\n| ab |\n+----+\n",
    },
    // The same where it would be cut.
    Case {
        width: Some(100),
        truncate: true,
        keep_words: false,
        priority: Choice::MinRight,
        input: "ab\n",
        table: "+----+\n| ab |\n+----+\n",
    },
    // Without a width the other options have no effect.
    Case {
        width: None,
        truncate: true,
        keep_words: true,
        priority: Choice::Right,
        input: "aaaa\tbb\n",
        table: "+------+----+\n| aaaa | bb |\n+------+----+\n",
    },
    // An input without rows has no table.
    Case {
        width: Some(1),
        truncate: false,
        keep_words: false,
        priority: Choice::None,
        input: "",
        table: "",
    },
];

#[test]
fn keeps_to_the_width(rt: HostRuntime) {
    for case in CASES {
        expect_case(&rt, rt.alloc(), case);
    }
}
