//! Words that are no form, files that aren't there, and calls of shelf and sink that fail one by one.

use crate::boots::{Case, IMAGE, NOTHING, SCRIPT, USAGE};

/// An image, a script, and an image whose tables are refused are there.
pub fn words() -> &'static [Case] {
    WORDS
}

const WORDS: &[Case] = &[
    Case {
        words: &["trace"],
        status: 2,
        text: USAGE,
    },
    Case {
        words: &["trace", IMAGE],
        status: 2,
        text: USAGE,
    },
    Case {
        words: &["trace", IMAGE, SCRIPT, SCRIPT],
        status: 2,
        text: USAGE,
    },
    Case {
        words: &["Trace", IMAGE, SCRIPT],
        status: 2,
        text: USAGE,
    },
    Case {
        words: &["boot"],
        status: 2,
        text: USAGE,
    },
    Case {
        words: &["boot", SCRIPT],
        status: 2,
        text: USAGE,
    },
    Case {
        words: &["boot", IMAGE, SCRIPT, SCRIPT],
        status: 2,
        text: USAGE,
    },
    Case {
        words: &["boot ", IMAGE, SCRIPT],
        status: 2,
        text: USAGE,
    },
    Case {
        words: &["replay", IMAGE, SCRIPT],
        status: 2,
        text: USAGE,
    },
    Case {
        words: &["replay", IMAGE, SCRIPT, SCRIPT, SCRIPT],
        status: 2,
        text: USAGE,
    },
    Case {
        words: &["replay", IMAGE, SCRIPT, SCRIPT],
        status: 8,
        text: b"mptab: report line 1 Form\n",
    },
    Case {
        words: &["replay", IMAGE, IMAGE, "x"],
        status: 8,
        text: b"mptab: script not toml\n",
    },
    Case {
        words: &["trace", IMAGE, "x"],
        status: 3,
        text: b"mptab: no file x\n",
    },
    Case {
        words: &["boot", IMAGE, ""],
        status: 3,
        text: b"mptab: no file \n",
    },
    Case {
        words: &["trace", "x", SCRIPT],
        status: 3,
        text: b"mptab: no file x\n",
    },
    Case {
        words: &["boot", "x", "y"],
        status: 3,
        text: b"mptab: no file x\n",
    },
    Case {
        words: &["trace", SCRIPT, "x"],
        status: 6,
        text: b"mptab: no floating pointer\n",
    },
    Case {
        words: &["boot", SCRIPT, IMAGE],
        status: 6,
        text: b"mptab: no floating pointer\n",
    },
    Case {
        words: &["trace", "bad", "x"],
        status: 7,
        text: b"mptab: fault 2 BadDefault at 0000040B\n",
    },
    Case {
        words: &["boot", "bad", SCRIPT],
        status: 7,
        text: b"mptab: fault 2 BadDefault at 0000040B\n",
    },
    Case {
        words: &["trace", IMAGE, IMAGE],
        status: 8,
        text: b"mptab: script not toml\n",
    },
    Case {
        words: &["trace", IMAGE, SCRIPT],
        status: 0,
        text: NOTHING,
    },
    Case {
        words: &["boot", IMAGE, SCRIPT],
        status: 0,
        text: NOTHING,
    },
];
