//! Boards as tables and a script describe them, and what `trace`, `boot` and `replay` answer to them.

pub mod boards;
pub mod failing;
pub mod levels;
pub mod messages;
pub mod pairs;
pub mod processors;
pub mod programs;
pub mod pulses;
pub mod scripts;
pub mod three_pulses;
pub mod worked;

/// The tables of a row.
pub enum Tables {
    /// Those of the usual board.
    Usual,
    /// Those of a listing.
    Text(&'static [u8]),
    /// Entries, and lines of further base entries, behind a floating pointer with IMCRP clear.
    Listed(&'static [Entry], &'static [u8]),
}

/// Base entries.
pub enum Entry {
    /// An enabled processor of version 10h with the boot bit.
    Boot(u8),
    /// An enabled processor of version 10h.
    Cpu(u8),
    /// Such processors, from one id to another.
    Cpus(u8, u8),
    /// A disabled processor.
    CpuOff(u8),
    /// An enabled I/O APIC.
    Io(u8),
    /// Such I/O APICs, from one id to another.
    Ios(u8, u8),
    /// A disabled I/O APIC.
    IoOff(u8),
}

/// Tables, a script, and what a command answers to them.
pub struct Row {
    /// Why the answer is what it is.
    pub name: &'static str,
    /// The tables of the image.
    pub tables: Tables,
    /// The script's text.
    pub script: &'static [u8],
    /// The call's status.
    pub status: u8,
    /// The whole text; or, where it doesn't end with the line `end`, the first lines of a report.
    pub text: &'static [u8],
}

/// Words, and the status and text that answer them.
pub struct Case {
    /// The words behind the program's name.
    pub words: &'static [&'static str],
    /// The call's status.
    pub status: u8,
    /// The whole text.
    pub text: &'static [u8],
}

/// The name under which an image lies on the shelf.
pub const IMAGE: &str = "board.img";

/// The name under which a script lies on the shelf.
pub const SCRIPT: &str = "boot.toml";

/// The name under which a report lies on the shelf.
pub const REPORT: &str = "report.txt";

/// Both commands.
pub const BOTH: &[&str] = &["trace", "boot"];

/// One processor.
pub const ONE: Tables = Tables::Listed(&[Entry::Boot(0)], b"");

/// What is answered to words that are no form.
pub const USAGE: &[u8] = b"mptab: usage\n";

/// The report of one processor without words.
pub const NOTHING: &[u8] = b"mpboot 1
entries 0
state imcr none
state cpu 00 first tpr 00 irr - isr - tmr -
end
";
