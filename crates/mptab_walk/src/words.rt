//! The words of a command line, and the form that they are.

ghost use Rattle.std.specs.Prelude.{◌≡◌, ◌≢◌, ◌∷◌, [], codes, MatchOption, IsTrue, false};
ghost use Rattle.mptab_walk.specs.Forms.{IsForm, IsAny, form_of, form_of_tables, file_of_tables, name_of, named_of};
ghost use Rattle.mptab_walk.specs.Walk.{IsNoForm, texts_of};

use crate::number::drill_number;
use mpt_answers::read_elcr;

/// The listed forms, with the names of their files as they stand.
#[derive(Clone, Copy)]
pub enum Command<'a> {
    /// One that needs no threads.
    Still(StillCommand<'a>),
    /// `boot IMAGE SCRIPT`
    Boot(BoardFiles<'a>),
}

/// The forms that need no threads.
#[derive(Clone, Copy)]
pub enum StillCommand<'a> {
    /// One over tables.
    OfTables(TablesCommand<'a>),
    /// `trace IMAGE SCRIPT`
    Trace(BoardFiles<'a>),
    /// `drill N`
    Drill(u16),
    /// `replay IMAGE SCRIPT REPORT`
    Replay(ReplayFiles<'a>),
    /// `madtcmp IMAGE ELCR MADT`
    Madtcmp(MadtFiles<'a>),
    /// `pircmp IMAGE TABLE`
    Pircmp(PirFiles<'a>),
    /// `pic IMAGE SCRIPT CALLS`
    Pic(PicFiles<'a>),
}

/// The files that describe a board.
#[derive(Clone, Copy)]
pub struct BoardFiles<'a> {
    pub image: &'a str,
    pub script: &'a str,
}

/// The files that describe a board, and a report.
#[derive(Clone, Copy)]
pub struct ReplayFiles<'a> {
    pub board: BoardFiles<'a>,
    pub report: &'a str,
}

/// An image, an ELCR, and the file of a MADT.
#[derive(Clone, Copy)]
pub struct MadtFiles<'a> {
    pub image: &'a str,
    pub elcr: u16,
    pub madt: &'a str,
}

/// An image, and the file of a PCI IRQ routing table.
#[derive(Clone, Copy)]
pub struct PirFiles<'a> {
    pub image: &'a str,
    pub table: &'a str,
}

/// The files that describe a board, and calls of the pair of 8259A.
#[derive(Clone, Copy)]
pub struct PicFiles<'a> {
    pub board: BoardFiles<'a>,
    pub calls: &'a str,
}

/// The forms over tables.
#[derive(Clone, Copy)]
pub enum TablesCommand<'a> {
    /// `show IMAGE`
    Show(&'a str),
    /// `audit IMAGE`
    Audit(&'a str),
    /// `canon IMAGE`
    Canon(&'a str),
    /// `raise IMAGE`
    Raise(&'a str),
    /// `madt IMAGE ELCR`
    Madt(&'a str, u16),
    /// `pirmake IMAGE`
    Pirmake(&'a str),
    /// `build LISTING`
    Build(&'a str),
    /// `route IMAGE ELCR`
    Route(&'a str, u16),
}

/// The form that the words are, if they are one.
#[tactic(auto, using(crate::proofs::AnswerLemmas::no_words, crate::proofs::AnswerLemmas::many_words))]
pub fn command_of(words: &[String]) -> Option<Command>
    ensures { MatchOption result (IsNoForm IsAny (texts_of words.now))
        (λ command. IsForm (form_of command) (texts_of words.now)) }
{
    match words {
        [word, name] => of_two_words(word.as_str(), name.as_str()),
        [word, name, third] => of_three_words(word.as_str(), name.as_str(), third.as_str()),
        [word, image, second, third] => of_four_words(
            word.as_str(),
            image.as_str(),
            second.as_str(),
            third.as_str(),
        ),
        _ => None,
    }
}

// whether the word is this one; a call of it has fewer steps to prove than a comparison where it stands
fn is(word: &str, name: &str) -> bool
    ensures same { IsTrue result → word.now ≡ name.now }
    ensures other { result ≡ false → word.now ≢ name.now }
{
    word == name
}

// a command over one file, or a drill
fn of_two_words<'a>(word: &str, name: &'a str) -> Option<Command<'a>>
    ensures { MatchOption result (IsNoForm IsAny (word.now ∷ name.now ∷ []))
        (λ command. IsForm (form_of command) (word.now ∷ name.now ∷ [])) }
{
    if is(word, "drill") {
        return of_number(name);
    }
    match of_one_file(word, name) {
        Some(command) => Some(Command::Still(StillCommand::OfTables(command))),
        None => None,
    }
}

// the drill of the number that the word says
fn of_number<'a>(word: &str) -> Option<Command<'a>>
    ensures { MatchOption result (IsNoForm IsAny (codes "drill" ∷ word.now ∷ []))
        (λ command. IsForm (form_of command) (codes "drill" ∷ word.now ∷ [])) }
{
    match drill_number(word) {
        Some(n) => Some(Command::Still(StillCommand::Drill(n))),
        None => None,
    }
}

// a command over the tables of one file
fn of_one_file<'a>(word: &str, name: &'a str) -> Option<TablesCommand<'a>>
    requires { word.now ≢ codes "drill" }
    ensures { MatchOption result (IsNoForm IsAny (word.now ∷ name.now ∷ []))
        (λ command. IsForm (form_of_tables command) (word.now ∷ name.now ∷ [])) }
{
    if is(word, "show") {
        Some(TablesCommand::Show(name))
    } else if is(word, "audit") {
        Some(TablesCommand::Audit(name))
    } else if is(word, "canon") {
        Some(TablesCommand::Canon(name))
    } else if is(word, "raise") {
        Some(TablesCommand::Raise(name))
    } else if is(word, "pirmake") {
        Some(TablesCommand::Pirmake(name))
    } else if is(word, "build") {
        Some(TablesCommand::Build(name))
    } else {
        None
    }
}

// a command over an image and an ELCR, or over two files
fn of_three_words<'a>(word: &str, name: &'a str, third: &'a str) -> Option<Command<'a>>
    ensures { MatchOption result (IsNoForm IsAny (word.now ∷ name.now ∷ third.now ∷ []))
        (λ command. IsForm (form_of command) (word.now ∷ name.now ∷ third.now ∷ [])) }
{
    if is(word, "route") {
        of_route(name, third)
    } else if is(word, "madt") {
        of_madt(name, third)
    } else {
        of_two_files(word, name, third)
    }
}

// the routes of an image under the ELCR that the word says
fn of_route<'a>(name: &'a str, elcr: &str) -> Option<Command<'a>>
    ensures { MatchOption result (IsNoForm IsAny (codes "route" ∷ name.now ∷ elcr.now ∷ []))
        (λ command. IsForm (form_of command) (codes "route" ∷ name.now ∷ elcr.now ∷ [])) }
{
    match read_elcr(elcr) {
        Some(number) => Some(Command::Still(StillCommand::OfTables(TablesCommand::Route(
            name, number,
        )))),
        None => None,
    }
}

// the MADT of an image under the ELCR that the word says
fn of_madt<'a>(name: &'a str, elcr: &str) -> Option<Command<'a>>
    ensures { MatchOption result (IsNoForm IsAny (codes "madt" ∷ name.now ∷ elcr.now ∷ []))
        (λ command. IsForm (form_of command) (codes "madt" ∷ name.now ∷ elcr.now ∷ [])) }
{
    match read_elcr(elcr) {
        Some(number) => Some(Command::Still(StillCommand::OfTables(TablesCommand::Madt(
            name, number,
        )))),
        None => None,
    }
}

// a command over an image and a second file
fn of_two_files<'a>(word: &str, image: &'a str, second: &'a str) -> Option<Command<'a>>
    requires route { word.now ≢ codes "route" }
    requires madt { word.now ≢ codes "madt" }
    ensures { MatchOption result (IsNoForm IsAny (word.now ∷ image.now ∷ second.now ∷ []))
        (λ command. IsForm (form_of command) (word.now ∷ image.now ∷ second.now ∷ [])) }
{
    if is(word, "trace") {
        let script = second;
        Some(Command::Still(StillCommand::Trace(BoardFiles { image, script })))
    } else if is(word, "boot") {
        let script = second;
        Some(Command::Boot(BoardFiles { image, script }))
    } else if is(word, "pircmp") {
        let table = second;
        Some(Command::Still(StillCommand::Pircmp(PirFiles { image, table })))
    } else {
        None
    }
}

// a command over an image, an ELCR and a file, or over three files
fn of_four_words<'a>(
    word: &str,
    image: &'a str,
    second: &'a str,
    third: &'a str,
) -> Option<Command<'a>>
    ensures { MatchOption result (IsNoForm IsAny (word.now ∷ image.now ∷ second.now ∷ third.now ∷ []))
        (λ command. IsForm (form_of command) (word.now ∷ image.now ∷ second.now ∷ third.now ∷ [])) }
{
    if is(word, "madtcmp") {
        of_madtcmp(image, second, third)
    } else {
        of_three_files(word, image, second, third)
    }
}

// the comparison of an image, under the ELCR that the word says, with a MADT
fn of_madtcmp<'a>(image: &'a str, elcr: &str, madt: &'a str) -> Option<Command<'a>>
    ensures { MatchOption result (IsNoForm IsAny (codes "madtcmp" ∷ image.now ∷ elcr.now ∷ madt.now ∷ []))
        (λ command. IsForm (form_of command) (codes "madtcmp" ∷ image.now ∷ elcr.now ∷ madt.now ∷ [])) }
{
    match read_elcr(elcr) {
        Some(elcr) => Some(Command::Still(StillCommand::Madtcmp(MadtFiles { image, elcr, madt }))),
        None => None,
    }
}

// a command over an image, a script and a third file
fn of_three_files<'a>(
    word: &str,
    image: &'a str,
    script: &'a str,
    third: &'a str,
) -> Option<Command<'a>>
    requires { word.now ≢ codes "madtcmp" }
    ensures { MatchOption result (IsNoForm IsAny (word.now ∷ image.now ∷ script.now ∷ third.now ∷ []))
        (λ command. IsForm (form_of command) (word.now ∷ image.now ∷ script.now ∷ third.now ∷ [])) }
{
    let board = BoardFiles { image, script };
    if is(word, "replay") {
        let report = third;
        Some(Command::Still(StillCommand::Replay(ReplayFiles { board, report })))
    } else if is(word, "pic") {
        let calls = third;
        Some(Command::Still(StillCommand::Pic(PicFiles { board, calls })))
    } else {
        None
    }
}

/// A file by what it is to be, and its name.
#[derive(Clone, Copy)]
pub(crate) enum Source<'a> {
    /// An image.
    Image(&'a str),
    /// A listing.
    Listing(&'a str),
}

/// The file that gives the form its tables.
pub(crate) fn source_named<'a>(command: TablesCommand<'a>) -> Source<'a>
    ensures { named_of result ≡ file_of_tables command.entry }
{
    match command {
        TablesCommand::Show(image)
        | TablesCommand::Audit(image)
        | TablesCommand::Canon(image)
        | TablesCommand::Raise(image)
        | TablesCommand::Madt(image, _)
        | TablesCommand::Pirmake(image)
        | TablesCommand::Route(image, _) => Source::Image(image),
        TablesCommand::Build(listing) => Source::Listing(listing),
    }
}

/// The name of the file.
pub(crate) fn name_in<'a>(source: Source<'a>) -> &'a str
    ensures { result.now ≡ name_of (named_of source.entry) }
{
    match source {
        Source::Image(name) => name,
        Source::Listing(name) => name,
    }
}
