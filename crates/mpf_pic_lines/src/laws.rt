//! Laws of texts of calls. Each is the contract of a function that does nothing.

ghost use Rattle.std.specs.Prelude.{ℕ, List};
ghost use Rattle.mpf_pic_lines.specs.Lines.{IsJudged, HasOneReading};

/// A text is that of a list of calls, or has a first bad line.
pub fn texts_of_calls_are_judged()
    ensures { (text : List ℕ) → IsJudged text }
{}

/// It is that of one list alone, or has one first bad line, and never both.
pub fn texts_of_calls_have_one_reading()
    ensures { (text : List ℕ) → HasOneReading text }
{}
