//! Laws of the words, each the contract of a function that does nothing.

ghost use Rattle.std.specs.Prelude.{◌≡◌, ◌↔◌, ℕ, List, Some};
ghost use Rattle.mpt_answers.specs.Elcr.{elcr_of, IsElcrWord};

/// A word is read as a number exactly where it is, in upper case, the four digits of that number.
pub fn elcr_words()
    ensures { (word : List ℕ) (n : ℕ) → (elcr_of word ≡ Some n) ↔ IsElcrWord word n }
{}
