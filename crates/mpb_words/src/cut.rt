//! A text's first part.

ghost use Rattle.std.specs.Prelude.{◌≡◌, ◌∷◌, option_copied};
ghost use Rattle.mpb_words.specs.Words.{parts_of};
ghost use Rattle.mpb_words.specs.Steps.{parts_behind};

// the part before the first space, and what follows the space, where there is one
pub(crate) fn cut(text: &str) -> (&str, Option<&str>)
    ensures { parts_of text.now ≡ result.0.now ∷ parts_behind (option_copied result.1) }
{
    match text.split_once(' ') {
        Some((part, rest)) => (part, Some(rest)),
        None => (text, None),
    }
}
