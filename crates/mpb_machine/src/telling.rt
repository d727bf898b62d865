//! Outcomes of what the two APICs answer.

ghost use Rattle.std.specs.Prelude.{◌≡◌, ◌≤◌, [], ◌∷◌, length};
ghost use Rattle.std.specs.List.{list_any};
ghost use Rattle.mpb_spec.specs.declared.entry.What.TheVariants.{Pins as pins};
ghost use Rattle.mpb_spec.specs.Outcomes.{only, found_alive, what_taken, what_ended, what_effect};
ghost use Rattle.mpb_spec.specs.Steps.{is_accepted, was_accepted, kind_of, aim_of};

use mpb_spec::{
    Aim, Collected, Delivery, Destination, ENTRY_TO_ALL, Effect, Life, Message, Outcome, Outcomes,
    What,
};

/// One outcome.
pub fn tell(at: u8, what: What) -> Outcomes
    ensures { result.items ≡ record { at = at; what = what } ∷ [] }
{
    let mut outcomes = Outcomes::new();
    outcomes.push(Outcome { at, what });
    outcomes
}

/// How a processor of this life is found.
pub fn of_life(life: Life) -> What
    ensures { result ≡ found_alive life }
{
    match life {
        Life::Asleep => What::Asleep,
        Life::Waiting => What::Waiting,
        Life::Started(page) => What::Runs(page),
        Life::First => What::RunsFirst,
    }
}

/// What came of a take.
pub fn of_take(vector: Option<u8>) -> What
    ensures { result ≡ what_taken vector }
{
    match vector {
        Some(vector) => What::Taken(vector),
        None => What::Nothing,
    }
}

/// What came of an end of interrupt.
pub fn of_eoi(ended: Option<(u8, bool)>) -> What
    ensures { result ≡ what_ended ended }
{
    match ended {
        Some((vector, level)) => What::Ended(vector, level),
        None => What::Nothing,
    }
}

/// What happened to a pending send.
pub fn of_effect(effect: Effect) -> What
    ensures { result ≡ what_effect effect }
{
    match effect {
        Effect::Plain => What::Plain,
        Effect::Due => What::Due,
        Effect::Withdrawn => What::Withdrawn,
    }
}

/// What a collection did.
pub fn of_collected(collected: Collected) -> What
    ensures { result ≡ pins collected.due collected.joined }
{
    What::Pins(collected.due, collected.joined)
}

fn is_accepted(what: What) -> bool
    ensures { result ≡ is_accepted what }
{
    matches!(what, What::Set | What::Merged)
}

/// Whether a target accepted the message.
pub fn was_accepted(outcomes: &[Outcome]) -> bool
    ensures { result ≡ was_accepted outcomes.now }
{
    match outcomes {
        [] => false,
        [outcome, rest @ ..] => is_accepted(outcome.what) || was_accepted(rest),
    }
}

/// What a message delivers, none where nobody hears it.
pub fn kind_of(message: &Message) -> Option<Delivery>
    ensures { result ≡ kind_of message.now }
{
    match message.mode {
        0 | 1 => Some(Delivery::Fixed(message.vector, message.level)),
        2 | 7 => Some(Delivery::Pass),
        4 => Some(Delivery::Nmi),
        _ => None,
    }
}

/// Where it goes: a physical destination of 15 is all, and mode 001 is of lowest priority.
pub fn aim_of(message: &Message) -> Aim
    ensures { result ≡ aim_of message.now }
{
    Aim {
        at: if message.logical {
            Destination::Logical(message.dest)
        } else {
            Destination::Physical(message.dest, ENTRY_TO_ALL)
        },
        lowest: message.mode == 1,
    }
}
