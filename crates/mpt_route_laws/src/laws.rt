//! What is true of every platform's routes.

ghost use Rattle.std.specs.Prelude.{◌≡◌, ◌<◌, ℕ, List, Some, slice_get, All};
ghost use Rattle.mpt_spec.specs.declared.entry.IntEntry.{IntEntry};
ghost use Rattle.mpt_spec.specs.declared.tables.Tables.{Tables};
ghost use Rattle.mpt_spec.specs.Canonical.{raised_of};
ghost use Rattle.mpt_route.specs.declared.platform.Platform.{Platform};
ghost use Rattle.mpt_route.specs.Platform.{platform_of};
ghost use Rattle.mpt_route.specs.declared.route.Route.{Route};
ghost use Rattle.mpt_route.specs.declared.route.Answer.{Answer};
ghost use Rattle.mpt_route.specs.declared.route.Answer.TheVariants as answer;
ghost use Rattle.mpt_route.specs.Routes.{routes_of};
ghost use Rattle.mpt_route.specs.Reasons.{AreRoutesOf};
ghost use Rattle.mpt_route_laws.specs.Rows.{IfRouted, IsOnPin, IsRowOf};

/// The routes are an answer to each entry: its row where no reason holds, else the first reason that
/// does.
pub fn routes_tell_reasons()
    ensures { (p : Platform) (elcr : ℕ) → AreRoutesOf p elcr (routes_of p elcr) }
{}

/// No other list of answers does.
pub fn routes_are_one()
    ensures { (p : Platform) (elcr : ℕ) (answers : List Answer) → AreRoutesOf p elcr answers → answers ≡ routes_of p elcr }
{}

/// Each routed answer is on one of four I/O APICs and one of 24 pins.
pub fn answers_are_on_pins()
    ensures { (p : Platform) (elcr : ℕ) → All (IfRouted IsOnPin) (routes_of p elcr) }
{}

/// No two routed answers are on one pin.
pub fn pins_are_taken_once()
    ensures { (p : Platform) (elcr i j : ℕ) (r s : Route) → i < j → slice_get (routes_of p elcr) i ≡ Some (answer.Routed r) → slice_get (routes_of p elcr) j ≡ Some (answer.Routed s) → r.io ≡ s.io → r.pin ≡ s.pin → ⊥ }
{}

/// A routed answer says what its entry asks for: I/O APIC, pin, vector, delivery mode, polarity, trigger
/// mode and destination.
pub fn rows_say_what_the_entry_asks()
    ensures { (p : Platform) (elcr i : ℕ) (e : IntEntry) (r : Route) → slice_get p.ints i ≡ Some e → slice_get (routes_of p elcr) i ≡ Some (answer.Routed r) → IsRowOf p elcr i e r }
{}

/// Raised tables have the platform of the tables.
pub fn raised_tables_have_the_platform()
    ensures { (tables : Tables) → platform_of (raised_of tables) ≡ platform_of tables }
{}
