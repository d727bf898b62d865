//! What the least ones are that a fault names, and who is on a board.

ghost use Rattle.std.specs.Prelude.{◌≡◌, ◌==◌, ◌<◌, ◌≤◌, ◌^◌, ◌&&◌, ℕ, List, count_by, None, Some, true, false};
ghost use Rattle.mpt_route.specs.declared.platform.Platform.{Platform as APlatform};
ghost use Rattle.mpt_route.specs.Routes.{routes_of};
ghost use Rattle.mpb_spec.specs.Configs.{IsConfig, IsStartableAt};
ghost use Rattle.mpb_spec.specs.Numbers.{has, AreBytes, IsAscending};
ghost use Rattle.mpb_spec.specs.Plan.{plan_size};
ghost use Rattle.mpb_spec.specs.Room.{room};
ghost use Rattle.mpb_script.specs.Values.{HasScriptValues};
ghost use Rattle.mpb_script.specs.declared.script.Script.{Script as AScript};
ghost use Rattle.mpb_setup.specs.Board.{enabled_ids, is_present, board_ids, board_config_of};
ghost use Rattle.mpb_setup.specs.Faults.{board_fault_of, least_double, names_place, least_absent_place};

/// The id that a fault names as doubled is one that two share, and no lesser id is; where none is named,
/// no two bytes are one.
pub fn doubled_ids_are_least()
    ensures shared { (ids : List ℕ) (d : ℕ) → least_double ids ≡ Some d → 1 < count_by (λ x. x == d) ids }
    ensures least { (ids : List ℕ) (d k : ℕ) → least_double ids ≡ Some d → k < d → count_by (λ x. x == k) ids ≤ 1 }
    ensures none { (ids : List ℕ) (k : ℕ) → least_double ids ≡ None → k < 256 → count_by (λ x. x == k) ids ≤ 1 }
{}

/// The place that a fault names is named by a word, has no I/O APIC, and no lesser such place is named;
/// where none is, the words name only I/O APICs that are there.
pub fn absent_places_are_least()
    ensures absent { (n : ℕ) (ids : List ℕ) (s : AScript) (a : ℕ) → least_absent_place n ids s ≡ Some a → n ≤ a }
    ensures named { (n : ℕ) (ids : List ℕ) (s : AScript) (a : ℕ) → least_absent_place n ids s ≡ Some a → names_place ids s a ≡ true }
    ensures least { (n : ℕ) (ids : List ℕ) (s : AScript) (a b : ℕ) → least_absent_place n ids s ≡ Some a → n ≤ b → b < a → names_place ids s b ≡ false }
    ensures none { (n : ℕ) (ids : List ℕ) (s : AScript) (a : ℕ) → least_absent_place n ids s ≡ None → n ≤ a → a < 4 → names_place ids s a ≡ false }
{}

/// On a board are the processors that are enabled and present, ascending by their ids.
pub fn boards_have_who_is_enabled_and_present()
    ensures ascending { (p : APlatform) (s : AScript) → IsAscending (board_ids p s) }
    ensures members { (p : APlatform) (s : AScript) (id : ℕ) → id < 256 → has id (board_ids p s) ≡ (has id (enabled_ids p) && is_present s.present id) }
{}

/// Where a platform and a script have no fault, their board is a config, startable at the script's page,
/// with fewer than 2^32 ops and pulses and a room below 850,000. The ids are those of bytes.
pub fn boards_without_a_fault_are_configs()
    ensures config { (p : APlatform) (s : AScript) → board_fault_of p s ≡ None → HasScriptValues s → IsConfig (board_config_of p (routes_of p s.elcr) s) }
    ensures startable { (p : APlatform) (s : AScript) → board_fault_of p s ≡ None → HasScriptValues s → IsStartableAt s.page (board_config_of p (routes_of p s.elcr) s) }
    ensures small { (p : APlatform) (s : AScript) → board_fault_of p s ≡ None → HasScriptValues s → AreBytes (enabled_ids p) → plan_size (board_config_of p (routes_of p s.elcr) s) < 2 ^ 32 }
    ensures room { (p : APlatform) (s : AScript) → board_fault_of p s ≡ None → HasScriptValues s → AreBytes (enabled_ids p) → room (board_config_of p (routes_of p s.elcr) s) < 850000 }
{}
