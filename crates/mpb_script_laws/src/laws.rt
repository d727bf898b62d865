//! Laws of the definitions of scripts, in the words of the format.

ghost use Rattle.std.specs.Prelude.{◌≡◌, ◌↔◌, ◌⊎◌, ℕ, List, Some};
ghost use Rattle.toml.specs.Data.{Data};
ghost use Rattle.mpb_spec.specs.declared.agent.Agent.{Agent};
ghost use Rattle.mpb_words.specs.declared.refusal.WordWhy.{WordWhy};
ghost use Rattle.mpb_script.specs.declared.script.Script.{Script};
ghost use Rattle.mpb_script.specs.declared.script.ScriptFault.{ScriptFault};
ghost use Rattle.mpb_script.specs.declared.script.ScriptFault.TheVariants as fault;
ghost use Rattle.mpb_script.specs.Words.{script_fault_of};
ghost use Rattle.mpb_script.specs.Script.{IsScriptOf, HasFault};
ghost use Rattle.mpb_script.specs.Values.{HasScriptValues};
ghost use Rattle.mpb_script_laws.specs.Laws.{IsScript, IsRefused, IsFirstWrongWord};

/// A text is one script at most, whose values are those that a board may rest on.
pub fn script_of_a_text_is_one()
    ensures one { (text : List ℕ) (s t : Script) → IsScriptOf text s → IsScriptOf text t → s ≡ t }
    ensures values { (text : List ℕ) (s : Script) → IsScriptOf text s → HasScriptValues s }
{}

/// A text has one first fault at most, and none where it is a script.
pub fn first_fault_of_a_text_is_one()
    ensures one { (text : List ℕ) (e f : ScriptFault) → HasFault text e → HasFault text f → e ≡ f }
    ensures none { (text : List ℕ) (s : Script) (f : ScriptFault) → IsScriptOf text s → ¬ HasFault text f }
{}

/// Every text is a script or has a first fault.
pub fn text_is_script_or_refused()
    ensures { (text : List ℕ) → IsScript text ⊎ IsRefused text }
{}

/// The fault of a document is a word exactly where its keys are right, it has few enough words, this one
/// is wrong for this cause, and none before it is wrong.
pub fn wrong_word_is_the_first()
    ensures { (d : Data) (agent : Agent) (index : ℕ) (why : WordWhy) →
        (script_fault_of d ≡ Some (fault.Word agent index why)) ↔ IsFirstWrongWord d agent index why }
{}
