//! Words and told files have an answer, all their answers have one status, and, but for a form with many
//! texts, there is one alone.

ghost use Rattle.std.specs.Prelude.{◌≡◌, ◌⊎◌, ℕ, List, [], ◌∷◌, codes, Option, Some};
ghost use Rattle.mpt_base.specs.Outside.{Files, Appends};
ghost use Rattle.mpt_base.specs.declared.fault.Reason.{Reason};
ghost use Rattle.mpt_spec.specs.Faults.{IsFirstFault};
ghost use Rattle.mpb_tally.specs.Summary.{IsSummaryOf};
ghost use Rattle.mpb_report_line.specs.declared.report.Report.{Report as AReport};
ghost use Rattle.mpb_report_parse.specs.Reports.{IsReportOf};
ghost use Rattle.mpb_replay_laws.specs.declared.verdict.Verdict.TheVariants.{Legal};
ghost use Rattle.mpb_boards.specs.Lines.{verdict_line};
ghost use Rattle.mptab_walk.specs.Commands.{fault_line};
ghost use Rattle.mptab_walk.specs.Forms.{Form, Drill, IsForm, IsAny, IsStill, IsRead, Image, files_of};
ghost use Rattle.mptab_walk.specs.Walk.{Outside, IsAnswer, Answers, Reaches};
ghost use Rattle.mptab_laws.specs.Laws.{AreBytesTold, HaveOneText, AreAlike, IsReported, HoldsReport};

/// Words and told files of bytes have an answer.
pub fn words_have_an_answer()
    ensures any { (files : Files) (words : List (List ℕ)) → AreBytesTold files
        → (status : ℕ) × (text : List ℕ) × IsAnswer IsAny (Some files) words status text }
    ensures still { (files : Files) (words : List (List ℕ)) → AreBytesTold files
        → (status : ℕ) × (text : List ℕ) × IsAnswer IsStill (Some files) words status text }
{}

/// They have one answer alone, where the words are of no form with many texts.
pub fn answer_is_one()
    ensures any { (files : Files) (words : List (List ℕ)) (s u : ℕ) (t v : List ℕ) → HaveOneText words
        → IsAnswer IsAny (Some files) words s t → IsAnswer IsAny (Some files) words u v
        → (s ≡ u) × (t ≡ v) }
    ensures still { (files : Files) (words : List (List ℕ)) (s u : ℕ) (t v : List ℕ) → HaveOneText words
        → IsAnswer IsStill (Some files) words s t → IsAnswer IsStill (Some files) words u v
        → (s ≡ u) × (t ≡ v) }
{}

/// All answers to them have one status, whatever the words; and one text where that isn't 0.
pub fn answers_are_alike()
    ensures any { (files : Files) (words : List (List ℕ)) (s u : ℕ) (t v : List ℕ)
        → IsAnswer IsAny (Some files) words s t → IsAnswer IsAny (Some files) words u v
        → AreAlike s u t v }
    ensures still { (files : Files) (words : List (List ℕ)) (s u : ℕ) (t v : List ℕ)
        → IsAnswer IsStill (Some files) words s t → IsAnswer IsStill (Some files) words u v
        → AreAlike s u t v }
{}

/// Where the walk comes to an image that has a first fault, the answer is 7.
pub fn first_fault_is_answered()
    ensures any { (files : Files) (words : List (List ℕ)) (form : Form) (name : List ℕ) (at : ℕ) (why : Reason)
        → IsForm form words → Reaches (Some files) (files_of form) (Image name)
        → IsRead (Some files) (Image name) (λ image. IsFirstFault image at why)
        → IsAnswer IsAny (Some files) words 7 (fault_line at why) }
    ensures still { (files : Files) (words : List (List ℕ)) (form : Form) (name : List ℕ) (at : ℕ) (why : Reason)
        → IsStill form → IsForm form words → Reaches (Some files) (files_of form) (Image name)
        → IsRead (Some files) (Image name) (λ image. IsFirstFault image at why)
        → IsAnswer IsStill (Some files) words 7 (fault_line at why) }
{}

/// The one answer to the words of a drill is its summary, with status 0. What is given to them has status 0,
/// 5 where the sink failed, or 9 where memory ran out.
pub fn drills_are_summed_up()
    ensures any { (told : Option Files) (words : List (List ℕ)) (n s : ℕ) (t : List ℕ)
        → IsForm (Drill n) words → IsAnswer IsAny told words s t → (s ≡ 0) × IsSummaryOf n t }
    ensures still { (told : Option Files) (words : List (List ℕ)) (n s : ℕ) (t : List ℕ)
        → IsForm (Drill n) words → IsAnswer IsStill told words s t → (s ≡ 0) × IsSummaryOf n t }
    ensures any_status { (told : Option Files) (before after : Outside) (words : List (List ℕ)) (n result : ℕ)
        → IsForm (Drill n) words → Answers IsAny told before after words result
        → (result ≡ 0) ⊎ ((result ≡ 5) ⊎ (result ≡ 9)) }
    ensures still_status { (told : Option Files) (before after : Outside) (words : List (List ℕ)) (n result : ℕ)
        → IsForm (Drill n) words → Answers IsStill told before after words result
        → (result ≡ 0) ⊎ ((result ≡ 5) ⊎ (result ≡ 9)) }
{}

/// What is given with status 0 is an answer, whole.
pub fn zero_is_an_answer()
    ensures any { (told : Option Files) (before after : Outside) (words : List (List ℕ)) → Answers IsAny told before after words 0
        → (text : List ℕ) × IsAnswer IsAny told words 0 text × Appends before.written after.written text }
    ensures still { (told : Option Files) (before after : Outside) (words : List (List ℕ)) → Answers IsStill told before after words 0
        → (text : List ℕ) × IsAnswer IsStill told words 0 text × Appends before.written after.written text }
{}

/// What `trace` or `boot` answers with status 0 is read back as a report. The one answer to `replay` with the same image
/// and script and a file of this text is that it is legal, with status 0. What is given to its words has status 0, 4
/// where the shelf failed, 5 where the sink failed, or 9 where memory ran out.
pub fn reports_are_replayed()
    ensures read { (files : Files) (image script text : List ℕ) → AreBytesTold files → IsReported IsAny files image script text
        → (r : AReport) × IsReportOf r text }
    ensures any { (files after : Files) (image script report text t : List ℕ) (s : ℕ) → AreBytesTold files
        → IsReported IsAny files image script text → HoldsReport files after image script report text
        → IsAnswer IsAny (Some after) (codes "replay" ∷ image ∷ script ∷ report ∷ []) s t → (s ≡ 0) × (t ≡ verdict_line Legal) }
    ensures still { (files after : Files) (image script report text t : List ℕ) (s : ℕ) → AreBytesTold files
        → IsReported IsAny files image script text → HoldsReport files after image script report text
        → IsAnswer IsStill (Some after) (codes "replay" ∷ image ∷ script ∷ report ∷ []) s t → (s ≡ 0) × (t ≡ verdict_line Legal) }
    ensures any_status { (files told : Files) (image script report text : List ℕ) (before after : Outside) (result : ℕ) → AreBytesTold files
        → IsReported IsAny files image script text → HoldsReport files told image script report text
        → Answers IsAny (Some told) before after (codes "replay" ∷ image ∷ script ∷ report ∷ []) result
        → (result ≡ 0) ⊎ ((result ≡ 4) ⊎ ((result ≡ 5) ⊎ (result ≡ 9))) }
    ensures still_status { (files told : Files) (image script report text : List ℕ) (before after : Outside) (result : ℕ) → AreBytesTold files
        → IsReported IsAny files image script text → HoldsReport files told image script report text
        → Answers IsStill (Some told) before after (codes "replay" ∷ image ∷ script ∷ report ∷ []) result
        → (result ≡ 0) ⊎ ((result ≡ 4) ⊎ ((result ≡ 5) ⊎ (result ≡ 9))) }
{}
