// Laws of beginnings and of the first bad line. The functions do nothing: what they ensure is what is proved.
ghost use Rattle.std.specs.Prelude.{◌≡◌, ℕ, ◌+◌, ◌<◌, ◌^◌, true, List, [], ◌∷◌, ◌++◌, All, length};
ghost use Rattle.std.specs.List.{concat};
ghost use Rattle.cp_text.specs.HexText.{AreBytes};
ghost use Rattle.script_line.specs.Sized.{AreSized, IsSizedLine};
ghost use Rattle.script_cmds.specs.Kept.{KeepsOrderAndLimits};
ghost use Rattle.script_cmds.specs.Text.{lines_of, show_line};
ghost use Rattle.script_cmds.specs.declared.item.Show.{Show};
ghost use Rattle.script_cmds.specs.declared.script.Script.{Script};
ghost use Rattle.history_model.specs.Entry.{Entry};
ghost use Rattle.history_model.specs.Legal.{IsLegal};
ghost use Rattle.history_model.specs.Sent.{sends_of};
ghost use Rattle.history_model.specs.Text.{entries_text, entry_text, history_text, shown_text};
ghost use Rattle.cp_text.specs.Parts.{lacks};
ghost use Rattle.history_check.specs.Beginning.{IsBeginning, MayComeNext};
ghost use Rattle.history_check.specs.FirstBad.{BeginLegally, IsEndedLine, IsFirstBad, IsLegalText};
ghost use Rattle.history_check.specs.SizedPlan.{IsSizedPlan};
ghost use Rattle.history_check.specs.Verdict.{AreShown, IsShowInside};

/// What is read of a script can be checked: its numbers have 64 bits and its data are bytes, and its shows that
/// lie inside their namespaces do so as well.
pub fn scripts_can_be_checked()
    ensures plan { (script : Script) (plan : _) → AreSized (lines_of script) → KeepsOrderAndLimits script
        → sends_of plan ≡ sends_of script.phases
        → length (sends_of plan) < 2 ^ 64 → IsSizedPlan script.config plan }
    ensures shows { (script : Script) → AreSized (lines_of script) → All (IsShowInside script.config) script.shows
        → AreShown script.config script.shows }
{}

/// The line of a show is a line: one newline ends it, and none stands before.
pub fn shown_lines_are_lines()
    ensures { (show : Show) (bytes : List ℕ) → IsSizedLine (show_line show) → AreBytes bytes
        → IsEndedLine (shown_text show bytes) }
{}

/// Entries begin a legal history of a plan exactly where they are consistent with it: whatever a device has
/// answered so far, it can go on to a legal history, and nothing but a consistent beginning leads to one. None at
/// all are consistent, and where all commands have an entry they are a legal history.
pub fn consistent_entries_go_on()
    ensures none { (c : _) (plan : _) → IsBeginning c plan [] }
    ensures all { (c : _) (plan : _) (entries : List Entry) → IsBeginning c plan entries
        → length entries ≡ length (sends_of plan) → IsLegal c plan entries }
    ensures goes_on { (c : _) (plan : _) (entries : List Entry) → IsBeginning c plan entries
        → (more : List Entry) × IsLegal c plan (entries ++ more) }
    ensures begins { (c : _) (plan : _) (entries more : List Entry) → IsLegal c plan (entries ++ more)
        → IsBeginning c plan entries }
{}

/// One more entry is consistent behind others exactly where these are consistent and it may come next. So the
/// consistent entries are those that a device tells one by one, each as its turn comes.
pub fn entries_come_one_by_one()
    ensures comes { (c : _) (plan : _) (entries : List Entry) (next : _) → IsBeginning c plan entries
        → MayComeNext c plan entries next → IsBeginning c plan (entries ++ next ∷ []) }
    ensures came { (c : _) (plan : _) (entries : List Entry) (next : _) → IsBeginning c plan (entries ++ next ∷ [])
        → IsBeginning c plan entries × MayComeNext c plan entries next }
{}

/// The lines of a text tell the entries: where the text of a legal history begins with that of consistent entries
/// and one more line, this line is that of an entry that is consistent behind them. And a legal history is the
/// only one whose text begins with its entries, so its shows are fixed by them.
pub fn lines_are_entries()
    ensures next { (c : _) (plan : _) (shows : _) (entries : List Entry) (line rest : List ℕ) (history : List Entry)
        → IsSizedPlan c plan → IsBeginning c plan entries → length entries < length (sends_of plan)
        → lacks 10 line ≡ true → IsLegal c plan history
        → history_text c shows history ≡ entries_text 1 entries ++ (line ++ 10 ∷ rest)
        → (next : Entry) × IsBeginning c plan (entries ++ next ∷ [])
        × (entry_text (length entries + 1) next ≡ line ++ 10 ∷ []) }
    ensures whole { (c : _) (plan : _) (shows : _) (one other : List Entry) (rest : List ℕ)
        → IsSizedPlan c plan → IsLegal c plan one → IsLegal c plan other
        → history_text c shows other ≡ entries_text 1 one ++ rest → other ≡ one }
{}

/// Behind lines with which the text of a legal history begins, the first bad line is the next one where it is a
/// line with which none goes on, or none at all or a rest that no newline ends and the text is none of a legal history.
pub fn bad_line_stands_behind_good_ones()
    ensures line { (c : _) (plan : _) (shows : _) (lines : List (List ℕ)) (line rest : List ℕ)
        → All IsEndedLine lines → BeginLegally c plan shows lines → IsEndedLine line
        → (BeginLegally c plan shows (lines ++ line ∷ []) → ⊥)
        → IsFirstBad c plan shows (concat lines ++ (line ++ rest)) (length lines + 1) }
    ensures rest { (c : _) (plan : _) (shows : _) (lines : List (List ℕ)) (rest : List ℕ)
        → All IsEndedLine lines → BeginLegally c plan shows lines → lacks 10 rest ≡ true
        → (IsLegalText c plan shows (concat lines ++ rest) → ⊥)
        → IsFirstBad c plan shows (concat lines ++ rest) (length lines + 1) }
{}

/// Behind consistent entries of some commands of a plan, but not of all, the first bad line is the next one
/// where it is the line of no entry that is consistent behind them: a line of another text, a rest that no
/// newline ends, or none at all.
pub fn bad_line_is_that_of_no_next_entry()
    ensures other { (c : _) (plan : _) (shows : _) (entries : List Entry) (line rest : List ℕ)
        → IsSizedPlan c plan → IsBeginning c plan entries → length entries < length (sends_of plan)
        → lacks 10 line ≡ true
        → ((next : _) → IsBeginning c plan (entries ++ next ∷ []) → entry_text (length entries + 1) next ≡ line ++ 10 ∷ [] → ⊥)
        → IsFirstBad c plan shows (entries_text 1 entries ++ (line ++ 10 ∷ rest)) (length entries + 1) }
    ensures missing { (c : _) (plan : _) (shows : _) (entries : List Entry) (rest : List ℕ)
        → IsSizedPlan c plan → IsBeginning c plan entries → length entries < length (sends_of plan)
        → lacks 10 rest ≡ true
        → IsFirstBad c plan shows (entries_text 1 entries ++ rest) (length entries + 1) }
{}

/// A text has one first bad line at most.
pub fn first_bad_line_is_one()
    ensures { (c : _) (plan : _) (shows : _) (text : _) (one other : _) → IsFirstBad c plan shows text one
        → IsFirstBad c plan shows text other → one ≡ other }
{}
