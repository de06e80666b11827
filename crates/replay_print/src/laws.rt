// How long the lines can be.
ghost use Rattle.std.specs.Prelude.{ℕ, ◌^◌, ◌<◌, ◌≤◌, List, length};
ghost use Rattle.cp_base.specs.declared.limits.TheConstants.{MAX_TRANSFER};
ghost use Rattle.cp_base.specs.declared.replies.Status.{Status};
ghost use Rattle.script_cmds.specs.declared.item.Show.{Show};
ghost use Rattle.cp_base.specs.declared.commands.CommandWord.{CommandWord};
ghost use Rattle.history_model.specs.Text.{line_of_entry, lines_of_summary, shown_text};
ghost use Rattle.replay_print.specs.Lines.{number_of_space};

/// The most bytes that a line has, with its newline: an entry or a show of at most 8,192 bytes, or the
/// four lines of a summary together. An entry of the longest word, the longest status, the largest
/// numbers and 8,192 bytes has as many.
pub const LONGEST_LINE: u64 = 16_482;

/// No line is longer than `LONGEST_LINE`. The function does nothing; its clauses are the laws.
pub fn line_lengths()
    ensures entry { (k host ordinal cid : ℕ) (word : CommandWord) (status : Status) (value : ℕ) (bytes : List ℕ)
        → k < 2 ^ 32 → host < 2 ^ 32 → ordinal < 2 ^ 32 → cid < 2 ^ 32 → value < 2 ^ 64 → length bytes ≤ MAX_TRANSFER
        → length (line_of_entry k host ordinal cid word status value bytes) ≤ LONGEST_LINE }
    ensures show { (show : Show) (bytes : List ℕ)
        → number_of_space show.range.space < 2 ^ 32 → show.range.start < 2 ^ 64 → show.range.len < 2 ^ 64
        → length bytes ≤ MAX_TRANSFER → length (shown_text show bytes) ≤ LONGEST_LINE }
    ensures summary { (commands ok other total : ℕ)
        → commands < 2 ^ 32 → ok < 2 ^ 32 → other < 2 ^ 32 → total < 2 ^ 64
        → length (lines_of_summary commands ok other total) ≤ LONGEST_LINE }
{}
