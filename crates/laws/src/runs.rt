//! What a run means for the audits that read its history.

ghost use Rattle.std.specs.Prelude.{◌≤◌, ℕ, List, [], Option, Some, length};
ghost use Rattle.text_stream.specs.declared.input.TheConstants.{MAX_INPUT};
ghost use Rattle.run_command.specs.declared.output.RunOutput.TheVariants.{History};
ghost use Rattle.run_command.specs.Run.{Ran};
ghost use Rattle.laws.specs.Judged.{IsJudgedLegal};

/// What a run wrote as its history is legal to every audit that reads it to its end, where it has no more bytes than an
/// input may have: then only a failed read, a failed write or lack of memory ends an audit of it.
pub fn judges_runs_legal()
    ensures legal { (unread left : Option (List ℕ)) (text : List ℕ) → Ran History unread left
        (Some []) (Some text) → length text ≤ MAX_INPUT → IsJudgedLegal text }
{}
