//! What the check of a file means for the commands that read such a file.

ghost use Rattle.std.specs.Prelude.{ℕ, List, Option, Some};
ghost use Rattle.text_stream.specs.declared.run_fault.RunFault.{RunFault};
ghost use Rattle.check_lines.specs.declared.form.CheckForm.{CheckForm};
ghost use Rattle.check_lines.specs.Document.{Checks};
ghost use Rattle.laws.specs.Agree.{AgreesWithCommands};

/// What a check finds in a text agrees with every run, storm or audit of the same text, by the kind of file that it
/// seems to be.
pub fn agrees_with_commands()
    ensures agrees { (form : CheckForm) (text : List ℕ) (left before after : Option (List ℕ))
        (found : Option RunFault) → Checks form (Some text) left before after found
        → AgreesWithCommands text found }
{}
