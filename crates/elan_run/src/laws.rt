//! What holds of every input. Each law is the contract of a call that does nothing.

ghost use Rattle.std.specs.Prelude.{◌≡◌, ◌≢◌, ℕ, List, Option};
ghost use Rattle.elan_cli.specs.Words.{Word};
ghost use Rattle.elan_loaders.specs.Libraries.{Library as Texts, Untold, first_told};
ghost use Rattle.elan_modules.specs.Flattens.{AllTold};
ghost use Rattle.elan_modules.specs.Visits.{Library};
ghost use Rattle.elan_run.specs.declared.status.Status.{Status as StatusValue};
ghost use Rattle.elan_run.specs.Verdict.{chosen_by, IsReport};

/// Words and an input have no two reports over a library: one text and one status are right.
pub fn one_report()
    ensures { (words : List Word) (library : Library) (input text other : List ℕ) (answer another : StatusValue)
        → IsReport (chosen_by words) library input text answer → IsReport (chosen_by words) library input other another
        → (text ≡ other) × (answer ≡ another) }
{}

/// Words and an input have a report over a library that tells of each name that it has a text or
/// none; so they have one where each loader tells its library.
pub fn some_report()
    ensures library { (words : List Word) (library : Library) → ((name : List ℕ) → library name ≢ Untold)
        → (input : List ℕ)
        → (text : List ℕ) × (answer : StatusValue) × IsReport (chosen_by words) library input text answer }
    ensures told { (words : List Word) (told : List (Option Texts)) → AllTold told → (input : List ℕ)
        → (text : List ℕ) × (answer : StatusValue)
        × IsReport (chosen_by words) (first_told told) input text answer }
{}
