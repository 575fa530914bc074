//! What holds of every line. Each law is the contract of a call that does nothing.

ghost use Rattle.std.specs.Prelude.{◌≡◌, Bool, List, Some};
ghost use Rattle.elan_cli.specs.Line.{is_plain, options_of};
ghost use Rattle.elan_cli.specs.Uses.{AreUses, Use, asked_by, line_of};
ghost use Rattle.elan_cli.specs.Words.{Word};
ghost use Rattle.elan_cli.specs.declared.given.Options.{Options as OptionsValue};

/// A line that is written as uses of the flag and of the options, each at most once and with
/// numbers in their ranges, is accepted and asks for what the uses say.
#[tactic(auto, using(crate::proofs::Spelling::asked_line))]
pub fn written_lines_are_accepted()
    ensures { (plain : Bool) (us : List Use) → AreUses (is_plain plain (line_of us)) us
        → options_of plain (line_of us) ≡ Some (asked_by (is_plain plain (line_of us)) us) }
{}

/// Each line that is accepted is written so.
#[tactic(auto, using(crate::proofs::Spelling::accepted_line))]
pub fn accepted_lines_are_written()
    ensures { (plain : Bool) (words : List Word) (o : OptionsValue)
        → options_of plain words ≡ Some o
        → (us : List Use) × (words ≡ line_of us) × AreUses (is_plain plain words) us }
{}
