//! Whether the sections of a flat program are small.

ghost use Rattle.std.specs.Prelude.{◌≡◌, nat_lt, length};
ghost use Rattle.std.specs.List.{list_all};
ghost use Rattle.elan_clauses.specs.Offered as offered;
ghost use Rattle.elan_check.specs.Laid.{tokens_of};
ghost use Rattle.elan_check.specs.Small as spec;

use elan_modules::{Flat, LoadedText};
use elan_syntax::{Definition, ModuleOutline, Section, Vars};

/// The variables of a section, and the parameters of a definition, are fewer than this.
const MOST: usize = 4_294_967_296;

/// Whether declarations have fewer names than so many.
#[tactic(auto, using(crate::proofs::SmallLemmas::room_left, crate::proofs::SmallLemmas::room_full))]
fn are_names_below(vars: &[Vars], most: usize) -> bool
    ensures { result ≡ nat_lt (length (tokens_of vars.now)) most }
{
    let mut room = most;
    let mut left = vars;
    'declarations: while let [first, rest @ ..] = left {
        let count = first.names.len();
        if room <= count {
            return false;
        }
        room -= count;
        left = rest;
    }
    0 < room
}

fn has_few(definition: &Definition) -> bool
    ensures { result ≡ offered.has_few definition.now }
{
    definition.parameters.len() < MOST
}

fn have_few(definitions: &[Definition]) -> bool
    ensures { result ≡ list_all offered.has_few definitions.now }
{
    let mut left = definitions;
    'definitions: while let [first, rest @ ..] = left {
        if !has_few(first) {
            return false;
        }
        left = rest;
    }
    true
}

fn is_few(section: &Section) -> bool
    ensures { result ≡ offered.is_few section.now }
{
    match section {
        Section::Rules { vars, .. } => are_names_below(vars.as_slice(), MOST),
        Section::Strategies { definitions, .. } => have_few(definitions.as_slice()),
        Section::Imports(_) => true,
        Section::Sorts(_) => true,
        Section::Operators(_) => true,
    }
}

fn are_few(sections: &[Section]) -> bool
    ensures { result ≡ list_all offered.is_few sections.now }
{
    let mut left = sections;
    'sections: while let [first, rest @ ..] = left {
        if !is_few(first) {
            return false;
        }
        left = rest;
    }
    true
}

fn have_few_sections(modules: &[ModuleOutline]) -> bool
    ensures { result ≡ list_all spec.is_small_module modules.now }
{
    let mut left = modules;
    'modules: while let [first, rest @ ..] = left {
        if !are_few(first.sections.as_slice()) {
            return false;
        }
        left = rest;
    }
    true
}

fn have_few_modules(texts: &[LoadedText]) -> bool
    ensures { result ≡ list_all spec.is_small_text texts.now }
{
    let mut left = texts;
    'texts: while let [first, rest @ ..] = left {
        if !have_few_sections(first.modules.as_slice()) {
            return false;
        }
        left = rest;
    }
    true
}

/// Whether each section declares fewer than 4,294,967,296 variables, and each definition has fewer
/// than 4,294,967,296 parameters.
#[tactic(auto, unfolding(elan_clauses::specs::Offered::is_small))]
pub fn is_small(flat: &Flat) -> bool
    ensures { result ≡ offered.is_small flat.now }
{
    have_few_modules(flat.texts.as_slice())
}
