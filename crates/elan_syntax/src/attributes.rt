//! Attributes of operators.

ghost use Rattle.std.specs.Prelude.{◌≡◌, ◌<◌, ◌≤◌, length, IfOk};
ghost use Rattle.elan_phrases.specs.Input.{Reads, sees};
ghost use Rattle.elan_phrases.specs.Symbols.{a};
ghost use Rattle.elan_syntax.specs.Grammar as grammar;

use crate::parts::{Attributes, Side};
use elan_phrases::{Halt, Reader, Symbol};

/// What an attribute says.
#[derive(Clone, Copy, Debug, PartialEq, Eq)]
pub enum Attribute {
    /// The priority, from 0 to 255.
    Priority,
    /// To which side it associates.
    Associativity,
    /// That it is associative and commutative.
    AcMark,
}

/// Takes all attributes that are next, each of the three kinds at most once.
#[tactic(auto, unfolding(crate::specs::Grammar::some_attributes, crate::specs::Grammar::priority, crate::specs::Grammar::associativity, crate::specs::Grammar::ac_mark))]
pub fn some_attributes(reader: &mut Reader<'_>) -> Result<Attributes, Halt>
    ensures read { Reads grammar.some_attributes reader.old result reader.new }
    ensures no_longer { IfOk result (λ _. length reader.new.rest ≤ length reader.old.rest) }
{
    let none = Attributes {
        priority: None,
        associativity: None,
        ac: false,
    };
    if sees_attribute(reader, Attribute::Priority) {
        let found = the_attribute(reader, Attribute::Priority, none)?;
        two_of(reader, Attribute::Associativity, Attribute::AcMark, found)
    } else if sees_attribute(reader, Attribute::Associativity) {
        let found = the_attribute(reader, Attribute::Associativity, none)?;
        two_of(reader, Attribute::Priority, Attribute::AcMark, found)
    } else if sees_attribute(reader, Attribute::AcMark) {
        let found = the_attribute(reader, Attribute::AcMark, none)?;
        two_of(reader, Attribute::Priority, Attribute::Associativity, found)
    } else {
        Ok(none)
    }
}

/// Takes these two attributes, each at most once, beside those before.
#[tactic(auto, using(crate::proofs::Turns::two_of_reads))]
fn two_of(
    reader: &mut Reader<'_>,
    one: Attribute,
    other: Attribute,
    before: Attributes,
) -> Result<Attributes, Halt>
    ensures read { Reads (grammar.two_of one other before) reader.old result reader.new }
    ensures no_longer { IfOk result (λ _. length reader.new.rest ≤ length reader.old.rest) }
{
    if sees_attribute(reader, one) {
        let found = the_attribute(reader, one, before)?;
        one_of(reader, other, found)
    } else if sees_attribute(reader, other) {
        let found = the_attribute(reader, other, before)?;
        one_of(reader, one, found)
    } else {
        Ok(before)
    }
}

/// Takes this attribute, where it is next, beside those before.
#[tactic(auto, using(crate::proofs::Turns::one_of_reads))]
fn one_of(reader: &mut Reader<'_>, one: Attribute, before: Attributes) -> Result<Attributes, Halt>
    ensures read { Reads (grammar.one_of one before) reader.old result reader.new }
    ensures no_longer { IfOk result (λ _. length reader.new.rest ≤ length reader.old.rest) }
{
    if sees_attribute(reader, one) {
        the_attribute(reader, one, before)
    } else {
        Ok(before)
    }
}

/// Whether the next token begins this attribute.
fn sees_attribute(reader: &Reader<'_>, wanted: Attribute) -> bool
    ensures { result ≡ sees (a (grammar.begins_attribute wanted)) reader.now }
{
    match wanted {
        Attribute::Priority => reader.sees(Symbol::Pri),
        Attribute::Associativity => sees_side(reader),
        Attribute::AcMark => reader.sees(Symbol::LeftRound),
    }
}

/// Whether the next token is `assocLeft` or `assocRight`.
fn sees_side(reader: &Reader<'_>) -> bool
    ensures { result ≡ sees (a grammar.begins_side) reader.now }
{
    reader.sees(Symbol::AssocLeft) || reader.sees(Symbol::AssocRight)
}

/// Takes this attribute, beside those before.
fn the_attribute(
    reader: &mut Reader<'_>,
    wanted: Attribute,
    before: Attributes,
) -> Result<Attributes, Halt>
    ensures read { Reads (grammar.attribute wanted before) reader.old result reader.new }
    ensures shorter { IfOk result (λ _. length reader.new.rest < length reader.old.rest) }
{
    match wanted {
        Attribute::Priority => {
            let priority = Some(priority(reader)?);
            Ok(Attributes { priority, ..before })
        }
        Attribute::Associativity => {
            let associativity = Some(associativity(reader)?);
            Ok(Attributes {
                associativity,
                ..before
            })
        }
        Attribute::AcMark => {
            ac_mark(reader)?;
            Ok(Attributes { ac: true, ..before })
        }
    }
}

/// Takes a priority.
#[tactic(auto, unfolding(crate::specs::Grammar::priority))]
fn priority(reader: &mut Reader<'_>) -> Result<u8, Halt>
    ensures read { Reads grammar.priority reader.old result reader.new }
    ensures shorter { IfOk result (λ _. length reader.new.rest < length reader.old.rest) }
{
    reader.sign(Symbol::Pri)?;
    reader.small_number()
}

/// Takes `assocLeft` or `assocRight`.
#[tactic(auto, unfolding(crate::specs::Grammar::associativity))]
fn associativity(reader: &mut Reader<'_>) -> Result<Side, Halt>
    ensures read { Reads grammar.associativity reader.old result reader.new }
    ensures shorter { IfOk result (λ _. length reader.new.rest < length reader.old.rest) }
{
    if reader.sees(Symbol::AssocLeft) {
        reader.sign(Symbol::AssocLeft)?;
        Ok(Side::Left)
    } else {
        reader.sign(Symbol::AssocRight)?;
        Ok(Side::Right)
    }
}

/// Takes `(AC)`.
#[tactic(auto, unfolding(crate::specs::Grammar::ac_mark))]
fn ac_mark(reader: &mut Reader<'_>) -> Result<(), Halt>
    ensures read { Reads grammar.ac_mark reader.old result reader.new }
    ensures shorter { IfOk result (λ _. length reader.new.rest < length reader.old.rest) }
{
    reader.sign(Symbol::LeftRound)?;
    reader.sign(Symbol::Ac)?;
    reader.sign(Symbol::RightRound)
}
