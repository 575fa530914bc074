//! What holds of every text. Each law is the contract of a call that does nothing.

ghost use Rattle.std.specs.Prelude.{◌≡◌, ◌↔◌, ℕ, List, Ok, Err, true};
ghost use Rattle.elan_text.specs.declared.name.Name.{Name as NameValue};
ghost use Rattle.elan_text.specs.declared.refusal.Refusal.{Refusal as RefusalValue};
ghost use Rattle.elan_phrases.specs.Symbols.{is_unreserved};
ghost use Rattle.elan_syntax.specs.declared.parts.ModuleOutline.{ModuleOutline as ModuleValue};
ghost use Rattle.elan_modules.specs.declared.flat.LoadedText.{LoadedText as TextValue};
ghost use Rattle.elan_modules.specs.Modules.{opened};
ghost use Rattle.elan_modules.specs.Readings.{IsReadAs, IsUnread};
ghost use Rattle.elan_lexer.specs.declared.token.Token.{Token as TokenValue};
ghost use Rattle.elan_syntax.specs.declared.parts.Outline.{Outline as OutlineValue};
ghost use Rattle.elan_modules.specs.declared.flat.Flat.{Flat as FlatValue};
ghost use Rattle.elan_modules.specs.Visits.{Library, flat_program};
ghost use Rattle.elan_modules.specs.Ordered.{IsOrdered};

/// The text that is loaded for a name is read as one module of that name exactly where its tokens are one, and is
/// refused exactly as its tokens and its outline are.
pub fn texts_are_read()
    ensures found { (name : NameValue) (bytes : List ℕ) (text : TextValue) (outline : ModuleValue) →
        is_unreserved name.bytes ≡ true → (opened name bytes ≡ Ok (text, outline)) ↔ IsReadAs name bytes text outline }
    ensures refused { (name : NameValue) (bytes : List ℕ) (refusal : RefusalValue) →
        is_unreserved name.bytes ≡ true → (opened name bytes ≡ Err refusal) ↔ IsUnread name bytes refusal }
{}

/// A flat program that the walk comes to has each of its instances once, behind those that it imports.
pub fn programs_are_ordered()
    ensures ordered { (said : Library) (bytes : List ℕ) (tokens : List TokenValue)
        (outline : OutlineValue) (flat : FlatValue)
        → flat_program said bytes tokens outline ≡ Ok flat → IsOrdered flat }
{}
