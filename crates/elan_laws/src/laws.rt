//! What holds of every term, and of the injections of a signature. Each law is the contract of a call that does nothing.

ghost use Rattle.std.specs.Prelude.{◌≡◌, ◌≤◌, ◌↔◌, ℕ, ℤ, List, length, true, Some, IsTrue};
ghost use Rattle.std.specs.List.{Contains, AllZip};
ghost use Rattle.std.specs.Ordering.{nat_cmp, int_cmp, ordering_then, ordering_reverse};
ghost use Rattle.std.specs.declared.cmp.Ordering.TheVariants.{Less, Equal};
ghost use Rattle.std.specs.Cmp.Lexicographic.{slice_cmp};
ghost use Rattle.elan_terms.specs.declared.tree.OpId.{OpId as OpValue};
ghost use Rattle.elan_terms.specs.declared.tree.SortId.{SortId as SortValue};
ghost use Rattle.elan_terms.specs.declared.tree.Term.{Term as TermValue};
ghost use Rattle.elan_terms.specs.declared.tree.Pattern.{Pattern as PatternValue};
ghost use Rattle.elan_terms.specs.declared.tree.Shapes.{Shapes as ShapesValue};
ghost use Rattle.elan_terms.specs.Trees.{int_term, app_term};
ghost use Rattle.elan_terms.specs.Term.{order, sort_of, canon};
ghost use Rattle.elan_terms.specs.Match.{parts, variables, bound, instance, matches};
ghost use Rattle.elan_program.specs.declared.signature.Signature.{Signature as SignatureValue};
ghost use Rattle.elan_program.specs.Patterns.{pattern_sort, uses, are_numbered};
ghost use Rattle.elan_program.specs.Soundness.{injections, has_no_cycle};
ghost use Rattle.elan_terms.specs.Canonical.{IsCanonical};
ghost use Rattle.elan_terms.specs.Valid.{IsValid, IsValidOf};
ghost use Rattle.elan_terms.specs.Ascending.{Ascends, AscendsStrictly};
ghost use Rattle.elan_laws.specs.Parts.{IsPart, SomeOf, times};
ghost use Rattle.elan_laws.specs.Matching.{filled, HasValue, IsMatch, AscendLexicographically};
ghost use Rattle.elan_laws.specs.Equality.{EqualModulo};
ghost use Rattle.elan_laws.specs.Injections.{BeginAmong, HasNoCycle};

/// The term order is total: of two terms that are not equal one stands before the other, and not
/// the other before it, and what stands before a term stands before all that come after that term.
pub fn order_is_total()
    ensures equal { (t u : TermValue) → (order t u ≡ Equal) ↔ (t ≡ u) }
    ensures reversed { (t u : TermValue) → order t u ≡ ordering_reverse (order u t) }
    ensures transitive { (t u v : TermValue) → order t u ≡ Less → order u v ≡ Less → order t v
        ≡ Less }
{}

/// Integers stand before applications and are ordered by value. Applications are ordered by operator
/// number, then by number of arguments, then by their arguments lexicographically.
pub fn order_by_heads()
    ensures integers { (x y : ℤ) → order (int_term x) (int_term y) ≡ int_cmp x y }
    ensures kinds { (x : ℤ) (f : OpValue) (ts : List TermValue)
        → order (int_term x) (app_term f ts) ≡ Less }
    ensures applications { (f g : OpValue) (ts us : List TermValue)
        → order (app_term f ts) (app_term g us)
        ≡ ordering_then (nat_cmp f.0 g.0) (ordering_then (nat_cmp (length ts) (length us)) (slice_cmp order ts us)) }
{}

/// The canonical form is canonical, and it is the term itself where that is canonical already. It has
/// the term's sort, and is valid where the term is.
pub fn canonical_form()
    ensures canonical { (shapes : ShapesValue) (t : TermValue)
        → IsCanonical shapes (canon shapes t) }
    ensures itself { (shapes : ShapesValue) (t : TermValue) → IsCanonical shapes t → canon shapes t
        ≡ t }
    ensures idempotent { (shapes : ShapesValue) (t : TermValue) → canon shapes (canon shapes t)
        ≡ canon shapes t }
    ensures sort { (shapes : ShapesValue) (t : TermValue) → sort_of shapes (canon shapes t)
        ≡ sort_of shapes t }
    ensures valid { (shapes : ShapesValue) (t : TermValue) → IsValid shapes t
        → IsValid shapes (canon shapes t) }
{}

/// Two valid terms are equal modulo associativity and commutativity exactly where their canonical
/// forms are equal. That terms that are equal so have one canonical form is true of all terms.
pub fn equality_modulo_ac()
    ensures exactly { (shapes : ShapesValue) (t u : TermValue) → IsValid shapes t
        → IsValid shapes u →
        EqualModulo shapes t u ↔ (canon shapes t ≡ canon shapes u) }
    ensures one_form { (shapes : ShapesValue) (t u : TermValue) → EqualModulo shapes t u
        → canon shapes t ≡ canon shapes u }
    ensures form { (shapes : ShapesValue) (t : TermValue) → IsValid shapes t
        → EqualModulo shapes t (canon shapes t) }
{}

/// The list of parts ascends, so that each part stands in it once, and it holds the parts and nothing else.
pub fn parts_ascend()
    ensures order { (shapes : ShapesValue) (t : TermValue) → AscendsStrictly (parts shapes t) }
    ensures parts { (shapes : ShapesValue) (t p : TermValue) → IsValid shapes t →
        Contains (parts shapes t) p ↔ IsPart shapes p t }

    // Of arguments that ascend, some in their order are a multiset that has each at most as often.
    ensures multisets { (us ts : List TermValue) → Ascends ts →
        SomeOf us ts ↔ (Ascends us × ((t : TermValue) → times t us ≤ times t ts)) }
{}

/// The list of matches ascends lexicographically, so that each match stands in it once, and in a
/// canonical term it holds the matches and nothing else.
pub fn matches_once()
    ensures order { (shapes : ShapesValue) (p : PatternValue) (t : TermValue)
        → AscendLexicographically (matches shapes p t) }
    ensures matches { (shapes : ShapesValue) (p : PatternValue) (t : TermValue)
        (values : List TermValue) →
        IsValid shapes t → IsCanonical shapes t → Contains (matches shapes p t) values ↔ IsMatch shapes p t values }
{}

/// A pattern that is built node by node from canonical values, each node in canonical form, is the
/// canonical form of the pattern filled with these values.
pub fn instances_are_canonical()
    ensures { (shapes : ShapesValue) (value : ℕ → TermValue) (p : PatternValue) →
        ((x : ℕ) → IsCanonical shapes (value x)) → instance shapes value p ≡ canon shapes (filled value p) }
{}

/// Sorts are kept: parts of a valid term are valid; so each variable of a match has a valid value of
/// its sort; a well-sorted pattern filled with such values is a valid term of the pattern's sort; and
/// so is its canonical form.
pub fn sorts_are_kept()
    ensures parts { (shapes : ShapesValue) (t p : TermValue) → IsValid shapes t → IsPart shapes p t
        → IsValid shapes p }
    ensures matches { (shapes : ShapesValue) (p : PatternValue) (t : TermValue)
        (values : List TermValue) →
        IsValid shapes t → IsMatch shapes p t values → AllZip (HasValue shapes) (variables p) values }
    ensures filled { (shapes : ShapesValue) (sorts : ℕ) (known : List (ℕ × SortValue))
        (p : PatternValue) (s : SortValue)
        (values : List TermValue) → IsTrue (are_numbered sorts 0 known) → AllZip (HasValue shapes) known values →
        IsTrue (uses known p) → pattern_sort shapes p ≡ Some s → IsValidOf shapes s (filled (bound known values) p) }
    ensures canonical { (shapes : ShapesValue) (s : SortValue) (t : TermValue)
        → IsValidOf shapes s t → IsValidOf shapes s (canon shapes t) }
{}

/// In a signature whose injections begin at its sorts, none of them leads a sort back to itself exactly where no chain of
/// them is longer than there are sorts, which is how a signature is tested.
pub fn injections_end()
    ensures { (g : SignatureValue) → BeginAmong (length g.sorts) (injections g)
        → (has_no_cycle g ≡ true) ↔ HasNoCycle (injections g) }
{}
