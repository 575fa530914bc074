//! What holds of all readings. Each law is the contract of a call that does nothing.

ghost use Rattle.std.specs.Prelude.{◌≡◌, ◌<◌, true, false, Some, List, Bool, length};
ghost use Rattle.std.specs.List.{All};
ghost use Rattle.elan_terms.specs.declared.tree.OpId.{OpId as OpValue};
ghost use Rattle.elan_terms.specs.declared.tree.SortId.{SortId as SortValue};
ghost use Rattle.elan_terms.specs.declared.tree.Pattern.{Pattern as PatternValue};
ghost use Rattle.elan_program.specs.declared.signature.Assoc.TheVariants as assoc;
ghost use Rattle.elan_program.specs.declared.signature.Operator.{Operator as OperatorValue};
ghost use Rattle.elan_program.specs.declared.signature.Signature.{Signature as SignatureValue};
ghost use Rattle.elan_program.specs.Signature.{shapes_of};
ghost use Rattle.elan_program.specs.Soundness.{is_sound};
ghost use Rattle.elan_program.specs.Patterns.{pattern_sort};
ghost use Rattle.elan_reading.specs.declared.lexeme.Lexeme.{Lexeme as LexemeValue};
ghost use Rattle.elan_reading.specs.declared.lexeme.Variable.{Variable as VariableValue};
ghost use Rattle.elan_reading.specs.Edge.{counted};
ghost use Rattle.elan_reading.specs.Lexemes.{IsInRange};
ghost use Rattle.elan_reading.specs.Readings.{Reads};
ghost use Rattle.elan_reading.specs.Operands as spec;

/// In a sound signature what is read has a token at least, and the tree is a valid pattern of the sort.
pub fn readings_have_their_sort()
    ensures some { (g : SignatureValue) (vs : List VariableValue) (s : SortValue)
        (run : List LexemeValue) (t : PatternValue) (grouped : Bool)
        → is_sound g ≡ true → Reads g vs s run t grouped → 0 < length run }
    ensures sort { (g : SignatureValue) (vs : List VariableValue) (s : SortValue)
        (run : List LexemeValue) (t : PatternValue) (grouped : Bool)
        → is_sound g ≡ true → All IsInRange run → Reads g vs s run t grouped
        → pattern_sort (shapes_of g) t ≡ Some s }
{}

/// Three operands with an operator between them are read to the side of its associativity; in parentheses two of them are
/// read first, whatever the associativity.
pub fn operands_follow_the_side()
    ensures left { (g : SignatureValue) (vs : List VariableValue) (op : OpValue)
        (o : OperatorValue) (token : LexemeValue) (xs ys zs : List LexemeValue)
        (x y z : PatternValue)
        → spec.IsInfix g op o token → counted o ≡ assoc.Left
        → spec.IsOperand g vs o.sort xs x → spec.IsOperand g vs o.sort ys y
        → spec.IsOperand g vs o.sort zs z
        → Reads g vs o.sort (spec.joined (spec.joined xs token ys) token zs)
        (spec.over op (spec.over op x y) z) false }
    ensures right { (g : SignatureValue) (vs : List VariableValue) (op : OpValue)
        (o : OperatorValue) (token : LexemeValue) (xs ys zs : List LexemeValue)
        (x y z : PatternValue)
        → spec.IsInfix g op o token → counted o ≡ assoc.Right
        → spec.IsOperand g vs o.sort xs x → spec.IsOperand g vs o.sort ys y
        → spec.IsOperand g vs o.sort zs z
        → Reads g vs o.sort (spec.joined xs token (spec.joined ys token zs))
        (spec.over op x (spec.over op y z)) false }
    ensures first_grouped { (g : SignatureValue) (vs : List VariableValue) (op : OpValue)
        (o : OperatorValue) (token : LexemeValue) (xs ys zs : List LexemeValue)
        (x y z : PatternValue)
        → spec.IsInfix g op o token
        → spec.IsOperand g vs o.sort xs x → spec.IsOperand g vs o.sort ys y
        → spec.IsOperand g vs o.sort zs z
        → Reads g vs o.sort
        (spec.joined (spec.in_parentheses (spec.joined xs token ys)) token zs)
        (spec.over op (spec.over op x y) z) false }
{}
