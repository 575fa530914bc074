//! The programs of the rows.

use crate::described::{BOOL, Condition, Definition, Described, INT, Kind, Line, OTHER, Op};
use elan_program::Builtin;

const TRUE: Op = Op("true", &[], BOOL, Kind::Builtin(Builtin::Yes));

const FALSE: Op = Op("false", &[], BOOL, Kind::Builtin(Builtin::No));

const A: Op = Op("a", &[], OTHER, Kind::Plain);

const B: Op = Op("b", &[], OTHER, Kind::Plain);

const C: Op = Op("c", &[], OTHER, Kind::Plain);

const G: Op = Op("g", &[OTHER, OTHER], OTHER, Kind::Plain);

const UNION: Op = Op("U", &[OTHER, OTHER], OTHER, Kind::Union);

/// Two rules for one constant.
pub const CHOICE: Described = Described {
    operators: &[A, B, C, G, UNION],
    variables: &[],
    sort: OTHER,
    rules: &[
        Line("ab", &["a"], &["b"], &[]),
        Line("ac", &["a"], &["c"], &[]),
    ],
    named: &[],
};

/// A union, which is split, or whose equal halves are found.
pub const SETS: Described = Described {
    operators: &[A, B, C, UNION, Op("p", &[OTHER, OTHER], OTHER, Kind::Plain)],
    variables: &[("x", OTHER), ("y", OTHER)],
    sort: OTHER,
    rules: &[
        Line("split", &["x", "y", "U"], &["x", "y", "p"], &[]),
        Line("twin", &["x", "x", "U"], &["x"], &[]),
    ],
    named: &[],
};

/// A union of equal terms is one of them.
pub const IDEM: Described = Described {
    operators: &[A, B, C, UNION],
    variables: &[("x", OTHER)],
    sort: OTHER,
    rules: &[Line("", &["x", "x", "U"], &["x"], &[])],
    named: &[],
};

/// The same by a condition, in which a variable is bound behind those of the left side.
pub const LINKED: Described = Described {
    operators: &[A, B, C, UNION],
    variables: &[("x", OTHER), ("y", OTHER)],
    sort: OTHER,
    rules: &[
        Line("ca", &["c"], &["a"], &[]),
        Line(
            "",
            &["x", "x", "U"],
            &["y"],
            &[Condition::Where(&["y"], &["ca", "id", "first"], &["x"])],
        ),
    ],
    named: &[],
};

const INTEGERS: [Op; 10] = [
    TRUE,
    FALSE,
    Op("+", &[INT, INT], INT, Kind::Builtin(Builtin::Add)),
    Op("-", &[INT, INT], INT, Kind::Builtin(Builtin::Sub)),
    Op("*", &[INT, INT], INT, Kind::Builtin(Builtin::Mul)),
    Op("/", &[INT, INT], INT, Kind::Builtin(Builtin::Div)),
    Op("mod", &[INT, INT], INT, Kind::Builtin(Builtin::Mod)),
    Op("<", &[INT, INT], BOOL, Kind::Builtin(Builtin::Less)),
    Op(">", &[INT, INT], BOOL, Kind::Builtin(Builtin::Greater)),
    Op("!=", &[INT, INT], BOOL, Kind::Builtin(Builtin::IntDiffer)),
];

/// Rules for integers, and named strategies.
pub const NUMS: Described = Described {
    operators: &INTEGERS,
    variables: &[("n", INT), ("x", INT), ("y", INT)],
    sort: INT,
    rules: &[
        Line("r1", &["n"], &["1"], &[]),
        Line("r2", &["n"], &["1"], &[]),
        Line("one", &["n"], &["1"], &[]),
        Line("two", &["n"], &["2"], &[]),
        Line("inc", &["n"], &["n", "1", "+"], &[]),
        Line(
            "dec",
            &["n"],
            &["n", "1", "-"],
            &[Condition::If(&["n", "0", ">"])],
        ),
        Line("loop", &["n"], &["n"], &[]),
        Line(
            "pairs",
            &["n"],
            &["x", "10", "*", "y", "+"],
            &[
                Condition::Where(&["x"], &["one", "two", "dk"], &["n"]),
                Condition::Where(&["y"], &["one", "two", "dk"], &["n"]),
                Condition::If(&["x", "y", "!="]),
            ],
        ),
        Line(
            "climb",
            &["n"],
            &["x"],
            &[Condition::Where(&["x"], &["inc", "iterate*"], &["n"])],
        ),
    ],
    named: &[
        Definition {
            name: "slow",
            parameters: &[],
            body: &["loop", "iterate*"],
        },
        Definition {
            name: "twice",
            parameters: &["X"],
            body: &["X", "X", ";"],
        },
        Definition {
            name: "grow",
            parameters: &["X"],
            body: &["X", "X", "dk", "grow"],
        },
        Definition {
            name: "swap",
            parameters: &["X", "Y"],
            body: &["Y", "X", ";"],
        },
        Definition {
            name: "nest",
            parameters: &["X"],
            body: &["X", "X", "twice", "swap"],
        },
    ],
};

/// Rules without a label for integers.
pub const VALUES: Described = Described {
    operators: &INTEGERS,
    variables: &[("n", INT)],
    sort: INT,
    rules: &[Line("", &["3"], &["4"], &[])],
    named: &[],
};

/// Truth values, and equality of other terms.
pub const TRUTHS: Described = Described {
    operators: &[
        TRUE,
        FALSE,
        Op("and", &[BOOL, BOOL], BOOL, Kind::Builtin(Builtin::And)),
        Op("or", &[BOOL, BOOL], BOOL, Kind::Builtin(Builtin::Or)),
        Op("not", &[BOOL], BOOL, Kind::Builtin(Builtin::Not)),
        Op("==", &[OTHER, OTHER], BOOL, Kind::Builtin(Builtin::Same)),
        Op("!=", &[OTHER, OTHER], BOOL, Kind::Builtin(Builtin::Differ)),
        Op("unknown", &[], BOOL, Kind::Plain),
        A,
        B,
        UNION,
    ],
    variables: &[],
    sort: OTHER,
    rules: &[],
    named: &[],
};

/// A term as deep as a number says: deep(0) is z, and deep(n) is s(deep(n - 1)).
pub const DEEP: Described = Described {
    operators: &[
        TRUE,
        FALSE,
        Op("-", &[INT, INT], INT, Kind::Builtin(Builtin::Sub)),
        Op(">", &[INT, INT], BOOL, Kind::Builtin(Builtin::Greater)),
        Op("z", &[], OTHER, Kind::Plain),
        Op("s", &[OTHER], OTHER, Kind::Plain),
        Op("deep", &[INT], OTHER, Kind::Plain),
    ],
    variables: &[("n", INT)],
    sort: OTHER,
    rules: &[
        Line("", &["0", "deep"], &["z"], &[]),
        Line(
            "",
            &["n", "deep"],
            &["n", "1", "-", "deep", "s"],
            &[Condition::If(&["n", "0", ">"])],
        ),
    ],
    named: &[],
};

/// A rule that makes a term equal to itself again, and one whose condition never holds.
pub const TURNS: Described = Described {
    operators: &[A, B, C, G, TRUE, FALSE],
    variables: &[],
    sort: OTHER,
    rules: &[
        Line("", &["c"], &["c"], &[]),
        Line("ba", &["b"], &["a"], &[Condition::If(&["false"])]),
    ],
    named: &[],
};
