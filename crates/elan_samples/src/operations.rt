use elan_builtin::{Operand, Reduced, reduce};
use elan_program::Builtin;
use std::test::Fail;

const LARGEST: i64 = 9_223_372_036_854_775_807;

fn of_integers(op: Builtin, x: i64, y: i64) -> Option<Reduced> {
    reduce(op, [Operand::Int(x), Operand::Int(y)].as_slice(), x == y)
}

fn of_truths(op: Builtin, x: bool, y: bool) -> Option<Reduced> {
    reduce(
        op,
        [Operand::Truth(x), Operand::Truth(y)].as_slice(),
        x == y,
    )
}

#[test]
fn integers_have_a_value_where_it_is_in_range(rt: HostRuntime) -> Result<(), Fail> {
    let table = [
        (Builtin::Add, 2, 3, Some(5)),
        (Builtin::Add, LARGEST, 1, None),
        (Builtin::Sub, 0, 7, Some(-7)),
        (Builtin::Sub, -LARGEST, 1, None),
        (Builtin::Mul, -4, 6, Some(-24)),
        (Builtin::Mul, LARGEST, -1, Some(-LARGEST)),
        (Builtin::Mul, LARGEST, 2, None),
        (Builtin::Div, -7, 2, Some(-3)),
        (Builtin::Div, 7, -2, Some(-3)),
        (Builtin::Div, 1, 0, None),
        (Builtin::Mod, -7, 2, Some(-1)),
        (Builtin::Mod, 7, -2, Some(1)),
        (Builtin::Mod, 1, 0, None),
    ];
    for (op, x, y, value) in table.as_slice() {
        let expected = match value {
            None => None,
            Some(z) => Some(Reduced::Int(*z)),
        };
        assert_eq!(rt; of_integers(*op, *x, *y), expected);
    }
    Ok(())
}

#[test]
fn integers_are_compared(rt: HostRuntime) -> Result<(), Fail> {
    let table = [
        (Builtin::Less, true, false),
        (Builtin::LessOrSame, true, true),
        (Builtin::Greater, false, false),
        (Builtin::GreaterOrSame, false, true),
        (Builtin::IntSame, false, true),
        (Builtin::IntDiffer, true, false),
        (Builtin::Same, false, true),
        (Builtin::Differ, true, false),
    ];
    for (op, two_three, three_three) in table.as_slice() {
        assert_eq!(rt; of_integers(*op, 2, 3), Some(Reduced::Truth(*two_three)));
        assert_eq!(rt; of_integers(*op, 3, 3), Some(Reduced::Truth(*three_three)));
    }
    Ok(())
}

#[test]
fn truth_values_have_to_be_known(rt: HostRuntime) -> Result<(), Fail> {
    for x in [false, true] {
        for y in [false, true] {
            assert_eq!(rt; of_truths(Builtin::And, x, y), Some(Reduced::Truth(x && y)));
            assert_eq!(rt; of_truths(Builtin::Or, x, y), Some(Reduced::Truth(x || y)));
        }
        let known = [Operand::Truth(x)];
        assert_eq!(rt;
            reduce(Builtin::Not, known.as_slice(), false),
            Some(Reduced::Truth(!x))
        );
        for op in [Builtin::And, Builtin::Or] {
            let half = [Operand::Truth(x), Operand::Other];
            assert_eq!(rt; reduce(op, half.as_slice(), false), None);
        }
    }
    let unknown = [Operand::Other];
    assert_eq!(rt; reduce(Builtin::Not, unknown.as_slice(), false), None);
    for op in [Builtin::Yes, Builtin::No] {
        assert_eq!(rt; reduce(op, [].as_slice(), false), None);
    }
    Ok(())
}

#[test]
fn any_two_terms_are_the_same_or_differ(rt: HostRuntime) -> Result<(), Fail> {
    let any = [Operand::Other, Operand::Other];
    assert_eq!(rt;
        reduce(Builtin::Same, any.as_slice(), true),
        Some(Reduced::Truth(true))
    );
    assert_eq!(rt;
        reduce(Builtin::Differ, any.as_slice(), true),
        Some(Reduced::Truth(false))
    );
    assert_eq!(rt; reduce(Builtin::IntSame, any.as_slice(), true), None);
    Ok(())
}
