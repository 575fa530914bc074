//! What no clause says: calls with ample memory.

use elan_program::{
    Assoc, Builtin, Clause, Named, Operator, Parts, Piece, Program, Rule, Signature, Strategy,
    StrategyNode, copy_clause, copy_rule, copy_strategy, extension,
};
use elan_terms::{OpId, Pattern, PatternNode, SortId};
use elan_text::{Name, NoMemory};
use sqlite_items::{Boxed, Items};
use std::alloc::Global;
use std::test::Fail;

const SORT: SortId = SortId(0);

// @ U @ or @ + @
fn operator(alloc: Global, ac: bool, builtin: Option<Builtin>) -> Result<Operator, NoMemory> {
    let mut pieces = Items::new(alloc);
    pieces.push(Piece::Hole)?;
    pieces.push(Piece::Word(Name::new(alloc, if ac { b"U" } else { b"+" })?))?;
    pieces.push(Piece::Hole)?;
    Ok(Operator {
        pieces,
        args: Items::from_slice(alloc, &[SORT, SORT])?,
        sort: SORT,
        pri: 0,
        assoc: Assoc::No,
        ac,
        builtin,
    })
}

// The operator 0 is associative and commutative, and 1 is `+`.
fn signature(alloc: Global) -> Result<Signature, NoMemory> {
    let mut operators = Items::new(alloc);
    operators.push(operator(alloc, true, None)?)?;
    operators.push(operator(alloc, false, Some(Builtin::Add))?)?;
    let mut sorts = Items::new(alloc);
    sorts.push(Name::new(alloc, b"int")?)?;
    Ok(Signature {
        sorts,
        operators,
        int: Some(SORT),
        truth: None,
    })
}

fn variable(number: u32) -> Pattern {
    Pattern {
        node: PatternNode::Var(number, SORT),
    }
}

fn over(alloc: Global, op: u32, first: u32, second: u32) -> Result<Pattern, NoMemory> {
    let mut args = Items::new(alloc);
    args.push(variable(first))?;
    args.push(variable(second))?;
    Ok(Pattern {
        node: PatternNode::App(OpId(op), args),
    })
}

// f(x, y) => z where z := (fail) x
fn rule(alloc: Global, op: u32) -> Result<Rule, NoMemory> {
    let mut clauses = Items::new(alloc);
    clauses.push(Clause::Where {
        left: variable(2),
        by: Strategy {
            node: StrategyNode::Fail,
        },
        of: variable(0),
    })?;
    Ok(Rule {
        label: None,
        sort: SORT,
        left: over(alloc, op, 0, 1)?,
        right: variable(2),
        clauses,
    })
}

// The numbers of the variables, from left to right.
fn numbers_onto(numbers: &mut Vec<u32>, pattern: &Pattern) -> Result<(), NoMemory> {
    match &pattern.node {
        PatternNode::Var(number, _) => numbers.push(*number)?,
        PatternNode::Int(_) => {}
        PatternNode::App(_, args) => {
            for arg in args.as_slice() {
                numbers_onto(numbers, arg)?;
            }
        }
    }
    Ok(())
}

/// The numbers of the variables of a rule, its clauses last; none where there is no rule.
fn numbers_of(alloc: Global, found: Option<Rule>) -> Result<Vec<u32>, NoMemory> {
    let mut numbers = Vec::new(alloc);
    let Some(longer) = found else {
        return Ok(numbers);
    };
    numbers_onto(&mut numbers, &longer.left)?;
    numbers_onto(&mut numbers, &longer.right)?;
    for clause in longer.clauses.as_slice() {
        if let Clause::Where { left, by: _, of } = clause {
            numbers_onto(&mut numbers, left)?;
            numbers_onto(&mut numbers, of)?;
        }
    }
    Ok(numbers)
}

#[test]
fn an_extension_leaves_a_number_for_its_variable(rt: HostRuntime) -> Result<(), Fail> {
    let alloc = rt.alloc();
    let found = extension(alloc, &signature(alloc)?, &rule(alloc, 0)?)?;
    let numbers = numbers_of(alloc, found)?;
    assert_eq!(rt; numbers.as_slice(), [0, 1, 2, 3, 2, 3, 0].as_slice());
    Ok(())
}

// The rules of the two operators.
fn parts(alloc: Global) -> Result<Parts, NoMemory> {
    let mut rules = Items::new(alloc);
    rules.push(rule(alloc, 0)?)?;
    rules.push(rule(alloc, 1)?)?;
    Ok(Parts {
        signature: signature(alloc)?,
        rules,
        named: Items::new(alloc),
    })
}

fn program(alloc: Global, parts: Parts) -> Result<Option<Program>, NoMemory> {
    if parts.is_valid(alloc)? {
        let program = Program::new(alloc, parts.signature, parts.rules, parts.named)?;
        Ok(Some(program))
    } else {
        Ok(None)
    }
}

/// The numbers of the variables on the left sides of the unlabelled rules; none where the parts are not valid.
fn left_numbers(alloc: Global) -> Result<Vec<u32>, NoMemory> {
    let mut numbers = Vec::new(alloc);
    if let Some(program) = program(alloc, parts(alloc)?)? {
        for rule in program.unlabelled() {
            numbers_onto(&mut numbers, &rule.left)?;
        }
    }
    Ok(numbers)
}

#[test]
fn an_extension_stands_directly_after_its_rule(rt: HostRuntime) -> Result<(), Fail> {
    let numbers = left_numbers(rt.alloc())?;
    assert_eq!(rt; numbers.as_slice(), [0, 1, 0, 1, 2, 0, 1].as_slice());
    Ok(())
}

/// How many rules, named strategies and operators a program has, and how many rules its parts have.
fn counts(program: &Program) -> (usize, usize, usize, usize) {
    (
        program.rules().len(),
        program.named().len(),
        program.signature().operators.len(),
        program.parts().rules.len(),
    )
}

#[test]
fn a_program_has_its_parts(rt: HostRuntime) -> Result<(), Fail> {
    let found = program(rt.alloc(), parts(rt.alloc())?)?;
    assert_eq!(rt; found.map(|program| counts(&program)), Some((2, 0, 2, 2)));
    Ok(())
}

/// Whether the first rule of a program has an extension, and the second.
fn extended(program: &Program) -> (bool, bool) {
    if program.rules().len() == 2 {
        (
            program.extension(0).is_some(),
            program.extension(1).is_some(),
        )
    } else {
        (false, true)
    }
}

#[test]
fn a_program_keeps_the_extension_of_a_rule(rt: HostRuntime) -> Result<(), Fail> {
    let found = program(rt.alloc(), parts(rt.alloc())?)?;
    assert_eq!(rt;
        found.map(|program| extended(&program)),
        Some((true, false))
    );
    Ok(())
}

// What is wrong with the parts of a program.
#[derive(Clone, Copy)]
enum Fault {
    SortThatIsNotThere,
    LeftSideOfAnotherSort,
    VariableThatIsNotBound,
    VariablesThatSkipANumber,
    LabelOfARuleThatIsNotThere,
    LabelThatDoesNotAscend,
    IfWithoutTruth,
    InjectionIntoItself,
    WordThatIsReserved,
    HoleTooMany,
}

// The pieces of `@`, of `@ end @` or of `@ U @ @`.
fn pieces(alloc: Global, fault: Fault) -> Result<Items<Piece>, NoMemory> {
    let mut pieces = Items::new(alloc);
    pieces.push(Piece::Hole)?;
    match fault {
        Fault::InjectionIntoItself => {}
        Fault::WordThatIsReserved => {
            pieces.push(Piece::Word(Name::new(alloc, b"end")?))?;
            pieces.push(Piece::Hole)?;
        }
        _ => {
            pieces.push(Piece::Word(Name::new(alloc, b"U")?))?;
            pieces.push(Piece::Hole)?;
            pieces.push(Piece::Hole)?;
        }
    }
    Ok(pieces)
}

fn faulty_operator(alloc: Global, fault: Fault) -> Result<Operator, NoMemory> {
    let args = match fault {
        Fault::InjectionIntoItself => Items::from_slice(alloc, &[SORT])?,
        _ => Items::from_slice(alloc, &[SORT, SORT])?,
    };
    Ok(Operator {
        pieces: pieces(alloc, fault)?,
        args,
        sort: SORT,
        pri: 0,
        assoc: Assoc::No,
        ac: false,
        builtin: None,
    })
}

// A rule with one fault.
fn faulty_rule(alloc: Global, fault: Fault) -> Result<Rule, NoMemory> {
    let mut made = rule(alloc, 0)?;
    match fault {
        Fault::SortThatIsNotThere => made.sort = SortId(1),
        Fault::LeftSideOfAnotherSort => {
            made.left = Pattern {
                node: PatternNode::Var(0, SortId(1)),
            }
        }
        Fault::VariableThatIsNotBound => made.right = variable(3),
        Fault::VariablesThatSkipANumber => made.left = over(alloc, 0, 0, 2)?,
        Fault::LabelOfARuleThatIsNotThere => made.clauses = by_label(alloc, &[3])?,
        Fault::LabelThatDoesNotAscend => made.clauses = by_label(alloc, &[1, 0])?,
        _ => {
            made.clauses = Items::new(alloc);
            made.clauses.push(Clause::If(variable(0)))?;
        }
    }
    Ok(made)
}

// z := (label) x
fn by_label(alloc: Global, numbers: &[u32]) -> Result<Items<Clause>, NoMemory> {
    let mut clauses = Items::new(alloc);
    clauses.push(Clause::Where {
        left: variable(2),
        by: Strategy {
            node: StrategyNode::Label(Items::from_slice(alloc, numbers)?),
        },
        of: variable(0),
    })?;
    Ok(clauses)
}

/// Whether parts with a rule of this fault are valid.
fn is_valid_with_rule(alloc: Global, fault: Fault) -> Result<bool, NoMemory> {
    let mut faulty = parts(alloc)?;
    faulty.rules.push(faulty_rule(alloc, fault)?)?;
    faulty.is_valid(alloc)
}

/// Whether parts with an operator of this fault are valid.
fn is_valid_with_operator(alloc: Global, fault: Fault) -> Result<bool, NoMemory> {
    let mut faulty = parts(alloc)?;
    let operator = faulty_operator(alloc, fault)?;
    faulty.signature.operators.push(operator)?;
    faulty.is_valid(alloc)
}

#[test]
fn parts_without_a_fault_are_valid(rt: HostRuntime) -> Result<(), Fail> {
    let parts = parts(rt.alloc())?;
    assert!(rt; parts.is_valid(rt.alloc())?);
    Ok(())
}

#[test]
fn rules_with_a_fault_are_not_valid(rt: HostRuntime) -> Result<(), Fail> {
    for fault in [
        Fault::SortThatIsNotThere,
        Fault::LeftSideOfAnotherSort,
        Fault::VariableThatIsNotBound,
        Fault::VariablesThatSkipANumber,
        Fault::LabelOfARuleThatIsNotThere,
        Fault::LabelThatDoesNotAscend,
        Fault::IfWithoutTruth,
    ] {
        assert!(rt; !is_valid_with_rule(rt.alloc(), fault)?);
    }
    Ok(())
}

#[test]
fn operators_with_a_fault_are_not_valid(rt: HostRuntime) -> Result<(), Fail> {
    for fault in [
        Fault::InjectionIntoItself,
        Fault::WordThatIsReserved,
        Fault::HoleTooMany,
    ] {
        assert!(rt; !is_valid_with_operator(rt.alloc(), fault)?);
    }
    Ok(())
}

// So many times `id`.
fn identities(alloc: Global, count: usize) -> Result<Items<Strategy>, NoMemory> {
    let mut out = Items::new(alloc);
    for _ in 0..count {
        out.push(Strategy {
            node: StrategyNode::Id,
        })?;
    }
    Ok(out)
}

// twice(X) => X;X
fn twice(alloc: Global) -> Result<Named, NoMemory> {
    let mut both = Items::new(alloc);
    for _ in 0..2 {
        both.push(Strategy {
            node: StrategyNode::Param(0),
        })?;
    }
    Ok(Named {
        name: Name::new(alloc, b"twice")?,
        sort: SORT,
        parameters: 1,
        body: Strategy {
            node: StrategyNode::Seq(both),
        },
    })
}

// The parts with `twice` and with a rule that uses a strategy.
fn with_strategy(alloc: Global, node: StrategyNode) -> Result<Parts, NoMemory> {
    let mut clauses = Items::new(alloc);
    clauses.push(Clause::Where {
        left: variable(2),
        by: Strategy { node },
        of: variable(0),
    })?;
    let mut using = rule(alloc, 1)?;
    using.clauses = clauses;
    let mut parts = parts(alloc)?;
    parts.named.push(twice(alloc)?)?;
    parts.rules.push(using)?;
    Ok(parts)
}

// Whether the parts with a rule that uses this strategy are valid.
fn is_valid_with(alloc: Global, node: StrategyNode) -> Result<bool, NoMemory> {
    with_strategy(alloc, node)?.is_valid(alloc)
}

fn is_valid_call(alloc: Global, number: u32, count: usize) -> Result<bool, NoMemory> {
    let actuals = identities(alloc, count)?;
    is_valid_with(alloc, StrategyNode::Call(number, actuals))
}

fn is_valid_congruence(alloc: Global, op: u32, count: usize) -> Result<bool, NoMemory> {
    let arms = identities(alloc, count)?;
    is_valid_with(alloc, StrategyNode::Cong(OpId(op), arms))
}

#[test]
fn a_call_has_an_actual_for_each_parameter(rt: HostRuntime) -> Result<(), Fail> {
    let alloc = rt.alloc();
    for (number, count, valid) in [(0u32, 1usize, true), (0, 0, false), (1, 1, false)] {
        assert_eq!(rt; is_valid_call(alloc, number, count)?, valid);
    }
    assert!(rt; !is_valid_with(alloc, StrategyNode::Param(0))?);
    Ok(())
}

#[test]
fn a_congruence_has_a_strategy_for_each_argument(rt: HostRuntime) -> Result<(), Fail> {
    let alloc = rt.alloc();
    for (op, count, valid) in [
        (1u32, 2usize, true),
        (0, 2, false),
        (1, 1, false),
        (2, 2, false),
    ] {
        assert_eq!(rt; is_valid_congruence(alloc, op, count)?, valid);
    }
    Ok(())
}

#[test]
fn shapes_keep_what_terms_need(rt: HostRuntime) -> Result<(), Fail> {
    let shapes = signature(rt.alloc())?.shapes(rt.alloc())?;
    assert_eq!(rt; (shapes.shapes.len(), shapes.int), (2, Some(SORT)));
    Ok(())
}

#[test]
fn a_signature_tells_what_an_operator_is(rt: HostRuntime) -> Result<(), Fail> {
    let signature = signature(rt.alloc())?;
    let rows = [
        (0u32, true, None),
        (1, false, Some(Builtin::Add)),
        (2, false, None),
    ];
    for (number, ac, builtin) in rows {
        let op = OpId(number);
        assert_eq!(rt; (signature.is_ac(op), signature.builtin(op)), (ac, builtin));
    }
    Ok(())
}

#[test]
fn a_copy_of_a_name_has_its_bytes(rt: HostRuntime) -> Result<(), Fail> {
    let name = Name::new(rt.alloc(), b"inc".as_slice())?;
    let copy = name.copy(rt.alloc())?;
    assert_eq!(rt; copy.as_bytes(), b"inc".as_slice());
    Ok(())
}

/// How many clauses the copy of a rule has, and how many of them copy to one with `where`.
fn copied(alloc: Global) -> Result<(usize, u32), NoMemory> {
    let again = copy_rule(alloc, &rule(alloc, 0)?)?;
    let mut wheres = 0u32;
    for clause in again.clauses.as_slice() {
        if let Clause::Where { .. } = copy_clause(alloc, clause)? {
            wheres = wheres.saturating_add(1);
        }
    }
    Ok((again.clauses.len(), wheres))
}

#[test]
fn a_copy_of_a_rule_has_its_clauses(rt: HostRuntime) -> Result<(), Fail> {
    let found = copied(rt.alloc())?;
    assert_eq!(rt; found, (1, 1));
    Ok(())
}

#[test]
fn a_copy_of_a_strategy_has_its_kind(rt: HostRuntime) -> Result<(), Fail> {
    let alloc = rt.alloc();
    let call = Strategy {
        node: StrategyNode::Call(7, Items::new(alloc)),
    };
    let whole = Strategy {
        node: StrategyNode::Repeat(Boxed::new(alloc, call)?),
    };
    let copy = copy_strategy(alloc, &whole)?;
    assert!(rt; matches!(copy.node, StrategyNode::Repeat(_)));
    Ok(())
}
