//! Reports and refusals.

use crate::sample::{A, B, C, Step, UNION, signature, term};
use elan_meaning::{Cause, Item};
use elan_print::{refusal_line, report};
use elan_program::Signature;
use elan_terms::NoMemory;
use elan_text::{Code, Name, Place, Refusal};
use std::alloc::Global;
use std::test::Fail;

const UNION_OF_THREE: [Step; 4] = [Step::Over(UNION, 3), A, B, C];

/// A result, two marks and another result.
fn items(alloc: Global) -> Result<Vec<Item>, NoMemory> {
    let mut items = Vec::new(alloc);
    if let Some(found) = term(alloc, &UNION_OF_THREE)? {
        items.push(Item::Res(found, 3))?;
    }
    items.push(Item::Mark(Cause::Steps))?;
    items.push(Item::Mark(Cause::Depth))?;
    if let Some(found) = term(alloc, &[Step::Int(-7)])? {
        items.push(Item::Res(found, 0))?;
    }
    Ok(items)
}

/// The report of items within the limit of a sound signature, and else nothing.
fn reported(
    alloc: Global,
    signature: &Signature,
    items: &[Item],
    limit: u32,
) -> Result<Vec<u8>, NoMemory> {
    let sound = signature.is_sound(alloc)?;
    if sound && items.len() <= limit as usize {
        report(alloc, signature, items, limit)
    } else {
        Ok(Vec::new(alloc))
    }
}

/// How many items, the limit, and the report.
type Row = (usize, u32, &'static [u8]);

const ROWS: [Row; 5] = [
    (0, 0, b"[] limit\n"),
    (0, 1, b"[] end\n"),
    (1, 1, b"[1] result term: a U b U c\n[] limit\n"),
    (
        2,
        3,
        b"[1] result term: a U b U c\n[2] out of steps\n[] end\n",
    ),
    (
        4,
        4294967295,
        b"[1] result term: a U b U c\n[2] out of steps\n[3] too deep\n[4] result term: -7\n[] end\n",
    ),
];

fn is_as_said(
    alloc: Global,
    signature: &Signature,
    items: &[Item],
    row: &Row,
) -> Result<bool, NoMemory> {
    let first = items.split_at(row.0.min(items.len())).0;
    let found = reported(alloc, signature, first, row.1)?;
    Ok(found.as_slice() == row.2)
}

#[test]
fn a_report_numbers_its_items_and_says_how_it_ends(rt: HostRuntime) -> Result<(), Fail> {
    let alloc = rt.alloc();
    let signature = signature(alloc)?;
    let items = items(alloc)?;
    for row in &ROWS {
        assert!(rt; is_as_said(alloc, &signature, items.as_slice(), row)?);
    }
    Ok(())
}

fn is_line(alloc: Global, refusal: &Refusal, text: &[u8]) -> Result<bool, NoMemory> {
    let found = refusal_line(alloc, refusal)?;
    Ok(found.as_slice() == text)
}

#[test]
fn a_refusal_names_its_module_where_it_lies_in_one(rt: HostRuntime) -> Result<(), Fail> {
    let alloc = rt.alloc();
    let alone = Refusal {
        code: Code::E15,
        at: Place {
            line: 13,
            column: 1,
        },
        module: None,
    };
    assert!(rt; is_line(alloc, &alone, b"error E15 13:1 no reading\n")?);
    let loaded = Refusal {
        code: Code::E12,
        at: Place {
            line: 4294967295,
            column: 20,
        },
        module: Some(Name::new(alloc, b"list")?),
    };
    let text = b"error E12 4294967295:20 AC operator of another form in module list\n";
    assert!(rt; is_line(alloc, &loaded, text)?);
    Ok(())
}
