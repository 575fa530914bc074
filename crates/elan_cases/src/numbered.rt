//! Outlines as text, with the numbers of their tokens.

use crate::outlines::{outline_of, stop_line};
use crate::spans::{plan_onto, span_onto, spans_onto, token_onto, tokens_onto};
use elan_syntax::{
    Attributes, ClauseOutline, Definition, LplOutline, ModuleOutline, OpDecl, RuleOutline, Section,
    Side, Span, Vars,
};
use std::alloc::Global;
use std::io;

/// Puts what stands behind the sort of an operator to the end.
fn attributes_onto(alloc: Global, into: &mut Vec<u8>, attributes: Attributes) -> io::Result<()> {
    if let Some(priority) = attributes.priority {
        token_onto(alloc, into, " pri", u32::from(priority))?;
    }
    match attributes.associativity {
        None => {}
        Some(Side::Left) => into.extend_from_slice(b" left")?,
        Some(Side::Right) => into.extend_from_slice(b" right")?,
    }
    if attributes.ac {
        into.extend_from_slice(b" ac")?;
    }
    Ok(())
}

/// Puts the line of an operator to the end.
fn operator_onto(alloc: Global, into: &mut Vec<u8>, operator: &OpDecl) -> io::Result<()> {
    span_onto(alloc, into, "operator", operator.spelling)?;
    spans_onto(alloc, into, " args", operator.args.as_slice())?;
    span_onto(alloc, into, " sort", operator.sort)?;
    attributes_onto(alloc, into, operator.attributes)?;
    into.push(b'\n')?;
    Ok(())
}

/// Puts the line of a declaration of variables to the end.
fn variables_onto(alloc: Global, into: &mut Vec<u8>, vars: &Vars) -> io::Result<()> {
    tokens_onto(alloc, into, "variables", vars.names.as_slice())?;
    span_onto(alloc, into, " sort", vars.sort)?;
    into.push(b'\n')?;
    Ok(())
}

/// Puts the line of a clause to the end.
fn clause_onto(alloc: Global, into: &mut Vec<u8>, clause: &ClauseOutline) -> io::Result<()> {
    match clause {
        ClauseOutline::If(test) => span_onto(alloc, into, "if", *test)?,
        ClauseOutline::Where { left, by, of } => {
            span_onto(alloc, into, "where", *left)?;
            if let Some(planned) = by {
                plan_onto(alloc, into, planned)?;
            }
            span_onto(alloc, into, " of", *of)?;
        }
    }
    into.push(b'\n')?;
    Ok(())
}

/// Puts the lines of a rule and of its clauses to the end.
fn rule_onto(alloc: Global, into: &mut Vec<u8>, rule: &RuleOutline) -> io::Result<()> {
    token_onto(alloc, into, "rule", rule.at)?;
    if let Some(label) = rule.label {
        token_onto(alloc, into, " label", label)?;
    }
    span_onto(alloc, into, " left", rule.left)?;
    span_onto(alloc, into, " right", rule.right)?;
    into.push(b'\n')?;
    for clause in rule.clauses.as_slice() {
        clause_onto(alloc, into, clause)?;
    }
    Ok(())
}

/// Puts the line of a definition to the end.
fn definition_onto(alloc: Global, into: &mut Vec<u8>, definition: &Definition) -> io::Result<()> {
    token_onto(alloc, into, "definition", definition.at)?;
    token_onto(alloc, into, " name", definition.name)?;
    tokens_onto(alloc, into, " parameters", definition.parameters.as_slice())?;
    plan_onto(alloc, into, &definition.by)?;
    into.push(b'\n')?;
    Ok(())
}

/// Puts a word and some tokens to the end, as a line.
fn line_onto(alloc: Global, into: &mut Vec<u8>, word: &str, spans: &[Span]) -> io::Result<()> {
    spans_onto(alloc, into, word, spans)?;
    into.push(b'\n')?;
    Ok(())
}

/// Puts the lines of the variables and rules for a sort to the end.
fn rules_onto(
    alloc: Global,
    into: &mut Vec<u8>,
    vars: &[Vars],
    rules: &[RuleOutline],
) -> io::Result<()> {
    for vars in vars {
        variables_onto(alloc, into, vars)?;
    }
    for rule in rules {
        rule_onto(alloc, into, rule)?;
    }
    Ok(())
}

/// Puts the lines of a section to the end.
fn section_onto(alloc: Global, into: &mut Vec<u8>, section: &Section) -> io::Result<()> {
    match section {
        Section::Imports(all) => line_onto(alloc, into, "imports", all.as_slice())?,
        Section::Sorts(all) => line_onto(alloc, into, "sorts", all.as_slice())?,
        Section::Operators(all) => {
            for operator in all.as_slice() {
                operator_onto(alloc, into, operator)?;
            }
        }
        Section::Rules { sort, vars, rules } => {
            line_onto(alloc, into, "rules for", &[*sort])?;
            rules_onto(alloc, into, vars.as_slice(), rules.as_slice())?;
        }
        Section::Strategies { sort, definitions } => {
            line_onto(alloc, into, "strategies for", &[*sort])?;
            for definition in definitions.as_slice() {
                definition_onto(alloc, into, definition)?;
            }
        }
    }
    Ok(())
}

/// Puts the lines of a module to the end.
fn module_onto(alloc: Global, into: &mut Vec<u8>, module: &ModuleOutline) -> io::Result<()> {
    token_onto(alloc, into, "module", module.name)?;
    tokens_onto(alloc, into, " parameters", module.parameters.as_slice())?;
    into.push(b'\n')?;
    for section in module.sections.as_slice() {
        section_onto(alloc, into, section)?;
    }
    Ok(())
}

/// Puts the lines of the `LPL` text to the end.
fn lpl_onto(alloc: Global, into: &mut Vec<u8>, lpl: &LplOutline) -> io::Result<()> {
    line_onto(alloc, into, "query of", &[lpl.query_sort])?;
    line_onto(alloc, into, "result of", &[lpl.result_sort])?;
    line_onto(alloc, into, "import", lpl.imports.as_slice())?;
    into.extend_from_slice(b"start")?;
    if let Some(planned) = &lpl.start {
        plan_onto(alloc, into, planned)?;
    }
    into.push(b'\n')?;
    Ok(())
}

/// The outline of an input with the numbers of its tokens, or its refusal.
pub(crate) fn numbered(alloc: Global, input: &[u8]) -> io::Result<Vec<u8>> {
    match outline_of(alloc, input) {
        Err(stop) => stop_line(alloc, &stop),
        Ok((_, outline)) => {
            let mut into = Vec::new(alloc);
            for module in outline.modules.as_slice() {
                module_onto(alloc, &mut into, module)?;
            }
            lpl_onto(alloc, &mut into, &outline.lpl)?;
            line_onto(alloc, &mut into, "query", &[outline.query])?;
            Ok(into)
        }
    }
}
