//! The reader that answers what the chart reads.

ghost use Rattle.std.specs.Prelude.{◌≡◌};
ghost use Rattle.elan_reader.specs.Asked as spec;

use elan_clauses::{Read, Unread};
use elan_lexer::Token;
use elan_program::Signature;
use elan_reading::{ReadingRefusal, Sought};
use elan_terms::Pattern;
use elan_text::Code;
use elan_variables::Variables;
use std::alloc::Global;

/// What reads texts by the chart.
#[derive(Clone, Copy, Debug)]
pub struct ChartReader;

/// The code of a refusal, or the want of memory.
fn unread(refusal: ReadingRefusal) -> Unread
    ensures { result ≡ spec.unread_of refusal }
{
    match refusal {
        ReadingRefusal::None => Unread::Refused(Code::E15),
        ReadingRefusal::Several => Unread::Refused(Code::E16),
        ReadingRefusal::TooLong => Unread::Refused(Code::E17),
        ReadingRefusal::NoMemory => Unread::NoMemory,
    }
}

impl Read for ChartReader {
    ghost reads = { λ _. spec.chart_reader };

    #[tactic(auto, using(crate::proofs::ReaderLemmas::told_ok, crate::proofs::ReaderLemmas::told_err))]
    fn read(
        &self,
        alloc: Global,
        signature: &Signature,
        variables: &Variables,
        sought: Sought,
        bytes: &[u8],
        tokens: &[Token],
    ) -> Result<Pattern, Unread> {
        match elan_chart::read(alloc, signature, variables, sought, bytes, tokens) {
            Ok(pattern) => Ok(pattern),
            Err(refusal) => Err(unread(refusal)),
        }
    }
}
