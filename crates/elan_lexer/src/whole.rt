//! The tokens of a whole text, from the left.

ghost use Rattle.std.specs.Prelude.{◌≡◌, ◌<◌, ◌≤◌, ◌++◌, ℕ, List, length, OnOk, IfOk, IfErr};
ghost use Rattle.std.specs.List.{All};
ghost use Rattle.elan_lexer.specs.Text.{Fits, IsInside, IsRefusal};
ghost use Rattle.elan_lexer.specs.Lex as spec;
ghost use Rattle.elan_lexer.specs.Text as text;
ghost use Rattle.elan_text.specs.declared.refusal.Stop.TheVariants.{NoMemory as OutOfMemory};

use crate::cut::piece;
use crate::fault::{Fault, code};
use crate::places::{Spot, moved};
use crate::token::{Kind, Token};
use elan_text::{Place, Refusal, Stop};
use std::alloc::Global;

/// The tokens of a text of at most 4,194,304 bytes, in the order of their bytes.
///
/// A text that is not cut into tokens, white space and comments is refused at the first such place from the left:
/// E02 for a byte that nothing of these has, E03 for a comment without its end, and E04 for a number past its range.
pub fn tokens(alloc: Global, bytes: &[u8]) -> Result<Vec<Token>, Stop>
    requires { length bytes.now ≤ 4194304 }
    // What is found are the tokens of the text, and no other list is.
    ensures found { IfOk result (λ v. Fits bytes.now v.items) }
    ensures only { IfOk result (λ v. (others : List Token)
        → Fits bytes.now others → others ≡ v.items) }
    ensures within { IfOk result (λ v. All (λ t. IsInside bytes.now t) v.items) }
    ensures count { IfOk result (λ v. length v.items ≤ length bytes.now) }
    // A refusal stands at the first place that nothing begins at.
    ensures refused { IfErr result (λ e. IsRefusal bytes.now e) }
{
    all(alloc, bytes)
}

/// The tokens of a text, as cutting finds them from the left.
fn all(alloc: Global, bytes: &[u8]) -> Result<Vec<Token>, Stop>
    requires { length bytes.now ≤ 4194304 }
    ensures found { IfOk result (λ v. spec.lexed bytes.now ≡ Ok v.items) }
    ensures refused { IfErr result (λ e. spec.Meets (spec.lexed bytes.now) e) }
{
    let mut found = Vec::new(alloc);
    let mut spot = Spot {
        offset: 0,
        at: Place { line: 1, column: 1 },
    };
    let mut left = bytes;
    'pieces: while let [_, ..] = left {
        match piece(left) {
            Ok((kind, count)) => {
                let (front, rest) = left.split_at(count);
                let next = moved(spot, front);
                add(&mut found, kind, spot, next)?;
                spot = next;
                left = rest;
            }
            Err(fault) => return Err(refusal(fault, spot.at)),
        }
    }
    Ok(found)
}

/// Adds the token from one spot to another, unless it is white space or a comment.
fn add(found: &mut Vec<Token>, kind: Option<Kind>, from: Spot, to: Spot) -> Result<(), Stop>
    ensures ok { OnOk result (found.new.items ≡ found.old.items ++ text.token_of kind from to) }
    ensures err { IfErr result (λ e. e ≡ OutOfMemory) }
{
    if let Some(kind) = kind {
        found.push(Token {
            kind,
            start: from.offset,
            end: to.offset,
            at: from.at,
        })?;
    }
    Ok(())
}

/// What is answered at a fault.
fn refusal(fault: Fault, at: Place) -> Stop
    ensures { result ≡ text.refusal_at fault at }
{
    Stop::Refused(Refusal {
        code: code(fault),
        at,
        module: None,
    })
}
