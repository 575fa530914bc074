//! Why reading stops before its end.

ghost use Rattle.std.specs.Prelude.{◌≡◌, ◌++◌, ◌∷◌, [], false, IfOk, IfErr};
ghost use Rattle.elan_phrases.specs.Input.{is_misfit};
ghost use Rattle.elan_phrases.specs.declared.halt.Halt.TheVariants.{NoMemory as OutOfMemory};

use elan_forms::Why;
use sqlite_items::Items;
use std::alloc::AllocError;

/// Why reading stops before its end.
#[derive(Clone, Copy, Debug)]
pub enum Halt {
    /// The next token is refused.
    Misfit(Why),
    /// The machine had no memory to give.
    NoMemory,
}

impl From<AllocError> for Halt {
    ghost from_gives = { λ _ halt. halt ≡ OutOfMemory };

    fn from(_: AllocError) -> Halt {
        Halt::NoMemory
    }
}

/// The items with one more at their end.
pub fn pushed<T: Drop>(items: Items<T>, item: T) -> Result<Items<T>, Halt>
    ensures ok { IfOk result (λ found. found ≡ items ++ item ∷ []) }
    ensures err { IfErr result (λ halt. is_misfit halt ≡ false) }
{
    let mut items = items;
    match items.push(item) {
        Ok(()) => Ok(items),
        Err(_) => Err(Halt::NoMemory),
    }
}
