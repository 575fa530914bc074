//! A program flattened to the list of its module instances.

ghost use Rattle.std.specs.Prelude.{◌≡◌, MatchOption, None, Some};
ghost use Rattle.elan_modules.specs.declared.flat.FlattenRefusal.TheVariants.{NoMemory as OutOfMemory};
ghost use Rattle.elan_modules.specs.Fitting.{module_of};

use elan_lexer::Token;
use elan_syntax::{LplOutline, ModuleOutline, Span};
use elan_text::{Name, Refusal};
use sqlite_items::Items;
use std::alloc::AllocError;

/// A text that was looked at, with its tokens and its modules.
#[derive(Debug, Drop)]
pub struct LoadedText {
    /// The name that was asked for, or None for the stream.
    pub module: Option<Name>,
    pub bytes: Items<u8>,
    pub tokens: Items<Token>,
    pub modules: Items<ModuleOutline>,
}

/// A module that is built in, whose name is `bool`, `int` or `eq`.
#[derive(Clone, Copy, Debug, PartialEq, Eq)]
pub enum Standard {
    Bool,
    Int,
    /// It has one parameter, the sort whose terms are compared.
    Eq,
}

/// Where the text of a module is.
#[derive(Clone, Copy, Debug, PartialEq, Eq)]
pub enum Origin {
    /// It is this built-in module and has none.
    Builtin(Standard),
    /// The number of the text, and of the module in it, both counted from 0.
    Text { text: u32, module: u32 },
}

/// A module with the sorts that stand for its parameters.
#[derive(Debug, Drop)]
pub struct Instance {
    pub name: Name,
    /// Sorts in their whole written form, one for each parameter.
    pub args: Items<Name>,
    pub origin: Origin,
}

/// A flat program: each instance stands once, behind those that it imports.
#[derive(Debug, Drop)]
pub struct Flat {
    /// The stream first, and then the texts that were loaded, in that order.
    pub texts: Items<LoadedText>,
    pub instances: Items<Instance>,
    pub lpl: LplOutline,
    /// The tokens of the query, in the stream.
    pub query: Span,
}

impl Flat {
    /// The text and the module in which an instance of this program stands, or None where its module is built in.
    pub fn module_of(&self, instance: &Instance) -> Option<(&LoadedText, &ModuleOutline)>
        ensures { MatchOption result (module_of self.now instance.now ≡ None)
            (λ found. module_of self.now instance.now ≡ Some (found.0.now, found.1.now)) }
    {
        let Origin::Text { text, module } = instance.origin else {
            return None;
        };
        let text = self.texts.get(text as usize)?;
        let outline = text.modules.get(module as usize)?;
        Some((text, outline))
    }
}

/// Why a program was not flattened.
#[derive(Debug, Drop)]
pub enum FlattenRefusal {
    /// A text is refused.
    Refused(Refusal),
    /// A loader failed.
    LoaderFault,
    /// The machine had no memory to give.
    NoMemory,
}

impl From<AllocError> for FlattenRefusal {
    ghost from_gives = { λ _ e. e ≡ OutOfMemory };

    fn from(_: AllocError) -> FlattenRefusal {
        FlattenRefusal::NoMemory
    }
}
