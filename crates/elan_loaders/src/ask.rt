//! A list of loaders is asked for a text.

ghost use Rattle.std.specs.Prelude.{◌≡◌, ◌≤◌, ◌<◌, ℕ, length, map};
ghost use Rattle.elan_text.specs.Streams.{Rose};
ghost use Rattle.elan_loaders.specs.Libraries.{Answers, AnswersAll, NoneHas, EachRose, NoneFell, SomeRose, first_told};
ghost use Rattle.elan_loaders.specs.declared.loader.Fetched.TheVariants.{Absent, Failed};

use crate::{Fetched, Loader};

impl Loader for Box<dyn Loader> {
    ghost library = { λ loader. (Loader-box loader).library loader.value };

    ghost misses = { λ loader. (Loader-box loader).misses loader.value };

    ghost failures = { λ loader. (Loader-box loader).failures loader.value };

    fn fetch(&mut self, name: &str, into: &mut Vec<u8>) -> Fetched {
        (**self).fetch(name, into)
    }

    fn absences(&self) -> u64 {
        (**self).absences()
    }

    fn faults(&self) -> u64 {
        (**self).faults()
    }
}

/// Asks loaders in order for the text of a name, up to the first one that does not answer that it has none.
pub fn ask_all<L: Loader>(loaders: &mut [L], name: &str, into: &mut Vec<u8>) -> Fetched
    ensures answers { AnswersAll (first_told (map L.library loaders.old) name.now)
        result into.old.items into.new.items }
    ensures libraries { map L.library loaders.new ≡ map L.library loaders.old }
    ensures none { result ≡ Absent → NoneHas (map L.library loaders.old) name.now }
    ensures absent { result ≡ Absent → EachRose (map L.misses loaders.old)
        (map L.misses loaders.new) }
    ensures failed { result ≡ Failed → SomeRose (map L.failures loaders.old)
        (map L.failures loaders.new) }
    ensures misses { NoneFell (map L.misses loaders.old) (map L.misses loaders.new) }
    ensures failures { NoneFell (map L.failures loaders.old) (map L.failures loaders.new) }
{
    let Some((first, rest)) = loaders.split_first_mut() else {
        return Fetched::Absent;
    };
    match first.fetch(name, into) {
        Fetched::Absent => ask_all(rest, name, into),
        answer => answer,
    }
}
