//! The options that take a value.

ghost use Rattle.std.specs.Prelude.{◌≡◌};
ghost use Rattle.elan_cli.specs.Settings as spec;

/// An option that takes a value.
#[derive(Clone, Copy, Debug, PartialEq, Eq)]
pub(crate) enum Setting {
    /// How many workers there are.
    Workers,
    /// How many items are written at most.
    Limit,
    /// How many steps a path may take.
    Steps,
    /// The number of the generated input.
    Demo,
}

impl Setting {
    /// The name of the option.
    pub(crate) fn name(self) -> &'static str
        ensures { result.now ≡ spec.name_of self }
    {
        match self {
            Setting::Workers => "workers",
            Setting::Limit => "limit",
            Setting::Steps => "steps",
            Setting::Demo => "demo",
        }
    }

    /// How the option is written.
    pub(crate) fn written(self) -> &'static str
        ensures { result.now ≡ spec.written self }
    {
        match self {
            Setting::Workers => "--workers",
            Setting::Limit => "--limit",
            Setting::Steps => "--steps",
            Setting::Demo => "--demo",
        }
    }

    /// The greatest number that the option may have.
    pub(crate) fn most(self, plain: bool) -> u32
        ensures { result ≡ spec.most plain self }
    {
        match self {
            Setting::Workers => 64,
            Setting::Limit => 1_000_000,
            Setting::Steps => most_steps(plain),
            Setting::Demo => 200,
        }
    }
}

/// The greatest number of steps.
fn most_steps(plain: bool) -> u32
    ensures { result ≡ spec.most_steps plain }
{
    if plain { 1_000 } else { 1_000_000 }
}

/// The number of steps where none is given.
pub(crate) fn usual_steps(plain: bool) -> u32
    ensures { result ≡ spec.usual_steps plain }
{
    if plain { 1_000 } else { 10_000 }
}
