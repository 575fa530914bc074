//! The signature of a flat program, or its first refusal.

ghost use Rattle.std.specs.Prelude.{◌≡◌, ◌≤◌, ◌<◌, ◌^◌, [], length, true, IfOk};
ghost use Rattle.elan_program.specs.Soundness.{is_sound};
ghost use Rattle.elan_signature.specs.Outcomes.{Gives, itself, become};
ghost use Rattle.elan_signature.specs.Walk as steps;
ghost use Rattle.elan_signature.specs.Whole as spec;

use crate::cycle::look_cycles;
use crate::done::{Done, Injection};
use crate::scope::World;
use crate::walk::walk;
use crate::{built_in, sorts};
use elan_modules::Flat;
use elan_numbers::Numbers;
use elan_program::{Signature, are_sound_operators, int_fits, truth_fits};
use elan_text::{Code, NoMemory, Place, Refusal, Stop};
use sqlite_items::Items;
use std::alloc::{AllocError, Global};

/// All sorts, numbered in the order of their first declaration.
fn sorts_of(alloc: Global, flat: &Flat) -> Result<Numbers, NoMemory>
    ensures { IfOk result (λ all. all ≡ spec.sorts_of flat.now) }
{
    let mut known = Numbers::new(alloc);
    let (texts, instances) = (flat.texts.as_slice(), flat.instances.as_slice());
    sorts::add_instances(alloc, &mut known, texts, instances)?;
    Ok(known)
}

/// The sorts as they are counted: those of the built-in instances before all others.
fn counted_of(alloc: Global, flat: &Flat) -> Result<Numbers, NoMemory>
    ensures { IfOk result (λ all. all ≡ spec.counted_of flat.now) }
{
    let mut known = Numbers::new(alloc);
    let (texts, instances) = (flat.texts.as_slice(), flat.instances.as_slice());
    sorts::add_built_ins(alloc, &mut known, instances)?;
    sorts::add_instances(alloc, &mut known, texts, instances)?;
    Ok(known)
}

/// The signature of the built-in modules.
fn built_of(alloc: Global, flat: &Flat, sorts: &Numbers) -> Result<Signature, NoMemory>
    requires { sorts.now ≡ spec.sorts_of flat.now }
    ensures { IfOk result (λ g. g ≡ spec.built_of flat.now) }
{
    let mut signature = Signature {
        sorts: sorts.names(alloc)?,
        operators: Items::new(alloc),
        int: None,
        truth: None,
    };
    built_in::add_built_ins(alloc, sorts, &mut signature, flat.instances.as_slice())?;
    Ok(signature)
}

/// Looks whether the operators fit their operations, their sorts and each other.
#[tactic(auto, unfolding(crate::specs::Whole::look_operators))]
fn look_operators(signature: &Signature) -> Result<(), Stop>
    ensures { Gives itself result (spec.look_operators signature.now) }
{
    if are_sound_operators(signature, signature.operators.as_slice())
        && (int_fits(signature) && truth_fits(signature))
    {
        return Ok(());
    }
    Err(Stop::Refused(Refusal {
        code: Code::E10,
        at: Place { line: 1, column: 1 },
        module: None,
    }))
}

/// A signature with these injections, where nothing is wrong with it.
#[tactic(auto, unfolding(crate::specs::Whole::completed))]
fn completed(
    alloc: Global,
    signature: Signature,
    injections: &[Injection],
) -> Result<Signature, Stop>
    requires sorts { length signature.sorts < 2 ^ 32 }
    requires operators { length signature.operators < 2 ^ 32 }
    requires noted { spec.IsNoted signature.operators injections.now }
    ensures gives { Gives itself result (spec.completed signature injections.now) }
    ensures sound { IfOk result (λ g. is_sound g ≡ true) }
{
    look_operators(&signature)?;
    look_cycles(alloc, injections)?;
    Ok(signature)
}

/// Looks whether there are fewer than 4,294,967,296 of something.
fn look_count(count: usize) -> Result<(), NoMemory>
    ensures { IfOk result (λ _. count < 2 ^ 32) }
{
    if u32::try_from(count).is_err() {
        return Err(AllocError);
    }
    Ok(())
}

/// Walks through a flat program from these operators on.
fn walked(
    alloc: Global,
    flat: &Flat,
    sorts: &Numbers,
    counted: &Numbers,
    done: &mut Done,
) -> Result<(), Stop>
    ensures { Gives (become done.new) result
        (steps.walked flat.now (spec.world_of flat.now sorts.now counted.now) done.old) }
{
    let world = World::new(flat.texts.as_slice(), sorts, counted);
    walk(alloc, done, &world, flat)
}

/// The signature of the built-in modules with what is declared.
#[tactic(auto, unfolding(crate::specs::Whole::finished))]
fn finished(
    alloc: Global,
    flat: &Flat,
    sorts: &Numbers,
    counted: &Numbers,
    built: Signature,
) -> Result<Signature, Stop>
    requires noted { spec.IsNoted built.operators [] }
    requires sorts { sorts.now ≡ built.sorts }
    ensures gives { Gives itself result (spec.finished flat.now counted.now built) }
    ensures sound { IfOk result (λ g. is_sound g ≡ true) }
{
    let mut done = Done {
        operators: built.operators,
        injections: Items::new(alloc),
    };
    walked(alloc, flat, sorts, counted, &mut done)?;
    look_count(built.sorts.len())?;
    look_count(done.operators.len())?;
    let signature = Signature {
        sorts: built.sorts,
        operators: done.operators,
        int: built.int,
        truth: built.truth,
    };
    completed(alloc, signature, done.injections.as_slice())
}

/// The signature of a flat program, or its first refusal.
#[tactic(auto, using(crate::proofs::BuiltLemmas::built_noted))]
pub fn signature(alloc: Global, flat: &Flat) -> Result<Signature, Stop>
    ensures gives { Gives itself result (spec.signature_of flat.now) }
    ensures sound { IfOk result (λ g. is_sound g ≡ true) }
{
    let sorts = sorts_of(alloc, flat)?;
    let counted = counted_of(alloc, flat)?;
    let built = built_of(alloc, flat, &sorts)?;
    finished(alloc, flat, &sorts, &counted, built)
}
