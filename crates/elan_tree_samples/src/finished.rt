//! A toy root is finished.
ghost use Rattle.std.specs.Prelude.{◌≡◌, IfOk};
ghost use Rattle.elan_tree_samples.specs.Single.{toy_sense};
ghost use Rattle.elan_tree.specs.Growths.{GrowthOf};

use elan_alone::finish;
use elan_text::NoMemory;
use elan_tree::branch::{Branch, Growth, Resumed};
use elan_tree::name::Name;
use elan_tree::posts::Blank;
use elan_tree::tree::Tree;
use std::alloc::Global;
use std::marker::Brand;
use std::sync::{Arc, Wait};
use std::test::Fail;

#[derive(Drop)]
struct Toy {
    number: u64,
    alloc: Global,
}

fn make_toy(alloc: Global, number: u64) -> Toy
    ensures { result.number ≡ number }
{
    Toy { number, alloc }
}

/// The growth of 0: one item of 1 or else of 2.
fn one_of_two(alloc: Global, root: &Toy) -> Result<Growth<Toy>, NoMemory>
    requires { root.now.number ≡ 0 }
    ensures { IfOk result (GrowthOf (toy_sense (λ b. b.number)) root.now) }
{
    let _ = root;
    let mut alts = Vec::new(alloc);
    alts.push((make_toy(alloc, 1), Arc::new(alloc, 0)?))?;
    alts.push((make_toy(alloc, 2), Arc::new(alloc, 0)?))?;
    Ok(Growth::Scope { one: true, alts })
}

/// The growth of 1: 3 and 4.
fn two(alloc: Global, branch: &Toy) -> Result<Growth<Toy>, NoMemory>
    requires { branch.now.number ≡ 1 }
    ensures { IfOk result (GrowthOf (toy_sense (λ b. b.number)) branch.now) }
{
    let _ = branch;
    let mut all = Vec::new(alloc);
    all.push(make_toy(alloc, 3))?;
    all.push(make_toy(alloc, 4))?;
    Ok(Growth::Many(all))
}

impl Branch for Toy {
    type Item = u64;

    type Then = u64;

    type Meaning = u64;

    ghost sense = { toy_sense (λ b. b.number) };

    fn expand<R: Wait + Sync>(&self, rt: &R) -> Result<Growth<Toy>, NoMemory> {
        let _ = rt;
        if self.number == 0 {
            one_of_two(self.alloc, self)
        } else if self.number == 1 {
            two(self.alloc, self)
        } else {
            Ok(Growth::Item(self.number))
        }
    }

    fn resume<R: Wait + Sync>(rt: &R, then: &u64, item: &u64) -> Result<Resumed<Toy>, NoMemory> {
        let _ = rt;
        let _ = then;
        Ok(Resumed::Item(*item))
    }
}

fn finished<N: Name, R: Wait + Sync>(
    rt: &R,
    alloc: Global,
    blank: Blank<Toy>,
) -> Result<Vec<u64>, NoMemory>
    requires { blank ≡ N.shelves }
{
    let posts = blank.named::<N>();
    let root = posts.post(rt, make_toy(alloc, 0))?;
    let tree = Tree::new(alloc, &posts, root, 5)?;
    finish(rt, tree)
}

#[test]
fn the_toy_root_has_one_item(rt: HostRuntime) -> Result<(), Fail> {
    let items = finished::<Brand, _>(&rt, rt.alloc(), Blank::new(rt.alloc())?)?;
    assert_eq!(rt; items.as_slice(), [3].as_slice());
    Ok(())
}
