//! A toy branch, and what the tree answers to its growths.
ghost use Rattle.std.specs.Prelude.{◌≡◌, ◌++◌, IfOk};
ghost use Rattle.elan_tree_samples.specs.Toy.{toy_items, toy_after, either_list, toy_sense, Has};

use elan_text::NoMemory;
use elan_tree::branch::{Branch, Grown, Growth, Resumed};
use elan_tree::name::Name;
use elan_tree::posts::{Blank, Spot};
use elan_tree::tree::Tree;
use std::alloc::Global;
use std::marker::Brand;
use std::process::Abort;
use std::sync::{Arc, Wait};
use std::test::Fail;

#[derive(Drop)]
struct Toy {
    number: u64,
    alloc: Global,
}

/// Keeps an item, or makes the branch of its number of it.
#[derive(Drop)]
struct Rest {
    makes: bool,
    alloc: Global,
}

fn make_toy(alloc: Global, number: u64) -> Toy
    ensures { result.number ≡ number }
{
    Toy { number, alloc }
}

/// Two branches, one after the other.
fn both(alloc: Global, first: u64, second: u64) -> Result<Growth<Toy>, NoMemory>
    ensures { IfOk result (Has (λ b. b.number) (λ k. k.makes) (toy_items first ++ toy_items second)) }
{
    let mut all = Vec::new(alloc);
    all.push(make_toy(alloc, first))?;
    all.push(make_toy(alloc, second))?;
    Ok(Growth::Many(all))
}

/// The first of two branches that has an item, with what is made of its items.
fn either(
    alloc: Global,
    one: bool,
    makes: bool,
    first: u64,
    second: u64,
) -> Result<Growth<Toy>, NoMemory>
    ensures { IfOk result (Has (λ b. b.number) (λ k. k.makes) (either_list one makes first second)) }
{
    let mut alts = Vec::new(alloc);
    alts.push((
        make_toy(alloc, first),
        Arc::new(alloc, Rest { makes, alloc })?,
    ))?;
    alts.push((
        make_toy(alloc, second),
        Arc::new(alloc, Rest { makes, alloc })?,
    ))?;
    Ok(Growth::Scope { one, alts })
}

impl Branch for Toy {
    type Item = u64;

    type Then = Rest;

    type Meaning = u64;

    ghost sense = { toy_sense (λ b. b.number) (λ k. k.makes) };

    fn expand<R: Wait + Sync>(&self, rt: &R) -> Result<Growth<Toy>, NoMemory> {
        let _ = rt;
        if self.number == 0 {
            either(self.alloc, true, false, 1, 2)
        } else if self.number == 1 {
            both(self.alloc, 3, 4)
        } else if self.number == 10 {
            both(self.alloc, 11, 12)
        } else if self.number == 20 {
            either(self.alloc, false, true, 21, 22)
        } else if self.number == 21 {
            Ok(Growth::Nothing)
        } else if self.number == 22 {
            both(self.alloc, 23, 24)
        } else {
            Ok(Growth::Item(self.number))
        }
    }

    fn resume<R: Wait + Sync>(rt: &R, then: &Rest, item: &u64) -> Result<Resumed<Toy>, NoMemory> {
        let _ = rt;
        if then.makes {
            Ok(Resumed::Next(make_toy(then.alloc, *item)))
        } else {
            Ok(Resumed::Item(*item))
        }
    }
}

/// What a growth answered: the released items in all, the places cut, and how many places were opened. Nothing is stale.
type Told = Option<(u64, u64, usize)>;

/// Expands the branch of a spot, grows the tree there, and keeps the opened spots.
fn step<N: Name, R: Wait + Sync>(
    rt: &R,
    tree: &mut Tree<'_, Toy, N>,
    spots: &mut Vec<Spot<Toy, N>>,
    at: usize,
) -> Result<Told, Fail> {
    let spot = spots.get(at).ok_or("no such spot")?.again();
    let growth = tree.posts().branch(&spot).expand(rt)?;
    match tree.grow(rt, &spot, growth)? {
        Grown::Taken {
            released,
            cut,
            opened,
        } => {
            let count = opened.len();
            spots.extend(opened)?;
            Ok(Some((released, cut, count)))
        }
        Grown::Stale => Ok(None),
    }
}

/// Grows a tree at the spots of a script, and compares each answer. The spot 0 is the root, and opened spots follow in order.
fn script<N: Name, R: Abort + Wait + Sync>(
    rt: &R,
    alloc: Global,
    blank: Blank<Toy>,
    number: u64,
    limit: u32,
    steps: &[(usize, Told)],
) -> Result<Vec<u64>, Fail>
    requires { blank ≡ N.shelves }
{
    let posts = blank.named::<N>();
    let mut spots = Vec::new(alloc);
    let root = posts.post(rt, make_toy(alloc, number))?;
    spots.push(root.again())?;
    let mut tree = Tree::new(alloc, &posts, root, limit)?;
    for (at, told) in steps {
        assert_eq!(rt; step(rt, &mut tree, &mut spots, *at)?, *told);
    }
    assert!(rt; tree.is_over());
    Ok(tree.into_items())
}

#[test]
fn the_first_item_cuts_the_other_places(rt: HostRuntime) -> Result<(), Fail> {
    let steps = [
        (0, Some((0, 0, 2))),
        (1, Some((0, 0, 2))),
        (3, Some((1, 2, 0))),
        (4, None),
        (3, None),
    ];
    let items = script::<Brand, _>(&rt, rt.alloc(), Blank::new(rt.alloc())?, 0, 5, &steps)?;
    assert_eq!(rt; items.as_slice(), [3].as_slice());
    Ok(())
}

#[test]
fn a_tree_of_limit_one_is_over_after_one_item(rt: HostRuntime) -> Result<(), Fail> {
    let steps = [(0, Some((0, 0, 2))), (1, Some((1, 1, 0)))];
    let items = script::<Brand, _>(&rt, rt.alloc(), Blank::new(rt.alloc())?, 10, 1, &steps)?;
    assert_eq!(rt; items.as_slice(), [11].as_slice());
    Ok(())
}

#[test]
fn items_keep_their_order_in_any_order_of_growing(rt: HostRuntime) -> Result<(), Fail> {
    let steps = [
        (0, Some((0, 0, 2))),
        (2, Some((0, 0, 2))),
        (4, Some((0, 0, 0))),
        (1, Some((0, 0, 1))),
        (5, Some((0, 0, 0))),
        (3, Some((0, 0, 1))),
        (6, Some((2, 0, 0))),
    ];
    let items = script::<Brand, _>(&rt, rt.alloc(), Blank::new(rt.alloc())?, 20, 5, &steps)?;
    assert_eq!(rt; items.as_slice(), [23, 24].as_slice());
    Ok(())
}

/// The path of a spot after some growths of the root 0.
fn path_after<N: Name, R: Wait + Sync>(
    rt: &R,
    alloc: Global,
    blank: Blank<Toy>,
    steps: &[usize],
    at: usize,
) -> Result<Option<Vec<u64>>, Fail>
    requires { blank ≡ N.shelves }
{
    let posts = blank.named::<N>();
    let mut spots = Vec::new(alloc);
    let root = posts.post(rt, make_toy(alloc, 0))?;
    spots.push(root.again())?;
    let mut tree = Tree::new(alloc, &posts, root, 5)?;
    for at in steps {
        let _told = step(rt, &mut tree, &mut spots, *at)?;
    }
    let spot = spots.get(at).ok_or("no such spot")?.again();
    Ok(tree.path_of(&spot)?.map(|path| path.into_vec()))
}

#[test]
fn the_path_of_the_root_is_empty(rt: HostRuntime) -> Result<(), Fail> {
    let path = path_after::<Brand, _>(&rt, rt.alloc(), Blank::new(rt.alloc())?, &[], 0)?;
    assert_eq!(rt; path.ok_or("not open")?.len(), 0);
    Ok(())
}

#[test]
fn a_path_counts_children_from_zero(rt: HostRuntime) -> Result<(), Fail> {
    let path = path_after::<Brand, _>(&rt, rt.alloc(), Blank::new(rt.alloc())?, &[0, 1], 4)?;
    assert_eq!(rt; path.ok_or("not open")?.as_slice(), [0, 1].as_slice());
    Ok(())
}

#[test]
fn a_place_that_grew_has_no_path(rt: HostRuntime) -> Result<(), Fail> {
    let path = path_after::<Brand, _>(&rt, rt.alloc(), Blank::new(rt.alloc())?, &[0, 1], 1)?;
    assert!(rt; path.is_none());
    Ok(())
}

/// Settles a tree that is settled, and compares what stays.
fn settled<N: Name, R: Abort + Wait + Sync>(
    rt: &R,
    alloc: Global,
    blank: Blank<Toy>,
) -> Result<(), Fail>
    requires { blank ≡ N.shelves }
{
    let posts = blank.named::<N>();
    let mut spots = Vec::new(alloc);
    let root = posts.post(rt, make_toy(alloc, 10))?;
    spots.push(root.again())?;
    let mut tree = Tree::new(alloc, &posts, root, 7)?;
    let _told = step(rt, &mut tree, &mut spots, 0)?;
    let _told = step(rt, &mut tree, &mut spots, 1)?;
    assert_eq!(rt; tree.settle(rt)?, 1);
    assert_eq!(rt; tree.released(), [11].as_slice());
    assert_eq!(rt; (tree.grown(), tree.limit()), (2, 7));
    assert_eq!(rt; tree.root().number(), 0);
    Ok(())
}

#[test]
fn a_settled_tree_stays(rt: HostRuntime) -> Result<(), Fail> {
    settled::<Brand, _>(&rt, rt.alloc(), Blank::new(rt.alloc())?)
}
