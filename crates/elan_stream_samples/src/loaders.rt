//! What no clause says: calls with ample memory, which fetches fail, and the folder once.

use elan_loaders::{Fetched, FolderLoader, Loader, MemoryLoader};
use std::alloc::Global;
use std::collections::BTreeMap;
use std::fs;
use std::rt::Files;
use std::test::Fail;

/// A loader with one text that fails at its third fetch.
fn one_text(alloc: Global) -> Result<MemoryLoader, Fail> {
    let mut texts = BTreeMap::new(alloc);
    texts.insert(
        String::from_str(alloc, "list")?,
        b"module list end".to_vec(alloc)?,
    )?;
    Ok(MemoryLoader::new(alloc, texts, [3].to_vec(alloc)?))
}

#[test]
fn a_text_is_put_behind_what_is_there(rt: HostRuntime) -> Result<(), Fail> {
    let alloc = rt.alloc();
    let mut loader = one_text(alloc)?;
    let mut into = b"; ".to_vec(alloc)?;
    assert_eq!(rt; loader.fetch("list", &mut into), Fetched::Found);
    assert_eq!(rt; into.as_slice(), b"; module list end".as_slice());
    Ok(())
}

#[test]
fn each_fetch_is_counted(rt: HostRuntime) -> Result<(), Fail> {
    let mut loader = one_text(rt.alloc())?;
    let mut into = Vec::new(rt.alloc());
    for (name, wanted) in [
        ("list", Fetched::Found),
        ("lis", Fetched::Absent),
        ("list", Fetched::Failed),
        ("list", Fetched::Found),
    ] {
        assert_eq!(rt; loader.fetch(name, &mut into), wanted);
    }
    assert_eq!(rt;
        (into.len(), loader.absences(), loader.faults()),
        (30, 1, 1)
    );
    Ok(())
}

/// The names that a loader was asked for, with a space behind each.
fn asked_of(alloc: Global, loader: &MemoryLoader) -> Result<String, Fail> {
    let mut all = String::new(alloc);
    for name in loader.asked() {
        all.push_str(name.as_str())?;
        all.push(' ')?;
    }
    Ok(all)
}

#[test]
fn a_loader_keeps_the_names_that_it_was_asked_for(rt: HostRuntime) -> Result<(), Fail> {
    let mut loader = one_text(rt.alloc())?;
    let mut into = Vec::new(rt.alloc());
    for name in ["list", "lis", "list"] {
        loader.fetch(name, &mut into);
    }
    let found = asked_of(rt.alloc(), &loader)?;
    assert_eq!(rt; found.as_str(), "list lis list ");
    Ok(())
}

/// Asks each loader of a list for a text.
fn ask_all(loaders: &mut Vec<Box<dyn Loader>>, into: &mut Vec<u8>) {
    for at in 0..loaders.len() {
        if at < loaders.len() {
            loaders[at].fetch("list", into);
        }
    }
}

/// A loader from memory, and one from a folder that is not there.
fn two(rt: HostRuntime) -> Result<Vec<Box<dyn Loader>>, Fail> {
    let alloc = rt.alloc();
    let mut loaders: Vec<Box<dyn Loader>> = Vec::new(alloc);
    loaders.push(Box::new(alloc, one_text(alloc)?)?)?;
    let folder = FolderLoader::new(rt, String::from_str(alloc, "none")?);
    loaders.push(Box::new(alloc, folder)?)?;
    Ok(loaders)
}

#[test]
fn loaders_stand_in_a_list(rt: HostRuntime) -> Result<(), Fail> {
    let mut loaders = two(rt)?;
    let mut into = Vec::new(rt.alloc());
    ask_all(&mut loaders, &mut into);
    assert_eq!(rt; into.as_slice(), b"module list end".as_slice());
    for (loader, wanted) in loaders.as_slice().iter().zip([0u64, 1]) {
        assert_eq!(rt; loader.absences(), wanted);
    }
    Ok(())
}

/// A folder with one text and a folder in it that has the name of a text.
fn folder(rt: HostRuntime) -> Result<FolderLoader<HostRuntime>, Fail> {
    fs::create_dir(&rt, "modules")?;
    fs::write(&rt, "modules/list.eln", "module list end")?;
    fs::create_dir(&rt, "modules/folder.eln")?;
    Ok(FolderLoader::new(rt, String::from_str(rt.alloc(), "modules")?))
}

#[test]
fn a_folder_has_the_texts_of_its_files(rt: HostRuntime) -> Result<(), Fail> {
    let mut loader = folder(rt)?;
    let mut into = b"; ".to_vec(rt.alloc())?;
    for (name, wanted) in [
        ("list", Fetched::Found),
        ("nothing", Fetched::Absent),
        ("folder", Fetched::Failed),
    ] {
        assert_eq!(rt; loader.fetch(name, &mut into), wanted);
    }
    assert_eq!(rt; into.as_slice(), b"; module list end".as_slice());
    assert_eq!(rt; (loader.absences(), loader.faults()), (1, 1));
    fs::remove_dir_all(&rt, "modules")?;
    Ok(())
}
