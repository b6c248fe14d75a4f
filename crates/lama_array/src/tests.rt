ghost use Rattle.std.specs.Prelude.{◌≡◌, ◌+◌, ◌≤◌, OnOk, length};

use crate::{Builder, Edit, VArray};
use lama_pages::Steps;
use std::alloc::{AllocError, Global};
use std::marker::Brand;
use std::sync::ledger::{Blank, Ledger};
use std::test::Fail;

fn crosses_threads<X: Send + Sync>() {}

fn arrays_cross_threads<T: Copy + Send + Sync>() {
    crosses_threads::<VArray<T>>();
    crosses_threads::<Edit<T>>();
    crosses_threads::<Builder<T>>();
}

fn records(alloc: Global, version: &VArray<u32>) -> Result<Vec<u32>, AllocError> {
    let mut records = Vec::new(alloc);
    for i in 0..version.len() {
        records.push(version.get(i))?;
    }
    Ok(records)
}

// Ten writes into the first page, which make one page in all.
fn ten_writes<L: Ledger>(edit: &mut Edit<u32>, pages: &mut Steps<L>) -> Result<(), AllocError>
    requires { 256 ≤ length edit.old.items }
    ensures { pages.new ≤ pages.old + 1 }
{
    for i in 0..10u32 {
        edit.set(i * 20, i, pages)?;
    }
    Ok(())
}

// Two pages of a version of 257 records.
fn build_257<L: Ledger>(
    alloc: Global,
    items: &[u32],
    pages: &mut Steps<L>,
) -> Result<VArray<u32>, AllocError>
    requires { length items.now ≡ 257 }
    ensures { OnOk result (pages.new ≡ pages.old + 2) }
{
    VArray::build(alloc, items, pages)
}

// A version, and the one that an edit of it makes.
fn edited<L: Ledger>(alloc: Global, blank: Blank) -> Result<(VArray<u32>, VArray<u32>), AllocError>
    requires name { blank.name ≡ L.name }
    requires parts { blank.parts ≡ L.parts }
    requires one { blank.parts ≡ 1 }
{
    let mut pages = Steps::<L>::open(blank);
    let old = VArray::filled(alloc, 300, 7, &mut pages)?;
    let mut edit = old.edit()?;
    if edit.len() == 300 {
        edit.set(299, 8, &mut pages)?;
        edit.extend_filled(2, 1, &mut pages)?;
    }
    let new = edit.freeze()?;
    Ok((old, new))
}

#[test]
fn an_edit_leaves_the_old_version(rt: HostRuntime) -> Result<(), Fail> {
    let (old, new) = edited::<Brand>(rt.alloc(), Blank::new(1))?;
    let shared = old.share()?;
    let mut wanted = vec![in rt.alloc(); 7; 300]?;
    assert_eq!(rt; records(rt.alloc(), &old)?, wanted);
    assert_eq!(rt; records(rt.alloc(), &shared)?, wanted);
    wanted.truncate(299);
    wanted.extend_from_slice(&[8, 1, 1])?;
    assert_eq!(rt; records(rt.alloc(), &new)?, wanted);
    Ok(())
}

// An edit that is extended again and again, across the edges of pages.
fn extended<L: Ledger>(
    alloc: Global,
    parts: &[(u32, u32)],
    blank: Blank,
) -> Result<VArray<u32>, AllocError>
    requires name { blank.name ≡ L.name }
    requires parts { blank.parts ≡ L.parts }
    requires one { blank.parts ≡ 1 }
{
    let mut pages = Steps::<L>::open(blank);
    let empty = VArray::filled(alloc, 0, 0, &mut pages)?;
    let mut edit = empty.edit()?;
    for (n, x) in parts {
        if edit.len() <= 10_000 && *n <= 10_000 {
            edit.extend_filled(*n, *x, &mut pages)?;
        }
    }
    edit.freeze()
}

#[test]
fn extensions_meet_at_the_edges_of_pages(rt: HostRuntime) -> Result<(), Fail> {
    let parts = [(255, 1), (1, 2), (0, 3), (600, 4), (1, 5)];
    let version = extended::<Brand>(rt.alloc(), &parts, Blank::new(1))?;
    let mut wanted = Vec::new(rt.alloc());
    for (n, x) in &parts {
        for _ in 0..*n {
            wanted.push(*x)?;
        }
    }
    assert_eq!(rt; records(rt.alloc(), &version)?, wanted);
    Ok(())
}

// A version of these items, and one with ten of them written over.
fn built<L: Ledger>(
    alloc: Global,
    items: &[u32],
    blank: Blank,
) -> Result<(VArray<u32>, VArray<u32>), AllocError>
    requires name { blank.name ≡ L.name }
    requires parts { blank.parts ≡ L.parts }
    requires one { blank.parts ≡ 1 }
    requires size { length items.now ≡ 257 }
{
    let mut pages = Steps::<L>::open(blank);
    let version = build_257(alloc, items, &mut pages)?;
    let mut edit = version.edit()?;
    if edit.len() >= 256 {
        ten_writes(&mut edit, &mut pages)?;
    }
    let rewritten = edit.freeze()?;
    Ok((version, rewritten))
}

#[test]
fn a_built_version_has_its_items(rt: HostRuntime) -> Result<(), Fail> {
    let mut wanted = vec![in rt.alloc(); 4; 257]?;
    assert_eq!(rt; wanted.len(), 257);
    let (version, rewritten) = built::<Brand>(rt.alloc(), &wanted, Blank::new(1))?;
    assert_eq!(rt; records(rt.alloc(), &version)?, wanted);
    for i in 0..10u32 {
        wanted[i as usize * 20] = i;
    }
    assert_eq!(rt; records(rt.alloc(), &rewritten)?, wanted);
    Ok(())
}

// The second record of a builder's two, and of an edit's.
fn two_pushed<L: Ledger>(alloc: Global, blank: Blank) -> Result<Option<(u32, u32)>, AllocError>
    requires name { blank.name ≡ L.name }
    requires parts { blank.parts ≡ L.parts }
    requires one { blank.parts ≡ 1 }
{
    let mut pages = Steps::<L>::open(blank);
    let mut builder = Builder::new(alloc);
    builder.push(5, &mut pages)?;
    builder.push(6, &mut pages)?;
    let version = builder.finish()?;
    let edit = version.edit()?;
    if version.len() == 2 && edit.len() == 2 {
        Ok(Some((version.get(1), edit.get(1))))
    } else {
        Ok(None)
    }
}

#[test]
fn a_builder_keeps_the_order(rt: HostRuntime) -> Result<(), Fail> {
    assert_eq!(rt;
        two_pushed::<Brand>(rt.alloc(), Blank::new(1))?,
        Some((6, 6))
    );
    Ok(())
}

#[test]
fn arrays_of_numbers_cross_threads(_rt: HostRuntime) -> Result<(), Fail> {
    arrays_cross_threads::<u32>();
    Ok(())
}
