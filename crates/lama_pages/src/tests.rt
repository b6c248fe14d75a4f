ghost use Rattle.std.specs.Prelude.{◌≡◌};

use crate::{Page, Steps};
use std::alloc::Global;
use std::marker::Brand;
use std::process::Abort;
use std::sync::ledger::{Blank, Ledger};
use std::test::Fail;

fn crosses_threads<X: Send + Sync>() {}

fn pages_cross_threads<T: Copy + Send + Sync>() {
    crosses_threads::<Page<T>>();
}

// Counts in a ledger of its own, which the caller opens.
fn copy_and_set<L: Ledger, R: Abort>(rt: &R, alloc: Global, blank: Blank) -> Result<(), Fail>
    requires name { blank.name ≡ L.name }
    requires parts { blank.parts ≡ L.parts }
    requires one { blank.parts ≡ 1 }
{
    let mut pages = Steps::<L>::open(blank);
    let original = Page::fill(alloc, 7u32, &mut pages)?;
    let mut copy = original.copy(&mut pages)?;
    assert_eq!(rt; (copy.get(0), copy.get(255)), (7, 7));
    copy.set(255, 9);
    assert_eq!(rt; (copy.get(254), copy.get(255)), (7, 9));
    assert_eq!(rt; original.get(255), 7);
    Ok(())
}

#[test]
fn a_write_to_a_copy_leaves_the_original(rt: HostRuntime) -> Result<(), Fail> {
    copy_and_set::<Brand, HostRuntime>(&rt, rt.alloc(), Blank::new(1))
}

#[test]
fn pages_of_numbers_cross_threads(_rt: HostRuntime) -> Result<(), Fail> {
    pages_cross_threads::<u32>();
    Ok(())
}
