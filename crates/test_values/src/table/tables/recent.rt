//! Lists of recent numbers of any length.

use its_duplicates::Recent;
use std::test::Fail;

/// Whether the first so many numbers are held, all of them or none.
fn holds_all(recent: &Recent, limit: u16, want: bool) -> bool {
    for number in 0..limit {
        if recent.holds(number) != want {
            return false;
        }
    }
    true
}

/// Whether as many numbers as fit are held; one more lets the first go; none is held after `clear`.
fn holds_the_last(mut recent: Recent, limit: u16) -> bool {
    let began_empty = !recent.holds(0);
    for number in 0..limit {
        recent.note(number);
    }
    let held_all = holds_all(&recent, limit, true);
    recent.note(limit);
    let let_go = !recent.holds(0) && recent.holds(limit);
    recent.clear();
    let was_cleared = holds_all(&recent, limit, false);
    recent.note(7);
    began_empty && held_all && let_go && was_cleared && recent.holds(7)
}

#[test]
fn the_last_numbers_are_held(rt: HostRuntime) -> Result<(), Fail> {
    assert!(rt; holds_the_last(Recent::new(rt.alloc(), 1)?, 1));
    assert!(rt; holds_the_last(Recent::new(rt.alloc(), 2)?, 2));
    assert!(rt; holds_the_last(Recent::new(rt.alloc(), 8)?, 8));
    assert!(rt; holds_the_last(Recent::new(rt.alloc(), 64)?, 64));
    Ok(())
}
