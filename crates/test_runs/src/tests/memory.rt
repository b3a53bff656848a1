//! Branches while each growth is refused.

ghost use Rattle.std.specs.Prelude.{◌<◌};

use branches::{Branches, Reply};
use edit_script::{Command, Edit};
use lsa_codec::{AreaId, RouterId};
use lsdb::Database;
use std::alloc::Allocator;
use std::test::*;
use test_support::FailingAlloc;
use whole_run::SAMPLE;

/// The cost of the link of 1.1.1.1 to 2.2.2.2.
fn cost(metric: u16) -> Edit {
    Edit::Cost {
        area: AreaId(0),
        router: RouterId(0x0101_0101),
        link: 1,
        metric,
    }
}

/// Whether the counts of a branch are those of the sample without edits.
fn counts_no_edits<A: Allocator + Copy>(branches: &mut Branches<A>, branch: u8) -> bool
    requires { branch < 8 }
{
    match branches.step(branch, &Command::Info) {
        Ok(Reply::Info(info)) => (info.areas, info.lsas, info.done, info.undone) == (1, 2, 0, 0),
        _ => false,
    }
}

/// Whether a command of a branch is carried out, and memory does not run out.
fn is_done<A: Allocator + Copy>(branches: &mut Branches<A>, branch: u8, command: Command) -> bool
    requires { branch < 8 }
{
    matches!(branches.step(branch, &command), Ok(Reply::Done))
}

/// Whether a command of a branch is refused, and memory does not run out.
fn is_refused<A: Allocator + Copy>(branches: &mut Branches<A>, branch: u8, command: Command) -> bool
    requires { branch < 8 }
{
    match branches.step(branch, &command) {
        Ok(reply) => reply.is_refusal(),
        Err(_) => false,
    }
}

/// Whether all is carried out or refused in a branch, and memory does not run out.
fn takes_no_memory<A: Allocator + Copy>(branches: &mut Branches<A>, branch: u8) -> bool
    requires { branch < 8 }
{
    is_done(branches, branch, Command::Undo(0))
        && is_done(branches, branch, Command::Redo(0))
        && is_refused(branches, branch, Command::Undo(1))
        && is_refused(branches, branch, Command::Redo(1))
        && counts_no_edits(branches, branch)
}

/// The bytes of the sample. The function has no clauses, so that the prover knows nothing of them.
fn sample() -> &'static [u8] {
    SAMPLE
}

/// Whether memory runs out for an edit.
fn wants_memory<A: Allocator + Copy>(branches: &mut Branches<A>) -> bool {
    branches.step(1, &Command::Edit(cost(7))).is_err()
}

#[test]
fn undo_redo_and_info_in_any_branch_while_each_growth_is_refused(
    rt: HostRuntime,
) -> Result<(), Fail> {
    let failing = FailingAlloc::new(rt.alloc(), u64::MAX);
    let database = Database::load(&failing, sample())?;
    failing.set_remaining(0);
    let mut branches = Branches::new(&failing, database);
    for branch in 0..8 {
        assert!(rt;
            takes_no_memory(&mut branches, branch),
            "in branch {branch}"
        );
    }
    assert!(rt; wants_memory(&mut branches));
    Ok(())
}
